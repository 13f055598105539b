// Whether a text has a form, byte by byte.
ghost use Rattle.std.specs.Prelude.{◌≡◌};
ghost use Rattle.foundation.specs.OffsetReading.{may_stand, has_form};

// Whether a byte may stand where the form has `kind`: for "+" a sign, for "0" a digit, else that byte itself.
fn may_stand(kind: u8, byte: u8) -> bool
    ensures { result ≡ may_stand kind byte }
{
    match kind {
        b'+' => byte == b'+' || byte == b'-',
        b'0' => byte.is_ascii_digit(),
        _ => byte == kind,
    }
}

// As many bytes as the form has, and each may stand at its place.
pub fn has_form(kinds: &[u8], text: &[u8]) -> bool
    ensures { result ≡ has_form kinds.now text.now }
{
    kinds.len() == text.len()
        && kinds
            .iter()
            .zip(text)
            .all(|(kind, byte)| may_stand(*kind, *byte))
}
