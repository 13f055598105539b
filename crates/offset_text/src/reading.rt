// Whether a text can be read: its form, its ranges, and no minus zero.
ghost use Rattle.std.specs.Prelude.{◌≡◌};
ghost use Rattle.foundation.specs.OffsetReading as Reading;

use crate::fields::{in_range, size_read};
use crate::form::has_form;

// Whether a text is one of an offset.
pub fn readable(text: &[u8]) -> bool
    ensures { result ≡ Reading.readable text.now }
{
    if !has_form(b"+000 00 00.000", text) || !in_range(text) {
        return false;
    }
    text[0] != b'-' || size_read(text) != 0
}
