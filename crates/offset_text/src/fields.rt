// The numbers of a text's fields.
ghost use Rattle.std.specs.Prelude.{◌≡◌, ◌+◌, ◌≤◌, ◌<◌, length};
ghost use Rattle.foundation.specs.OffsetCall.{offset_bytes};
ghost use Rattle.foundation.specs.OffsetReading.{digit_at, two_at, three_at, in_range, size_read};

// The number of a digit; of a byte before the digits it is 0.
fn digit_at(text: &[u8], place: usize) -> u64
    requires { place < length text.now }
    ensures value { result ≡ digit_at text.now place }
    ensures bound { result ≤ 207 }
{
    u64::from(text[place].saturating_sub(b'0'))
}

// The number of two digits.
fn two_at(text: &[u8], place: usize) -> u64
    requires { place + 1 < length text.now }
    ensures value { result ≡ two_at text.now place }
    ensures bound { result ≤ 2277 }
{
    10 * digit_at(text, place) + digit_at(text, place + 1)
}

// The number of three digits: it goes by that of the last two.
fn three_at(text: &[u8], place: usize) -> u64
    requires { place + 2 < length text.now }
    ensures value { result ≡ three_at text.now place }
    ensures bound { result ≤ 22977 }
{
    100 * digit_at(text, place) + two_at(text, place + 1)
}

// Whether degrees, minutes and seconds are in range.
pub fn in_range(text: &[u8]) -> bool
    requires { length text.now ≡ offset_bytes }
    ensures { result ≡ in_range text.now }
{
    let degrees = three_at(text, 1);
    let minutes = two_at(text, 5);
    let seconds = two_at(text, 8);
    (degrees < 360) & (minutes < 60) & (seconds < 60)
}

// The milliarcseconds of a text, without their sign.
pub fn size_read(text: &[u8]) -> u64
    requires { length text.now ≡ offset_bytes }
    ensures { result ≡ size_read text.now }
{
    let degrees = three_at(text, 1);
    let minutes = two_at(text, 5);
    let seconds = two_at(text, 8);
    let thousandths = three_at(text, 11);
    1000 * (60 * (60 * degrees + minutes) + seconds) + thousandths
}
