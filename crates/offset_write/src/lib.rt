// The text of an offset.
#![tactic(auto)]

ghost use Rattle.std.specs.Prelude.{◌≡◌, ◌+◌, ◌<◌, ◌≤◌};
ghost use Rattle.foundation.specs.Offset.{largest_offset, sign_byte, text_with};

// A digit's byte.
fn digit_byte(d: u64) -> u8
    requires { d < 10 }
    ensures { result ≡ 48 + d }
{
    b'0' + d as u8
}

// A sign's byte.
fn sign(minus: bool) -> u8
    ensures { result ≡ sign_byte minus }
{
    if minus {
        return b'-';
    }
    b'+'
}

// The 14 bytes of a sign and a size.
pub fn text_with(minus: bool, size: u64) -> [u8; 14]
    requires { size ≤ largest_offset }
    ensures { result ≡ text_with minus size }
{
    let degrees = size / 3600000;
    let minutes = size / 60000 % 60;
    let seconds = size / 1000 % 60;
    let thousandths = size % 1000;
    [
        sign(minus),
        digit_byte(degrees / 100),
        digit_byte(degrees % 100 / 10),
        digit_byte(degrees % 100 % 10),
        b' ',
        digit_byte(minutes / 10),
        digit_byte(minutes % 10),
        b' ',
        digit_byte(seconds / 10),
        digit_byte(seconds % 10),
        b'.',
        digit_byte(thousandths / 100),
        digit_byte(thousandths % 100 / 10),
        digit_byte(thousandths % 100 % 10),
    ]
}
