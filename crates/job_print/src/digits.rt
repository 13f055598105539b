// Bytes, words, numbers in decimal and hexadecimal digits.
//
// Digits are made here by hand: std's `write!` promises its text only where it succeeds, and no clause says that it does, while an answer to a job cannot fail.
ghost use Rattle.std.specs.Prelude.{◌≡◌, [], ◌∷◌, ◌<◌, length};
ghost use Rattle.foundation.specs.Numbers.{bits_of};
ghost use Rattle.foundation.specs.Printing.{decimal, hex_digit, hex_digits};
ghost use Rattle.job_print.specs.Page.{HasRoom, Wrote};

use crate::page::Page;

// 0 to 9, then A to F.
fn hex_digit(d: u8) -> u8
    requires { d < 16 }
    ensures { result ≡ hex_digit d }
{
    match d {
        0..=9 => b'0' + d,
        _ => b'A' + (d - 10),
    }
}

// The bits of a number. `f64::to_bits` must not meet a NaN: its bits are those that the definition gives it.
pub fn bits_of(x: f64) -> u64
    ensures { result ≡ bits_of x }
{
    if x.is_nan() {
        0x7ff8_0000_0000_0000
    } else {
        x.to_bits()
    }
}

impl Page<'_> {
    // One byte.
    pub fn put_byte(&mut self, byte: u8)
        requires { HasRoom self.old 1 }
        ensures { Wrote self.old self.new (byte ∷ []) }
    {
        self.bytes[self.end] = byte;
        self.end += 1;
    }

    // The bytes of a word.
    pub fn put_word(&mut self, word: &[u8])
        requires { HasRoom self.old (length word.now) }
        ensures { Wrote self.old self.new word.now }
    {
        let end = self.end + word.len();
        self.bytes[self.end..end].copy_from_slice(word);
        self.end = end;
    }

    // The digits before the last one first.
    pub fn put_decimal(&mut self, n: usize)
        requires { HasRoom self.old (length (decimal n)) }
        ensures { Wrote self.old self.new (decimal n) }
    {
        if n >= 10 {
            self.put_decimal(n / 10);
        }
        self.put_byte(b'0' + (n % 10) as u8);
    }

    // The last `count` hexadecimal digits of n, the higher ones first.
    pub fn put_hex(&mut self, count: usize, n: u64)
        requires { HasRoom self.old count }
        ensures { Wrote self.old self.new (hex_digits count n []) }
    {
        if count > 0 {
            self.put_hex(count - 1, n / 16);
            self.put_byte(hex_digit((n % 16) as u8));
        }
    }
}
