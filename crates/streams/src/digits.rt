// How a number is printed: in decimal, or in hexadecimal.
ghost use Rattle.std.specs.Prelude.{ℕ, List, OnOk};
ghost use Rattle.std.specs.Fmt.{decimal};
ghost use Rattle.std.specs.Io.KnownBytes.{Appends};
ghost use Rattle.streams.specs.Numbers.{hexadecimal};

use crate::output::{write_decimal, write_hex};
use std::io;
use std::io::Write;

pub trait Digits: Copy {
    ghost digits: { Self → ℕ → List ℕ };

    fn write<W: Write>(self, writer: &mut W, n: u64) -> io::Result<()>
        ensures { OnOk result (Appends (W.contents writer.old) (W.contents writer.new) (digits self n)) };
}

#[derive(Clone, Copy)]
pub struct Decimal;

impl Digits for Decimal {
    ghost digits = { λ _. decimal };

    fn write<W: Write>(self, writer: &mut W, n: u64) -> io::Result<()> {
        write_decimal(writer, n)
    }
}

// With zeros in front up to so many digits.
#[derive(Clone, Copy)]
pub struct Hexadecimal(pub usize);

impl Digits for Hexadecimal {
    ghost digits = { λ it. hexadecimal it.0 };

    fn write<W: Write>(self, writer: &mut W, n: u64) -> io::Result<()> {
        write_hex(writer, n, self.0)
    }
}
