// The places of a store, by the numbers that they are shown by.
ghost use Rattle.std.specs.Prelude.{◌≡◌, ℕ, All, IsTrue, ◌↔◌, OnOk, to_bits};
ghost use Rattle.std.specs.Float.{binary64};
ghost use Rattle.std.specs.Io.KnownBytes.{Appends};
ghost use Rattle.streams.specs.Printed.{behind_blanks};

use crate::digits::Digits;
use std::io;
use std::io::Write;
use std::num::f64_to_bits_with_nan;

// A number is shown by itself, an f64 by its bits; every NaN has those of the quiet one.
pub trait Bits: Copy {
    ghost bits: { Self → ℕ };

    fn bits(self) -> u64
        ensures { result ≡ bits self };
}

impl Bits for u32 {
    ghost bits = { λ n. n };

    fn bits(self) -> u64 {
        u64::from(self)
    }
}

impl Bits for usize {
    ghost bits = { λ n. n };

    fn bits(self) -> u64 {
        self as u64
    }
}

impl Bits for f64 {
    ghost bits = { λ x. to_bits binary64 x };

    fn bits(self) -> u64 {
        f64_to_bits_with_nan(self)
    }
}

// Prints every place, each behind a blank.
pub fn write_places<W: Write, T: Bits, D: Digits>(
    writer: &mut W,
    places: &[T],
    digits: D,
) -> io::Result<()>
    ensures { OnOk result (Appends (W.contents writer.old) (W.contents writer.new) (behind_blanks (D.digits digits) T.bits places.now)) }
{
    for place in places {
        writer.write_all(b" ")?;
        digits.write(writer, place.bits())?;
    }
    Ok(())
}

// Whether every place is zero; of f64, +0.
pub fn all_zero<T: Bits>(places: &[T]) -> bool
    ensures { IsTrue result ↔ All (λ place. T.bits place ≡ 0) places.now }
{
    places.iter().all(|place| place.bits() == 0)
}
