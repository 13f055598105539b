// Values out of their bytes, the low one first.
ghost use Rattle.std.specs.Prelude.{◌≡◌, ℕ, List, length, IfOk, MatchOption, from_bits};
ghost use Rattle.std.specs.Float.{binary64};
ghost use Rattle.std.specs.Int.{w8, w16, w32, w64, from_le_bytes};
ghost use Rattle.std.specs.Io.KnownBytes.{IsAtEnd};
ghost use Rattle.streams.specs.Taken.{FilledFrom, ReadFrom};

use crate::halts::Halt;
use crate::input::read_bytes;
use std::io;
use std::io::Read;
use std::num::f64_from_bits_with_nan;

pub trait FromBytes: Copy {
    ghost size: { ℕ };

    ghost made: { List ℕ → Self };

    // The next value; none where the input ends before its bytes.
    fn read<R: Read>(reader: &mut R) -> io::Result<Option<Self>>
        ensures { IfOk result (λ read. MatchOption read (IsAtEnd (R.remaining reader.new))
            (λ value. ReadFrom size made (R.remaining reader.old) (R.remaining reader.new) value)) };
}

impl FromBytes for u8 {
    ghost size = { 1 };

    ghost made = { from_le_bytes w8 };

    fn read<R: Read>(reader: &mut R) -> io::Result<Option<u8>> {
        Ok(read_bytes(reader)?.map(u8::from_le_bytes))
    }
}

impl FromBytes for u16 {
    ghost size = { 2 };

    ghost made = { from_le_bytes w16 };

    fn read<R: Read>(reader: &mut R) -> io::Result<Option<u16>> {
        Ok(read_bytes(reader)?.map(u16::from_le_bytes))
    }
}

impl FromBytes for u32 {
    ghost size = { 4 };

    ghost made = { from_le_bytes w32 };

    fn read<R: Read>(reader: &mut R) -> io::Result<Option<u32>> {
        Ok(read_bytes(reader)?.map(u32::from_le_bytes))
    }
}

impl FromBytes for usize {
    ghost size = { 8 };

    ghost made = { from_le_bytes w64 };

    fn read<R: Read>(reader: &mut R) -> io::Result<Option<usize>> {
        Ok(read_bytes(reader)?.map(usize::from_le_bytes))
    }
}

// An f64 by its bits; those of any NaN make a NaN.
impl FromBytes for f64 {
    ghost size = { 8 };

    ghost made = { λ bytes. from_bits binary64 (from_le_bytes w64 bytes) };

    fn read<R: Read>(reader: &mut R) -> io::Result<Option<f64>> {
        Ok(
            read_bytes(reader)?
                .map(u64::from_le_bytes)
                .map(|bits| f64_from_bits_with_nan(bits)),
        )
    }
}

// Fills `places` with values of the kind V; none where the input ends before the last one.
pub fn fill<R: Read, V: FromBytes, T: From<V> + Copy>(
    reader: &mut R,
    places: &mut [T],
) -> io::Result<Option<()>>
    ensures { IfOk result (λ filled. MatchOption filled (IsAtEnd (R.remaining reader.new))
        (λ _. FilledFrom V.size V.made T.from_gives (R.remaining reader.old) (R.remaining reader.new) places.new)) }
{
    for place in places.iter_mut() {
        let Some(value) = V::read(reader)? else {
            return Ok(None);
        };
        *place = T::from(value);
    }
    Ok(Some(()))
}

// Reads `count` values of the kind V into the front of a store: the part that they fill. Where the store or the input has fewer, what is read is no request.
pub fn read_part<'a, R: Read, V: FromBytes, T: From<V> + Copy>(
    reader: &mut R,
    store: &'a mut [T],
    count: usize,
) -> Result<&'a [T], Halt>
    ensures count { IfOk result (λ part. length part.now ≡ count) }
    ensures values { IfOk result (λ part. FilledFrom V.size V.made T.from_gives (R.remaining reader.old) (R.remaining reader.new) part.now) }
{
    let part = store.get_mut(..count).ok_or(Halt::Bad)?;
    fill::<R, V, T>(reader, part)?.ok_or(Halt::Bad)?;
    Ok(part)
}
