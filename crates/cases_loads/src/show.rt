// Lines on standard output.
use answers::LoadAnswer;
use std::io;
use std::io::Write;
use streams::{Bits, Decimal, Digits, Halt, checksum_with, write_places};

// What is shown of the places that a load fills: each of them and a sum, or the sum alone.
#[derive(Clone, Copy, PartialEq, Eq)]
pub enum Shown {
    Each,
    Sum,
}

impl TryFrom<u8> for Shown {
    type Error = Halt;

    fn try_from(kind: u8) -> Result<Shown, Halt> {
        match kind {
            b'L' => Ok(Shown::Each),
            b'S' => Ok(Shown::Sum),
            _ => Err(Halt::Bad),
        }
    }
}

// How many entries were granted, or the refusal and its step.
fn answered<W: Write>(writer: &mut W, answer: LoadAnswer) -> io::Result<()> {
    match answer {
        LoadAnswer::Entries(count) => write!(writer, "granted {count}"),
        LoadAnswer::Limits => write!(writer, "refused 1 0"),
        LoadAnswer::NoDivisor => write!(writer, "refused 23 0"),
        LoadAnswer::Stores => write!(writer, "refused 6 0"),
    }
}

// The line of a call: the numbers that were asked with, and the answer.
pub fn called<W: Write>(writer: &mut W, numbers: &[usize], answer: LoadAnswer) -> io::Result<()> {
    write!(writer, "load")?;
    write_places(writer, numbers, Decimal)?;
    write!(writer, " ")?;
    answered(writer, answer)?;
    writeln!(writer)
}

// A store's line: the places that the load fills, the sum over them, how many places lie behind them and how many of these are not zero; of f64, +0.
pub fn store<W: Write, T: Bits, D: Digits>(
    writer: &mut W,
    name: &str,
    lent: &[T],
    filled: usize,
    digits: D,
    shown: Shown,
) -> io::Result<()> {
    let (filled, rest) = lent.split_at(filled.min(lent.len()));
    write!(writer, "{name}")?;
    if shown == Shown::Each {
        write_places(writer, filled, digits)?;
    }
    let sum = filled
        .iter()
        .fold(0, |sum, place| checksum_with(sum, place.bits()));
    let behind = rest.len();
    let others = rest.iter().filter(|place| place.bits() != 0).count();
    writeln!(writer, " sum {sum} rest {behind} {others}")
}
