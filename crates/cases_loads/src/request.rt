// One request: its bytes, the stores that it asks for, the call and what is shown of it.
use crate::show;
use crate::show::Shown;
use answers::LoadAnswer;
use std::io::{Read, Write};
use streams::{Decimal, FromBytes, Halt, Hexadecimal, read_part, read_request};

// The numbers of a request: seed, n, d, the lengths of row starts, columns, values and right sides.
const NUMBERS: usize = 7;

// The bytes of a request.
const WHOLE: usize = 1 + 8 * NUMBERS;

// The longest stores that can be asked for: each longer than any load needs.
const ROWS: usize = 1_026;

const ENTRIES: usize = 16_386;

// What every lent place holds before the call. It is not zero, so that a place which the call left alone shows; -0 shows by its bits.
const BEFORE: usize = 54_321;

const BEFORE_VALUE: f64 = 1.5;

const BEFORE_RIGHT: f64 = -0.0;

// How many entries the answer tells of: none after a refusal.
fn entries_of(answer: LoadAnswer) -> usize {
    match answer {
        LoadAnswer::Entries(count) => count,
        _ => 0,
    }
}

// How many places the load fills of a store with a place for each row: all, or none after a refusal. A granted load has entries.
fn rows_filled(entries: usize) -> usize {
    if entries == 0 { 0 } else { ROWS }
}

// The call, in parts of arrays of its own, of the lengths that are asked for; the answer, and every store afterwards.
fn load<W: Write>(writer: &mut W, shown: Shown, numbers: [usize; NUMBERS]) -> Result<(), Halt> {
    let [seed, n, d, rows, places, values, right] = numbers;
    let seed = u32::try_from(seed).or(Err(Halt::Bad))?;
    let mut starts = [BEFORE; ROWS];
    let mut columns = [BEFORE; ENTRIES];
    let mut value_store = [BEFORE_VALUE; ENTRIES];
    let mut right_store = [BEFORE_RIGHT; ROWS];
    let starts = starts.get_mut(..rows).ok_or(Halt::Bad)?;
    let columns = columns.get_mut(..places).ok_or(Halt::Bad)?;
    let values = value_store.get_mut(..values).ok_or(Halt::Bad)?;
    let right = right_store.get_mut(..right).ok_or(Halt::Bad)?;
    let answer = loads::load(seed, n, d, starts, columns, values, right);
    let entries = entries_of(answer);
    let rows = rows_filled(entries);
    show::called(writer, &numbers, answer)?;
    show::store(writer, "starts", starts, rows, Decimal, shown)?;
    show::store(writer, "columns", columns, entries, Decimal, shown)?;
    show::store(writer, "values", values, entries, Hexadecimal(16), shown)?;
    show::store(writer, "right", right, rows, Hexadecimal(16), shown)?;
    Ok(())
}

// Answers the next request.
pub fn serve<R: Read, W: Write>(reader: &mut R, writer: &mut W) -> Result<(), Halt> {
    let mut request = [0u8; WHOLE];
    read_request(reader, &mut request)?;
    let mut left = &request[..];
    let kind = u8::read(&mut left)?.ok_or(Halt::Bad)?;
    let mut numbers = [0usize; NUMBERS];
    read_part::<&[u8], usize, usize>(&mut left, &mut numbers, NUMBERS)?;
    load(writer, Shown::try_from(kind)?, numbers)
}
