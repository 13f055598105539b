// One request: its bytes, the call and what is shown of it.
use crate::show;
use std::io::{Read, Write};
use streams::{FromBytes, Halt, read_text};

// The longest text and the longest store that can be asked for: past the 14 bytes of an offset.
const LONGEST: usize = 32;

// A length of a request, which is bad where the input has none.
fn length<R: Read>(reader: &mut R) -> Result<usize, Halt> {
    Ok(usize::from(u8::read(reader)?.ok_or(Halt::Bad)?))
}

// A request to read, behind its first byte: what `offsets::read` makes of a text.
fn serve_read<R: Read, W: Write>(
    reader: &mut R,
    writer: &mut W,
    number: usize,
) -> Result<(), Halt> {
    let length = length(reader)?;
    let mut store = [0u8; LONGEST];
    let text = read_text(reader, &mut store, length)?;
    show::read(writer, number, offsets::read(text))?;
    Ok(())
}

// A request to write, likewise: what `offsets::write` answers, and a store, which held the byte `before`, after the call.
fn serve_write<R: Read, W: Write>(
    reader: &mut R,
    writer: &mut W,
    number: usize,
) -> Result<(), Halt> {
    let length = length(reader)?;
    let before = u8::read(reader)?.ok_or(Halt::Bad)?;
    let value = f64::read(reader)?.ok_or(Halt::Bad)?;
    let mut store = [before; LONGEST];
    let lent = store.get_mut(..length).ok_or(Halt::Bad)?;
    let answer = offsets::write(value, lent);
    show::written(writer, number, answer, lent)?;
    Ok(())
}

// Answers the next request.
pub fn serve<R: Read, W: Write>(reader: &mut R, writer: &mut W, number: usize) -> Result<(), Halt> {
    match u8::read(reader)?.ok_or(Halt::Ended)? {
        b'R' => serve_read(reader, writer, number),
        b'W' => serve_write(reader, writer, number),
        _ => Err(Halt::Bad),
    }
}
