// The jobs that standard input records.
use std::io::Read;
use streams::{FromBytes, Halt, read_request, read_text};

// The longest job that is recorded: past the bytes that a job may have (`job::LONGEST`), so that 18 is among the answers.
pub const LONGEST: usize = 20_000;

// The next job's length, in two bytes.
fn next_length<R: Read>(reader: &mut R) -> Result<usize, Halt> {
    let mut head = [0u8; 2];
    read_request(reader, &mut head)?;
    let mut left = &head[..];
    Ok(usize::from(u16::read(&mut left)?.ok_or(Halt::Bad)?))
}

// Reads the next job into the front of `store`.
pub fn next<'a, R: Read>(reader: &mut R, store: &'a mut [u8]) -> Result<&'a [u8], Halt> {
    let length = next_length(reader)?;
    read_text(reader, store, length)
}
