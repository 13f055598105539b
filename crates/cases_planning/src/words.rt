// Standard input as words of two bytes, low byte first.
use std::io;
use std::io::Read;
use streams::read_full;

// The next word, or that the input has ended.
#[derive(Clone, Copy)]
enum Word {
    Value(usize),
    End,
}

// A byte as a number. Being a call, it asks its callers for no proof that a byte fits.
fn wide(byte: u8) -> usize {
    byte as usize
}

// The word in two bytes. It takes the array, not a slice, so that both indices need no proof.
fn joined(bytes: &[u8; 2]) -> usize {
    wide(bytes[0]) | (wide(bytes[1]) << 8)
}

// One word is read at a time: the program then needs no buffer that would limit the length of its input.
fn next<R: Read>(reader: &mut R) -> io::Result<Word> {
    let mut bytes = [0u8; 2];
    let got = read_full(reader, &mut bytes)?;
    if got < 2 {
        return Ok(Word::End);
    }
    Ok(Word::Value(joined(&bytes)))
}

// Fills `out` with words, and answers how many there were: fewer than its length where the input ends.
pub fn fill<R: Read>(reader: &mut R, out: &mut [usize]) -> io::Result<usize> {
    let mut i = 0;
    while i < out.len() {
        let Word::Value(value) = next(reader)? else {
            return Ok(i);
        };
        out[i] = value;
        i += 1;
    }
    Ok(i)
}
