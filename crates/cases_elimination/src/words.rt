// Standard input as numbers of two, four and eight bytes, low byte first.
use std::io;
use std::io::Read;
use streams::read_full;

// The next number, or that the input has ended.
#[derive(Clone, Copy)]
enum Word {
    Value(usize),
    End,
}

// The next f64, or that the input has ended.
#[derive(Clone, Copy)]
enum Number {
    Value(f64),
    End,
}

// A byte as a number. Being a call, it asks its callers for no proof that a byte fits.
fn wide(byte: u8) -> usize {
    byte as usize
}

// A byte as part of a bit pattern.
fn part(byte: u8) -> u64 {
    byte as u64
}

// The number in two bytes. It takes the array, not a slice, so that the indices need no proof.
fn joined(bytes: &[u8; 2]) -> usize {
    wide(bytes[0]) | (wide(bytes[1]) << 8)
}

// The number in four bytes.
fn joined_four(bytes: &[u8; 4]) -> usize {
    wide(bytes[0]) | (wide(bytes[1]) << 8) | (wide(bytes[2]) << 16) | (wide(bytes[3]) << 24)
}

// The bit pattern in eight bytes.
fn joined_eight(bytes: &[u8; 8]) -> u64 {
    let low = part(bytes[0])
        | (part(bytes[1]) << 8)
        | (part(bytes[2]) << 16)
        | (part(bytes[3]) << 24);
    let high = part(bytes[4])
        | (part(bytes[5]) << 8)
        | (part(bytes[6]) << 16)
        | (part(bytes[7]) << 24);
    low | (high << 32)
}

// The number of a bit pattern; every pattern of a NaN is the one NaN that there is.
fn number_of(bits: u64) -> f64 {
    if 0x7ff0_0000_0000_0000 < bits % 0x8000_0000_0000_0000 {
        return 0.0 / 0.0;
    }
    f64::from_bits(bits)
}

// One number is read at a time: the program then needs no buffer that would limit the length of its input.
fn next<R: Read>(reader: &mut R) -> io::Result<Word> {
    let mut bytes = [0u8; 2];
    let got = read_full(reader, &mut bytes)?;
    if got < 2 {
        return Ok(Word::End);
    }
    Ok(Word::Value(joined(&bytes)))
}

// The next number of four bytes.
fn next_four<R: Read>(reader: &mut R) -> io::Result<Word> {
    let mut bytes = [0u8; 4];
    let got = read_full(reader, &mut bytes)?;
    if got < 4 {
        return Ok(Word::End);
    }
    Ok(Word::Value(joined_four(&bytes)))
}

// The next f64.
fn next_number<R: Read>(reader: &mut R) -> io::Result<Number> {
    let mut bytes = [0u8; 8];
    let got = read_full(reader, &mut bytes)?;
    if got < 8 {
        return Ok(Number::End);
    }
    Ok(Number::Value(number_of(joined_eight(&bytes))))
}

// Fills `out` with head words of four bytes, and answers how many there were: fewer than its length where the input ends.
pub fn fill_head<R: Read>(reader: &mut R, out: &mut [usize]) -> io::Result<usize> {
    let mut i = 0;
    while i < out.len() {
        let Word::Value(value) = next_four(reader)? else {
            return Ok(i);
        };
        out[i] = value;
        i += 1;
    }
    Ok(i)
}

// Fills `out` with numbers of two bytes. Whether the input had them all.
pub fn fill<R: Read>(reader: &mut R, out: &mut [usize]) -> io::Result<bool> {
    let mut i = 0;
    while i < out.len() {
        let Word::Value(value) = next(reader)? else {
            return Ok(false);
        };
        out[i] = value;
        i += 1;
    }
    Ok(true)
}

// Fills `out` with f64s. Whether the input had them all.
pub fn fill_numbers<R: Read>(reader: &mut R, out: &mut [f64]) -> io::Result<bool> {
    let mut i = 0;
    while i < out.len() {
        let Number::Value(value) = next_number(reader)? else {
            return Ok(false);
        };
        out[i] = value;
        i += 1;
    }
    Ok(true)
}
