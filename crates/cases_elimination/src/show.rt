// Lines on standard output.
use answers::{RunAnswer, RunOutcome, VerifyAnswer};
use numbers::{number_and_step, number_of};
use std::io;
use std::io::Write;
use streams::{write_decimal, write_hex};

// The longest store that is shown place by place.
const SHOWN: usize = 48;

const PRIME: u64 = 4_294_967_291;

// A blank and a number in hexadecimal.
fn number<W: Write>(writer: &mut W, value: u64) -> io::Result<()> {
    writer.write_all(b" ")?;
    write_hex(writer, value, 1)
}

// A blank and a number in decimal.
fn decimal<W: Write>(writer: &mut W, value: usize) -> io::Result<()> {
    writer.write_all(b" ")?;
    write_decimal(writer, value as u64)
}

// The end of a line.
fn end<W: Write>(writer: &mut W) -> io::Result<()> {
    writer.write_all(b"\n")
}

// The line that ends the program early.
pub fn bad_request<W: Write>(writer: &mut W) -> io::Result<()> {
    writer.write_all(b"bad request\n")
}

// The bits of a number; the one NaN that there is has those of a quiet one.
fn bits(x: f64) -> u64 {
    if x == x {
        return f64::to_bits(x);
    }
    0x7ff8_0000_0000_0000
}

// A sum over places, one more number taken in.
fn taken_in(sum: u64, value: u64) -> u64 {
    let first = (sum % PRIME * 65_599 + value / 4_294_967_296) % PRIME;
    (first * 65_599 + value % 4_294_967_296) % PRIME
}

// How many places a long store has, and the sum over them.
fn summed<W: Write>(writer: &mut W, count: usize, sum: u64) -> io::Result<()> {
    number(writer, count as u64)?;
    writer.write_all(b" places")?;
    number(writer, sum)?;
    end(writer)
}

// A store's name and every place of it.
pub fn numbers<W: Write>(writer: &mut W, name: &[u8], places: &[f64]) -> io::Result<()> {
    writer.write_all(name)?;
    if SHOWN < places.len() {
        return summed(writer, places.len(), sum_of_numbers(places));
    }
    let mut i = 0;
    while i < places.len() {
        number(writer, bits(places[i]))?;
        i += 1;
    }
    end(writer)
}

// The sum over the places of a store of f64, by their bits.
fn sum_of_numbers(places: &[f64]) -> u64 {
    let mut sum = 0;
    let mut i = 0;
    while i < places.len() {
        sum = taken_in(sum, bits(places[i]));
        i += 1;
    }
    sum
}

// A word as a u64.
fn wide(value: usize) -> u64 {
    value as u64
}

// The same of a store of rows.
pub fn rows<W: Write>(writer: &mut W, name: &[u8], places: &[usize]) -> io::Result<()> {
    writer.write_all(name)?;
    if SHOWN < places.len() {
        return summed(writer, places.len(), sum_of_rows(places));
    }
    let mut i = 0;
    while i < places.len() {
        number(writer, wide(places[i]))?;
        i += 1;
    }
    end(writer)
}

// The sum over the places of a store of rows.
fn sum_of_rows(places: &[usize]) -> u64 {
    let mut sum = 0;
    let mut i = 0;
    while i < places.len() {
        sum = taken_in(sum, wide(places[i]));
        i += 1;
    }
    sum
}

// A refusal by its number, and its step.
fn refused<W: Write>(writer: &mut W, value: usize, step: usize) -> io::Result<()> {
    writer.write_all(b" refused")?;
    decimal(writer, value)?;
    decimal(writer, step)?;
    end(writer)
}

// The answer about the lent plan.
pub fn verified<W: Write>(writer: &mut W, answer: VerifyAnswer) -> io::Result<()> {
    writer.write_all(b"verify")?;
    match answer {
        VerifyAnswer::Agrees => writer.write_all(b" agrees\n"),
        VerifyAnswer::Refused(refusal) => {
            let numbered = number_and_step(refusal);
            refused(writer, numbered.number, numbered.step)
        }
    }
}

// The run's answer.
pub fn ran<W: Write>(writer: &mut W, answer: RunAnswer) -> io::Result<()> {
    writer.write_all(b"run")?;
    let outcome = answer.outcome;
    match outcome {
        RunOutcome::Finished(updates) => {
            writer.write_all(b" finished")?;
            decimal(writer, updates)?;
            end(writer)
        }
        RunOutcome::Stopped(reason, step) => refused(writer, number_of(reason), step),
    }
}

// The line on the work stores.
pub fn work<W: Write>(writer: &mut W, zero: bool) -> io::Result<()> {
    if zero {
        writer.write_all(b"work zero\n")
    } else {
        writer.write_all(b"work DIRTY\n")
    }
}
