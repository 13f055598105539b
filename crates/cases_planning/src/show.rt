// Lines on standard output.
use answers::{PlanAnswer, Refusal};
use numbers::{count_numbers, number_and_step};
use std::io;
use std::io::Write;
use streams::write_decimal;

// A blank and a number. The number is cast here, and not in the loop of `store`, so that the cast is no part of that loop's proof.
fn number<W: Write>(writer: &mut W, value: usize) -> io::Result<()> {
    writer.write_all(b" ")?;
    write_decimal(writer, value as u64)
}

// The end of a line.
fn end<W: Write>(writer: &mut W) -> io::Result<()> {
    writer.write_all(b"\n")
}

// The line that ends the program early.
pub fn bad_request<W: Write>(writer: &mut W) -> io::Result<()> {
    writer.write_all(b"bad request\n")
}

// A store's name and every place of it.
pub fn store<W: Write>(writer: &mut W, name: &[u8], places: &[usize]) -> io::Result<()> {
    writer.write_all(name)?;
    let mut i = 0;
    while i < places.len() {
        number(writer, places[i])?;
        i += 1;
    }
    end(writer)
}

// A refusal by its number, and its step.
fn refused<W: Write>(writer: &mut W, refusal: Refusal) -> io::Result<()> {
    let refused = number_and_step(refusal);
    writer.write_all(b"refused")?;
    number(writer, refused.number)?;
    number(writer, refused.step)?;
    end(writer)
}

// An answer; the counts stand in the order of the job program's line.
pub fn answer<W: Write>(writer: &mut W, answer: PlanAnswer) -> io::Result<()> {
    match answer {
        PlanAnswer::Planned(counts) => store(writer, b"plan", &count_numbers(counts)),
        PlanAnswer::Refused(refusal) => refused(writer, refusal),
    }
}

// The line on the work stores.
pub fn work<W: Write>(writer: &mut W, zero: bool) -> io::Result<()> {
    if zero {
        writer.write_all(b"work zero\n")
    } else {
        writer.write_all(b"work DIRTY\n")
    }
}
