// Lines on standard output.
use std::io;
use std::io::Write;
use streams::{Decimal, write_places};
use tally::{Tally, TallyAnswer};

// All counters, and the end of the line.
fn counters<W: Write>(writer: &mut W, record: &Tally) -> io::Result<()> {
    write_places(writer, &record.counters, Decimal)?;
    writeln!(writer)
}

// The line of a record that was made.
pub fn fresh<W: Write>(writer: &mut W, record: &Tally) -> io::Result<()> {
    write!(writer, "record")?;
    counters(writer, record)
}

// The member's new sum, or a refusal with its step.
fn answered<W: Write>(writer: &mut W, answer: TallyAnswer) -> io::Result<()> {
    match answer {
        TallyAnswer::Sum(sum) => write!(writer, "granted {sum}"),
        TallyAnswer::NoMember => write!(writer, "refused 27 0"),
        TallyAnswer::Full => write!(writer, "refused 19 0"),
    }
}

// The line of a call: what was asked, what was answered, and what the record holds afterwards.
pub fn added<W: Write>(
    writer: &mut W,
    member: usize,
    updates: usize,
    answer: TallyAnswer,
    after: &Tally,
) -> io::Result<()> {
    write!(writer, "add {member} {updates} ")?;
    answered(writer, answer)?;
    write!(writer, " holds")?;
    counters(writer, after)
}
