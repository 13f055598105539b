#![tactic(auto)]

// Jobs by the hundred: standard input holds jobs, and for each one standard output shows its number and the answer of `job::answer`.
// tools/cases_job.py writes the jobs, and what a dense program of another author answers to them, into the files stdin and stdout.
//
// A job is recorded as its length in two bytes, low byte first, and its bytes.
mod recorded;

use std::io;
use std::io::{Read, Write};
use streams::{Halt, finish};

// Answers the next job.
fn serve<R: Read, W: Write>(reader: &mut R, writer: &mut W, number: usize) -> Result<(), Halt> {
    let mut store = [0u8; recorded::LONGEST];
    let answer = job::answer(recorded::next(reader, &mut store)?);
    writeln!(writer, "job {number}")?;
    writer.write_all(&answer.bytes[..answer.count])?;
    Ok(())
}

// A proved loop has to end, and nothing says that the input does: the jobs are counted up to a number that no input reaches.
fn main(rt: HostRuntime) -> io::Result<()> {
    let mut reader = rt.stdin();
    let mut writer = rt.stdout();
    let served = (1..1_000_000usize).try_for_each(|number| serve(&mut reader, &mut writer, number));
    finish(&mut writer, served, b"bad record\n")
}
