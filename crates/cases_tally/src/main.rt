#![tactic(auto)]

// The tally's record through `tally::add`: standard input holds requests, and for each one standard output shows the answer and all sixteen counters
// afterwards. tools/cases_tally.py writes the requests, and what a program of another author answers to them, into the files stdin and stdout.
//
// A request is a byte and two numbers of eight bytes, low byte first. "Z" asks for a record made with zeros, whatever the numbers are; "A" asks for a call with the
// record: the first number is the member's, the second one the updates.
mod lending;
mod request;
mod show;

use std::io;
use streams::finish;

// A proved loop has to end, and nothing says that the input does: the requests are counted up to a number that no input reaches.
fn main(rt: HostRuntime) -> io::Result<()> {
    let mut reader = rt.stdin();
    let mut writer = rt.stdout();
    let mut record = tally::empty();
    let served = (0..1_000_000usize).try_for_each(|_| request::serve(
        &mut reader,
        &mut writer,
        &mut record,
    ));
    finish(&mut writer, served, b"bad request\n")
}
