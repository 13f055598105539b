#![tactic(auto)]

// Offsets by the hundred: standard input holds requests, and for each one standard output shows its number and the answer of `offsets::read`
// or `offsets::write`: what was read, or what was written and every place of the lent store. tools/cases_offsets.py writes the requests, and
// what a program of another author answers to them, into the files stdin and stdout.
//
// A request to read is the byte "R", a length and so many bytes of a text. A request to write is the byte "W", the store's length, the byte
// that each place of the store holds before the call, and the eight bytes of an f64, low byte first.
mod request;
mod show;

use std::io;
use streams::finish;

// A proved loop has to end, and nothing says that the input does: the requests are counted up to a number that no input reaches.
fn main(rt: HostRuntime) -> io::Result<()> {
    let mut reader = rt.stdin();
    let mut writer = rt.stdout();
    let served = (1..1_000_000usize).try_for_each(|number| request::serve(
        &mut reader,
        &mut writer,
        number,
    ));
    finish(&mut writer, served, b"bad request\n")
}
