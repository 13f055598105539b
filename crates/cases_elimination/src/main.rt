#![tactic(auto)]

// Runs by the hundred: standard input holds requests, and for each one standard output shows the answers of `planning::verify` and of the run,
// every place of every result store (a sum over the places of a long one), and whether the work stores are zero. tools/cases_elimination.py writes
// the requests, and what a dense program of another author answers to them, into the files stdin and stdout.
//
// A request: 38 head words of four bytes (`request` lists them), the lists in two bytes a number, values and right side as the eight bytes of
// an f64; low byte first.
mod request;
mod runs;
mod show;
mod words;

use std::io;

// A proved loop has to end, and nothing says that the input does: the turns are counted down from a number that no input uses up.
fn main(rt: HostRuntime) -> io::Result<()> {
    let mut reader = rt.stdin();
    let mut writer = rt.stdout();
    let mut turns = 1_000_000usize;
    while turns > 0 && request::serve(&mut reader, &mut writer)? {
        turns -= 1;
    }
    Ok(())
}
