#![tactic(auto)]

// Planning calls by the hundred: standard input holds requests, and for each one standard output shows the answer of `planning::plan`,
// every place of every result store, and whether the work stores are zero. tools/cases_planning.py writes the requests, and what a
// dense program of another author answers to them, into the files stdin and stdout.
//
// A request is words of two bytes, low byte first: 17 head words (`request` lists them), the row starts, the columns.
mod request;
mod show;
mod words;

use std::io;

// A proved loop has to end, and nothing says that the input does: the turns are counted down from a number that no input uses up.
fn main(rt: HostRuntime) -> io::Result<()> {
    let mut reader = rt.stdin();
    let mut writer = rt.stdout();
    let mut turns = 1_000_000usize;
    while turns > 0 && request::serve(&mut reader, &mut writer)? {
        turns -= 1;
    }
    Ok(())
}
