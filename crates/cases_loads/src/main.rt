#![tactic(auto)]

// Test loads through `loads::load`: standard input holds requests, and for each one standard output shows what was asked, the answer and the four stores
// afterwards. tools/cases_loads.py writes the requests, and what a program of another author answers to them, into the files stdin and stdout.
//
// A request is a byte and seven numbers of eight bytes, low byte first: seed, n, d, and how many row starts, columns, values and right sides are lent. After
// "L" each place that the load fills is shown, and a sum over them; after "S" the sum alone, since the largest loads would be long lists. Of the places behind
// them, after a refusal of all, it is shown how many there are and how many are not zero.
mod request;
mod show;

use std::io;
use streams::finish;

// A proved loop has to end, and nothing says that the input does: the requests are counted up to a number that no input reaches.
fn main(rt: HostRuntime) -> io::Result<()> {
    let mut reader = rt.stdin();
    let mut writer = rt.stdout();
    let served = (0..1_000_000usize).try_for_each(|_| request::serve(&mut reader, &mut writer));
    finish(&mut writer, served, b"bad request\n")
}
