// The tally, in a store of sixteen counters, for callers in other languages.
ghost use Rattle.dalumiveth.specs.Calls.{TallyTold};

use numbers::{put_counters, put_refusal, tell_tally};
use tally::{MEMBERS, Tally, tally_with};

// Updates of a finished run for a member (`tally::tally_with`), in the store `counters` of sixteen places, member 1's first; a store of another length is 6, before 27 and 19.
// Three numbers: 0, 0 and the member's new sum, or the refusal's number and step. After a refusal the counters are as they were.
#[unsafe(no_mangle)]
pub extern "C" fn dalumiveth_tally_add(
    counters: &mut [u32],
    member: usize,
    updates: usize,
    answer: &mut [usize],
) -> usize
    ensures { TallyTold result member updates counters.old counters.new answer.old answer.new }
{
    if counters.len() != MEMBERS {
        return put_refusal(6, 0, answer);
    }
    let mut held = [0u32; MEMBERS];
    put_counters(counters, &mut held);
    let added = tally_with(Tally { counters: held }, member, updates);
    let tally = added.tally;
    let left = tally.counters;
    put_counters(&left, counters);
    let answered = added.answer;
    tell_tally(answered, answer)
}
