// The record, lent to `tally::add`.
ghost use Rattle.std.specs.Prelude.{◌≡◌};
ghost use Rattle.foundation.specs.Tally.{tally_answer, tally_after};
ghost use Rattle.tally.specs.Calls.{tally_answer_of};

use tally::{Tally, TallyAnswer};

// What was answered. The record that is held is as the call left it.
pub fn added(held: &mut Tally, member: usize, updates: usize) -> TallyAnswer
    ensures { (held.new.counters ≡ tally_after held.old.counters member updates)
        × (tally_answer_of result ≡ tally_answer held.old.counters member updates) }
{
    tally::add(held, member, updates)
}
