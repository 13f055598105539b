// The eight counts of a plan as numbers.
ghost use Rattle.std.specs.Prelude.{◌≡◌};
ghost use Rattle.foundation.specs.PlanCall.{count_numbers};
ghost use Rattle.answers.specs.Answers.{counts_in};

use answers::PlanCounts;

// n, the row count, entries, L and U subscripts, L and U slots, reads: the order of every store that tells or gives counts.
pub fn count_numbers(c: PlanCounts) -> [usize; 8]
    ensures { result ≡ count_numbers (counts_in c) }
{
    [
        c.n,
        c.height,
        c.entries,
        c.l_subscripts,
        c.u_subscripts,
        c.l_slots,
        c.u_slots,
        c.reads,
    ]
}
