// The counts of two plans, one by one.
ghost use Rattle.std.specs.Prelude.{◌≡◌};
ghost use Rattle.foundation.specs.PlanCall.{same_counts};
ghost use Rattle.answers.specs.Answers.{counts_in};

use answers::PlanCounts;

// Whether two plans' counts are the same.
pub fn same_counts(a: PlanCounts, b: PlanCounts) -> bool
    ensures { result ≡ same_counts (counts_in a) (counts_in b) }
{
    if a.n != b.n {
        return false;
    }
    if a.height != b.height {
        return false;
    }
    if a.entries != b.entries {
        return false;
    }
    if a.l_subscripts != b.l_subscripts {
        return false;
    }
    if a.u_subscripts != b.u_subscripts {
        return false;
    }
    if a.l_slots != b.l_slots {
        return false;
    }
    if a.u_slots != b.u_slots {
        return false;
    }
    a.reads == b.reads
}
