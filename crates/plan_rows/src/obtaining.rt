// Report, 2.2: the structures of the rows that are met at the step at hand.
ghost use Rattle.std.specs.Prelude.{◌≡◌, ◌-◌, get_or};
ghost use Rattle.foundation.specs.Pattern.{pattern_of};
ghost use Rattle.foundation.specs.Plan.{after, after_initialization, after_rows};
ghost use Rattle.store_lists.specs.Chains.{Chained};
ghost use Rattle.plan_gather.specs.Ready.{lent_by};
ghost use Rattle.plan_gather.specs.Steps.{StepOf, unmet_at};
ghost use Rattle.plan_lists.specs.Lying.{ListsAt};

use plan_grow::from_rows;
use plan_lists::{Lies, Lists};
use store_lists::row_reads;

// Report, 2.2: "Obtain structures of those unprocessed rows: For i ∈ C_k, if mask(i) = 0, then set L_k = L_k ∪ {i} and U_k = U_k ∪ R_i, and set mask(i) = 1".
// The rows are those of chain k, from `row` on, which is emptied: so they are marked. What one row alone brings is left where it lies, in the pattern.
pub fn obtain_rows(
    empty: Lists,
    n: usize,
    k: usize,
    row: usize,
    row_heads: &mut [usize],
    row_links: &[usize],
    starts: &[usize],
    columns: &[usize],
    l_growing: &mut [usize],
    u_growing: &mut [usize],
) -> Lists
    requires step_of { StepOf (lent_by n starts.now columns.now) n k × (row ≡ get_or row_heads.old k 0) }
    requires chained { Chained row_heads.old row_links.now (lent_by n starts.now columns.now).height n (unmet_at (lent_by n starts.now columns.now) (after (pattern_of (lent_by n starts.now columns.now)) (k - 1))) }
    requires lists_at { ListsAt empty (lent_by n starts.now columns.now) k row (after_initialization (pattern_of (lent_by n starts.now columns.now)) k) (k - 1)
        l_growing.old u_growing.old }
    ensures lists { ListsAt result (lent_by n starts.now columns.now) k row
        (after_rows (pattern_of (lent_by n starts.now columns.now)) k) k l_growing.new u_growing.new }
    ensures met { Chained row_heads.new row_links.now (lent_by n starts.now columns.now).height n
        (unmet_at (lent_by n starts.now columns.now) (after_rows (pattern_of (lent_by n starts.now columns.now)) k).known) }
{
    row_heads[k] = 0;
    if row == 0 {
        return empty;
    }
    let more = row_reads(row, row_links, starts);
    let reads = empty.reads + more;
    if row_links[row] == 0 {
        return Lists {
            lower: Lies::Row,
            upper: Lies::Row,
            reads,
        };
    }
    let l_count = from_rows(false, n, k, row, row_links, starts, columns, l_growing);
    let u_count = from_rows(true, n, k, row, row_links, starts, columns, u_growing);
    Lists {
        lower: Lies::Grown(l_count),
        upper: Lies::Grown(u_count),
        reads,
    }
}
