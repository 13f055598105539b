// The rows by their least column, as chains.
ghost use Rattle.std.specs.Prelude.{◌≡◌, ◌-◌, ◌≤◌, length};
ghost use Rattle.foundation.specs.Pattern.{pattern_of};
ghost use Rattle.foundation.specs.Plan.{after};
ghost use Rattle.store_lists.specs.Chains.{Chained};
ghost use Rattle.plan_gather.specs.Ready.{lent_by, Ready};
ghost use Rattle.plan_gather.specs.Steps.{rows_from, unmet_at};

use store_lists::{clear_chains, push};

// Row i joins the chain of its least column, which is its first; an empty row, which only a row above n can be, joins none.
fn chain_row(
    n: usize,
    i: usize,
    starts: &[usize],
    columns: &[usize],
    heads: &mut [usize],
    links: &mut [usize],
)
    requires ready { Ready (lent_by n starts.now columns.now) × (1 ≤ i) × (i ≤ (lent_by n starts.now columns.now).height) }
    requires chained { Chained heads.old links.old (lent_by n starts.now columns.now).height n (rows_from (lent_by n starts.now columns.now) i) }
    ensures { Chained heads.new links.new (lent_by n starts.now columns.now).height n (rows_from (lent_by n starts.now columns.now) (i - 1)) }
{
    let at = starts[i - 1];
    if starts[i] <= at {
        return;
    }
    let column = columns[at];
    push(heads, links, column, i);
}

// Report, 1.1: no row is met. Each row joins the chain of its least column, the last row first, so that they ascend. In the report's 2.2 of step k the rows of C_k that
// are not marked are those of chain k; a row is marked by taking it out of its chain.
pub fn chain_rows(
    n: usize,
    starts: &[usize],
    columns: &[usize],
    heads: &mut [usize],
    links: &mut [usize],
)
    requires ready { Ready (lent_by n starts.now columns.now) }
    requires heads_len { (length heads.old ≡ length starts.now) × (length links.old ≡ length starts.now) }
    ensures { Chained heads.new links.new (lent_by n starts.now columns.now).height n
        (unmet_at (lent_by n starts.now columns.now) (after (pattern_of (lent_by n starts.now columns.now)) 0)) }
{
    clear_chains(heads, links);
    let mut i = starts.len() - 1;
    while 0 < i {
        chain_row(n, i, starts, columns, heads, links);
        i -= 1;
    }
}
