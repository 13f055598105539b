// The elimination in planned slots: a run by the largest entry or by a given list of rows, whole or cut to its first steps.
//
// A run goes by a lent plan. That it is this pattern's plan is what `planning::verify` says, and nothing else of planning is used.
#![tactic(auto)]

ghost use Rattle.foundation.specs.Pattern.{lent};
ghost use Rattle.answers.specs.Stores.{plan_stores, lent_plan};
ghost use Rattle.answers.specs.Runs.{chosen_by, extent_of};
ghost use Rattle.answers.specs.RunStores.{lending_of, run_stores};
ghost use Rattle.elimination.specs.Calls.{run_work, RunKept};

use answers::{Extent, PivotChoice, PlanCounts, RunAnswer};
use planning::verify;
use run_call::run_verified;

// A run. Its pivot rows are chosen by the largest entry, and `rows` is not read, or by the list `rows`, p_k at place k-1; a pattern with more rows than n is run only when cut. Result
// stores: the slots of L and U (no fewer than planned), the diagonal and the pivot rows (n places each), the solution (a place for each row). Work stores: planning's six, `copy` with a
// place for each row, `dense` with one more.
pub fn run(
    most: usize,
    n: usize,
    height: usize,
    starts: &[usize],
    columns: &[usize],
    counts: PlanCounts,
    l_subs: &[usize],
    l_starts: &[usize],
    l_slots: &[usize],
    u_subs: &[usize],
    u_starts: &[usize],
    u_slots: &[usize],
    values: &[f64],
    right: &[f64],
    choice: PivotChoice,
    rows: &[usize],
    extent: Extent,
    l: &mut [f64],
    u: &mut [f64],
    d: &mut [f64],
    x: &mut [f64],
    pivots: &mut [usize],
    row_heads: &mut [usize],
    row_links: &mut [usize],
    set_heads: &mut [usize],
    set_links: &mut [usize],
    list: &mut [usize],
    spare: &mut [usize],
    copy: &mut [f64],
    dense: &mut [f64],
) -> RunAnswer
    ensures { RunKept result most (lent n height starts.now columns.now)
        (lent_plan counts (plan_stores l_subs.now l_starts.now l_slots.now u_subs.now u_starts.now u_slots.now))
        (chosen_by choice rows.now) (extent_of extent) (lending_of values.now right.now l.old u.old d.old x.old pivots.old)
        (run_stores l.new u.new d.new x.new pivots.new)
        (run_work row_heads.old row_links.old set_heads.old set_links.old list.old spare.old copy.old dense.old)
        (run_work row_heads.new row_links.new set_heads.new set_links.new list.new spare.new copy.new dense.new) }
{
    let verified = verify(
        most, n, height, starts, columns, counts, l_subs, l_starts, l_slots, u_subs, u_starts,
        u_slots, row_heads, row_links, set_heads, set_links, list, spare,
    );
    run_verified(
        verified, n, height, starts, columns, counts, l_subs, l_starts, l_slots, u_subs, u_starts,
        u_slots, values, right, choice, rows, extent, l, u, d, x, pivots, copy, dense,
    )
}
