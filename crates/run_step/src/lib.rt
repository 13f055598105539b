// One step of the elimination: the pivot row found and brought to row k, then column k, the right side, the diagonal, the rows of U and the
// columns of L. Nothing stops inside a step: what is not finite sets a flag, which is looked at once, at the step's end.
#![tactic(auto)]

ghost use Rattle.answers.specs.Stores.{plan_stores};
ghost use Rattle.run_slots.specs.Handing.{Clear, StepAsks, StepLeaves};
ghost use Rattle.run_slots.specs.Shows.{square_stores};

use run_pivot::pivot;
use run_slots::StepEnd;
use store_place::list_place;

mod bringing;
mod eliminating;

// Step k by the row that the choice names, 0 where the largest entry decides. `copy` has a place for each row, `dense` one more, which
// are +0 before and afterwards, however the step ends.
pub fn step(
    k: usize,
    row: usize,
    l_subs: &[usize],
    l_starts: &[usize],
    l_slots: &[usize],
    u_subs: &[usize],
    u_starts: &[usize],
    u_slots: &[usize],
    l: &mut [f64],
    u: &mut [f64],
    d: &mut [f64],
    x: &mut [f64],
    copy: &mut [f64],
    dense: &mut [f64],
) -> StepEnd
    requires { StepAsks k row (plan_stores l_subs.now l_starts.now l_slots.now u_subs.now u_starts.now u_slots.now)
        (square_stores l.old u.old d.old x.old) copy.old dense.old }
    ensures { Clear dense.new × ((w : StepAsks k row
        (plan_stores l_subs.now l_starts.now l_slots.now u_subs.now u_starts.now u_slots.now)
        (square_stores l.old u.old d.old x.old) copy.old dense.old)
        → StepLeaves result k row _ _ _ _ (square_stores l.new u.new d.new x.new) w) }
{
    let column = list_place(l_starts, l_slots, k);
    let from = column.from.0;
    let to = column.to.0;
    let slot = column.slot.0;
    let next = column.next.0;
    let own = d[k - 1];
    let found = pivot(k, row, own, &l[slot..next], &l_subs[from..to]);
    let p = found.row;
    if p == 0 {
        return StepEnd::NoPivot;
    }
    let place = found.place;
    bringing::bring(
        k, p, place, l_subs, l_starts, l_slots, u_subs, u_starts, u_slots, l, u, d, x,
    );
    let made = eliminating::eliminate(
        k, l_subs, l_starts, l_slots, u_subs, u_starts, u_slots, l, u, d, x, copy, dense,
    );
    if made.flag != 0 {
        return StepEnd::NotFinite;
    }
    StepEnd::Went(p, made.count)
}
