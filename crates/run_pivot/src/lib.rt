// The pivot row of a step, the largest or a listed one, by the slots of column k alone.
#![tactic(auto)]

ghost use Rattle.run_pivot.specs.Pivot.{PivotAsks, PivotLeaves};

mod choosing;

use choosing::{largest_row, listed_row};

// A pivot row, 0 where there is none, and where it stands in the list of its column if it is not the step's own row.
#[derive(Clone, Copy)]
pub struct Found {
    pub row: usize,
    pub place: usize,
}

// The pivot row of step k: `listed`, or the row with the largest entry where `listed` is 0. `own` is the entry of row k, `slots` are those of
// the rows `subs`; no other row has one.
pub fn pivot(k: usize, listed: usize, own: f64, slots: &[f64], subs: &[usize]) -> Found
    requires { PivotAsks k listed own slots.now subs.now }
    ensures { (w : PivotAsks k listed own slots.now subs.now) → PivotLeaves result.row result.place _ _ _ _ _ w }
{
    if listed == 0 {
        return largest_row(k, own, slots, subs);
    }
    listed_row(k, listed, own, slots, subs)
}
