// The run on a plan that is known to be the pattern's: the steps one after the other, and loading, steps and back substitution in turn.
#![tactic(auto)]

ghost use Rattle.foundation.specs.Pattern.{lent};
ghost use Rattle.answers.specs.RunStores.{run_stores};
ghost use Rattle.answers.specs.Runs.{chosen_by, extent_of};
ghost use Rattle.answers.specs.Stores.{plan_stores, side_stores};
ghost use Rattle.run_slots.specs.Handing.{Clear};
ghost use Rattle.run_loop.specs.Running.{StepsAsk, StepsLeave, FinishAsks, FinishLeaves, RunAsks, RunLeaves};

use answers::{Extent, PivotChoice, RunOutcome, RunReason};
use run_load::load;
use run_request::{row_asked, solves, steps_of};
use run_slots::{SolveEnd, StepEnd};
use run_solve::solve;
use run_step::step;

// Steps 1 to count, each with its pivot row noted, until one finds no pivot row or something that is not finite.
pub fn run_steps(
    count: usize,
    choice: PivotChoice,
    rows: &[usize],
    l_subs: &[usize],
    l_starts: &[usize],
    l_slots: &[usize],
    u_subs: &[usize],
    u_starts: &[usize],
    u_slots: &[usize],
    l: &mut [f64],
    u: &mut [f64],
    d: &mut [f64],
    x: &mut [f64],
    copy: &mut [f64],
    dense: &mut [f64],
    pivots: &mut [usize],
) -> RunOutcome
    requires { StepsAsk count (chosen_by choice rows.now)
        (plan_stores l_subs.now l_starts.now l_slots.now u_subs.now u_starts.now u_slots.now)
        (run_stores l.old u.old d.old x.old pivots.old) copy.old dense.old }
    ensures { Clear dense.new × ((w : StepsAsk count (chosen_by choice rows.now)
        (plan_stores l_subs.now l_starts.now l_slots.now u_subs.now u_starts.now u_slots.now)
        (run_stores l.old u.old d.old x.old pivots.old) copy.old dense.old)
        → StepsLeave result count _ _ _ _ _ (run_stores l.new u.new d.new x.new pivots.new) w) }
{
    let mut updates = 0;
    let mut k = 1;
    while k <= count {
        let row = row_asked(choice, rows, k);
        let end = step(
            k, row, l_subs, l_starts, l_slots, u_subs, u_starts, u_slots, l, u, d, x, copy, dense,
        );
        match end {
            StepEnd::NoPivot => {
                return RunOutcome::Stopped(RunReason::NoPivot, k);
            }
            StepEnd::NotFinite => {
                return RunOutcome::Stopped(RunReason::NotFinite, k);
            }
            StepEnd::Went(pivot, more) => {
                pivots[k - 1] = pivot;
                updates += more;
                k += 1;
            }
        }
    }
    RunOutcome::Finished(updates)
}

// The end of a run: one that came through its steps goes on to back substitution, if it is whole.
fn finish(
    end: RunOutcome,
    extent: Extent,
    n: usize,
    u_subs: &[usize],
    u_starts: &[usize],
    u_slots: &[usize],
    u: &[f64],
    d: &[f64],
    x: &mut [f64],
) -> RunOutcome
    requires { FinishAsks end (extent_of extent) n (side_stores u_subs.now u_starts.now u_slots.now) u.now d.now x.old }
    ensures { (w : FinishAsks end (extent_of extent) n (side_stores u_subs.now u_starts.now u_slots.now) u.now d.now x.old)
        → FinishLeaves end (extent_of extent) result n (side_stores u_subs.now u_starts.now u_slots.now) u.now d.now x.old x.new w }
{
    match end {
        RunOutcome::Stopped(reason, k) => RunOutcome::Stopped(reason, k),
        RunOutcome::Finished(updates) => {
            if !solves(extent) {
                return RunOutcome::Finished(updates);
            }
            let solved = solve(n, u_subs, u_starts, u_slots, u, d, x);
            match solved {
                SolveEnd::Solved => RunOutcome::Finished(updates),
                SolveEnd::NotFiniteAt(row) => RunOutcome::Stopped(RunReason::NotFinite, row),
            }
        }
    }
}

// A run on a plan that is known to be the pattern's, in stores that are zero throughout: loading, the steps, the end. `height` is the number of
// rows; a whole run is of as many rows as columns.
pub fn run_planned(
    n: usize,
    height: usize,
    starts: &[usize],
    columns: &[usize],
    values: &[f64],
    right: &[f64],
    l_subs: &[usize],
    l_starts: &[usize],
    l_slots: &[usize],
    u_subs: &[usize],
    u_starts: &[usize],
    u_slots: &[usize],
    choice: PivotChoice,
    rows: &[usize],
    extent: Extent,
    l: &mut [f64],
    u: &mut [f64],
    d: &mut [f64],
    x: &mut [f64],
    copy: &mut [f64],
    dense: &mut [f64],
    pivots: &mut [usize],
) -> RunOutcome
    requires { RunAsks (lent n height starts.now columns.now) values.now right.now
        (plan_stores l_subs.now l_starts.now l_slots.now u_subs.now u_starts.now u_slots.now)
        (chosen_by choice rows.now) (extent_of extent) (run_stores l.old u.old d.old x.old pivots.old) copy.old dense.old }
    ensures { Clear dense.new × ((w : RunAsks (lent n height starts.now columns.now) values.now right.now
        (plan_stores l_subs.now l_starts.now l_slots.now u_subs.now u_starts.now u_slots.now)
        (chosen_by choice rows.now) (extent_of extent) (run_stores l.old u.old d.old x.old pivots.old) copy.old dense.old)
        → RunLeaves result _ _ _ _ _ _ _ _ _ (run_stores l.new u.new d.new x.new pivots.new) w) }
{
    load(
        n, height, starts, columns, values, right, l_subs, l_starts, l_slots, u_subs, u_starts,
        u_slots, l, u, d, x,
    );
    let count = steps_of(extent, n);
    let end = run_steps(
        count, choice, rows, l_subs, l_starts, l_slots, u_subs, u_starts, u_slots, l, u, d, x,
        copy, dense, pivots,
    );
    finish(end, extent, n, u_subs, u_starts, u_slots, u, d, x)
}
