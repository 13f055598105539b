// A run once planning has answered about the lent plan: the tests 26, 10, 11 and 12, the run in cleared stores, and what it leaves.
#![tactic(auto)]

ghost use Rattle.foundation.specs.Pattern.{lent};
ghost use Rattle.answers.specs.RunStores.{run_stores};
ghost use Rattle.answers.specs.Runs.{chosen_by, extent_of};
ghost use Rattle.answers.specs.Stores.{plan_stores, lent_plan};
ghost use Rattle.run_slots.specs.Handing.{Clear};
ghost use Rattle.run_clear.specs.Blanks.{Blank};
ghost use Rattle.run_call.specs.Calling.{inputs, Given, OutcomeLeft, RunLeft};

use answers::{Extent, PivotChoice, PlanCounts, RunAnswer, RunOutcome, VerifyAnswer};
use run_clear::{clear_floats, clear_if_stopped, clear_results};
use run_judge::{Judgement, judge};
use run_loop::run_planned;

// The tests, and the run if they pass, in stores that are zero throughout.
fn run_cleared(
    verified: VerifyAnswer,
    n: usize,
    height: usize,
    starts: &[usize],
    columns: &[usize],
    counts: PlanCounts,
    l_subs: &[usize],
    l_starts: &[usize],
    l_slots: &[usize],
    u_subs: &[usize],
    u_starts: &[usize],
    u_slots: &[usize],
    values: &[f64],
    right: &[f64],
    choice: PivotChoice,
    rows: &[usize],
    extent: Extent,
    l: &mut [f64],
    u: &mut [f64],
    d: &mut [f64],
    x: &mut [f64],
    pivots: &mut [usize],
    copy: &mut [f64],
    dense: &mut [f64],
) -> RunOutcome
    requires given { Given verified (inputs (lent n height starts.now columns.now)
        (lent_plan counts (plan_stores l_subs.now l_starts.now l_slots.now u_subs.now u_starts.now u_slots.now))
        values.now right.now (chosen_by choice rows.now) (extent_of extent)) }
    requires blank { Blank (run_stores l.old u.old d.old x.old pivots.old) × Clear dense.old }
    ensures { Clear dense.new × ((w : Given verified (inputs (lent n height starts.now columns.now)
        (lent_plan counts (plan_stores l_subs.now l_starts.now l_slots.now u_subs.now u_starts.now u_slots.now))
        values.now right.now (chosen_by choice rows.now) (extent_of extent)))
        → OutcomeLeft result _ _ w (run_stores l.old u.old d.old x.old pivots.old) copy.old dense.old
        (run_stores l.new u.new d.new x.new pivots.new)) }
{
    let l_planned = counts.l_slots;
    let u_planned = counts.u_slots;
    let judged = judge(
        verified,
        n,
        height,
        columns.len(),
        l_planned,
        u_planned,
        values,
        right,
        choice,
        rows,
        extent,
        l.len(),
        u.len(),
        d.len(),
        x.len(),
        pivots.len(),
        copy.len(),
        dense.len(),
    );
    match judged {
        Judgement::Refused(reason) => RunOutcome::Stopped(reason, 0),
        Judgement::MayRun => {
            run_planned(
                n, height, starts, columns, values, right, l_subs, l_starts, l_slots, u_subs,
                u_starts, u_slots, choice, rows, extent, l, u, d, x, copy, dense, pivots,
            )
        }
    }
}

// A run of `height` rows, with all that it leaves: its stores cleared first, its work stores cleared again, its result stores too where it stopped.
pub fn run_verified(
    verified: VerifyAnswer,
    n: usize,
    height: usize,
    starts: &[usize],
    columns: &[usize],
    counts: PlanCounts,
    l_subs: &[usize],
    l_starts: &[usize],
    l_slots: &[usize],
    u_subs: &[usize],
    u_starts: &[usize],
    u_slots: &[usize],
    values: &[f64],
    right: &[f64],
    choice: PivotChoice,
    rows: &[usize],
    extent: Extent,
    l: &mut [f64],
    u: &mut [f64],
    d: &mut [f64],
    x: &mut [f64],
    pivots: &mut [usize],
    copy: &mut [f64],
    dense: &mut [f64],
) -> RunAnswer
    requires { Given verified (inputs (lent n height starts.now columns.now)
        (lent_plan counts (plan_stores l_subs.now l_starts.now l_slots.now u_subs.now u_starts.now u_slots.now))
        values.now right.now (chosen_by choice rows.now) (extent_of extent)) }
    ensures { (w : Given verified (inputs (lent n height starts.now columns.now)
        (lent_plan counts (plan_stores l_subs.now l_starts.now l_slots.now u_subs.now u_starts.now u_slots.now))
        values.now right.now (chosen_by choice rows.now) (extent_of extent)))
        → RunLeft result _ _ w (run_stores l.old u.old d.old x.old pivots.old) copy.old dense.old
        (run_stores l.new u.new d.new x.new pivots.new) copy.new dense.new }
{
    clear_results(l, u, d, x, pivots);
    clear_floats(dense);
    let outcome = run_cleared(
        verified, n, height, starts, columns, counts, l_subs, l_starts, l_slots, u_subs, u_starts,
        u_slots, values, right, choice, rows, extent, l, u, d, x, pivots, copy, dense,
    );
    clear_floats(copy);
    clear_if_stopped(outcome, l, u, d, x, pivots);
    RunAnswer { outcome }
}
