// A job's plan and its run, in stores of their own, and what is printed of them. Here the work stores: six for the plan, two more for
// the run, each lent as far as n asks.
#![tactic(auto)]

ghost use Rattle.std.specs.Prelude.{◌≡◌, ◌≤◌};
ghost use Rattle.foundation.specs.Job.{choice_of, max_job_n};
ghost use Rattle.foundation.specs.Pattern.{lent_square};
ghost use Rattle.answers.specs.Stores.{plan_stores, lent_plan};
ghost use Rattle.answers.specs.Runs.{chosen_by};
ghost use Rattle.job_run.specs.Lending.{PlanSized, JobPlanned, RunSized, JobRan};

mod runs;

use answers::{Extent, PivotChoice, PlanAnswer, PlanCounts, RunAnswer};
use elimination::run;
use job_sizes::{LARGEST_N, MORE_THAN_N};
use planning::plan;
pub use runs::put_plan;

// The plan of a job's pattern.
fn plan_job(
    n: usize,
    starts: &[usize],
    columns: &[usize],
    l_subs: &mut [usize],
    l_starts: &mut [usize],
    l_slots: &mut [usize],
    u_subs: &mut [usize],
    u_starts: &mut [usize],
    u_slots: &mut [usize],
) -> PlanAnswer
    requires { (n ≤ max_job_n) × PlanSized n (plan_stores l_subs.old l_starts.old l_slots.old u_subs.old u_starts.old u_slots.old) }
    ensures { JobPlanned result (lent_square n starts.now columns.now)
        (plan_stores l_subs.new l_starts.new l_slots.new
        u_subs.new u_starts.new u_slots.new) }
{
    let mut row_heads = [0usize; MORE_THAN_N];
    let mut row_links = [0usize; MORE_THAN_N];
    let mut set_heads = [0usize; MORE_THAN_N];
    let mut set_links = [0usize; MORE_THAN_N];
    let mut list = [0usize; LARGEST_N];
    let mut spare = [0usize; LARGEST_N];
    let more = n + 1;
    plan(
        LARGEST_N,
        n,
        n,
        starts,
        columns,
        l_subs,
        l_starts,
        l_slots,
        u_subs,
        u_starts,
        u_slots,
        &mut row_heads[0..more],
        &mut row_links[0..more],
        &mut set_heads[0..more],
        &mut set_links[0..more],
        &mut list[0..n],
        &mut spare[0..n],
    )
}

// How a job's pivot rows are chosen: without a row list by the largest entry, with one by the list.
fn choice_for(rows: &[usize]) -> PivotChoice
    ensures { chosen_by result rows.now ≡ choice_of rows.now }
{
    if rows.len() == 0 {
        return PivotChoice::Largest;
    }
    PivotChoice::Listed
}

// A job's run.
fn run_job(
    n: usize,
    starts: &[usize],
    columns: &[usize],
    counts: PlanCounts,
    l_subs: &[usize],
    l_starts: &[usize],
    l_slots: &[usize],
    u_subs: &[usize],
    u_starts: &[usize],
    u_slots: &[usize],
    values: &[f64],
    right: &[f64],
    rows: &[usize],
    l: &mut [f64],
    u: &mut [f64],
    d: &mut [f64],
    x: &mut [f64],
    pivots: &mut [usize],
) -> RunAnswer
    requires { (n ≤ max_job_n) × RunSized n l.old u.old d.old x.old pivots.old }
    ensures { JobRan result (lent_square n starts.now columns.now)
        (lent_plan counts
        (plan_stores l_subs.now l_starts.now l_slots.now
        u_subs.now u_starts.now u_slots.now))
        (choice_of rows.now) values.now right.now x.new pivots.new }
{
    let mut row_heads = [0usize; MORE_THAN_N];
    let mut row_links = [0usize; MORE_THAN_N];
    let mut set_heads = [0usize; MORE_THAN_N];
    let mut set_links = [0usize; MORE_THAN_N];
    let mut list = [0usize; LARGEST_N];
    let mut spare = [0usize; LARGEST_N];
    let mut copy = [0.0f64; LARGEST_N];
    let mut dense = [0.0f64; MORE_THAN_N];
    let more = n + 1;
    let choice = choice_for(rows);
    run(
        LARGEST_N,
        n,
        n,
        starts,
        columns,
        counts,
        l_subs,
        l_starts,
        l_slots,
        u_subs,
        u_starts,
        u_slots,
        values,
        right,
        choice,
        rows,
        Extent::Whole,
        l,
        u,
        d,
        x,
        pivots,
        &mut row_heads[0..more],
        &mut row_links[0..more],
        &mut set_heads[0..more],
        &mut set_links[0..more],
        &mut list[0..n],
        &mut spare[0..n],
        &mut copy[0..n],
        &mut dense[0..more],
    )
}
