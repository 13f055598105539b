// The plan and the run of a job that was read, and what is printed of them. The inner function of each pair is lent the stores that the outer one owns.
ghost use Rattle.std.specs.Prelude.{◌≤◌, length};
ghost use Rattle.foundation.specs.Answer.{granted};
ghost use Rattle.foundation.specs.Pattern.{lent_square};
ghost use Rattle.foundation.specs.Printing.{job_text};
ghost use Rattle.foundation.specs.Job.{max_job_n};
ghost use Rattle.job_sizes.specs.Sizes.{answer_room};
ghost use Rattle.answers.specs.Stores.{plan_stores};
ghost use Rattle.job_print.specs.Appended.{Appended};
ghost use Rattle.job_run.specs.Lending.{PlanSized, RunSized};
ghost use Rattle.job_run.specs.Answering.{job_from, PlanMade};

use crate::{plan_job, run_job};
use answers::{PlanAnswer, PlanCounts};
use job_report::{put_plan_refused, put_ran};
use job_sizes::{LARGEST_N, MORE_THAN_N, SIDE_ROOM};

// The run on a plan that was made, and its report or its refusal.
fn put_run_in(
    out: &mut [u8],
    n: usize,
    starts: &[usize],
    columns: &[usize],
    values: &[f64],
    right: &[f64],
    rows: &[usize],
    counts: PlanCounts,
    l_subs: &[usize],
    l_starts: &[usize],
    l_slots: &[usize],
    u_subs: &[usize],
    u_starts: &[usize],
    u_slots: &[usize],
    l: &mut [f64],
    u: &mut [f64],
    d: &mut [f64],
    x: &mut [f64],
    pivots: &mut [usize],
) -> usize
    requires { (answer_room ≤ length out.old) × (n ≤ max_job_n)
        × PlanMade (lent_square n starts.now columns.now) counts
        (plan_stores l_subs.now l_starts.now l_slots.now u_subs.now u_starts.now u_slots.now)
        × RunSized n l.old u.old d.old x.old pivots.old }
    ensures { Appended out.old 0
        (job_text (granted (job_from n starts.now columns.now values.now right.now rows.now)))
        out.new result }
{
    let answer = run_job(
        n, starts, columns, counts, l_subs, l_starts, l_slots, u_subs, u_starts, u_slots, values,
        right, rows, l, u, d, x, pivots,
    );
    put_ran(out, counts, answer, pivots, x)
}

// The same, in result stores of its own.
fn put_run(
    out: &mut [u8],
    n: usize,
    starts: &[usize],
    columns: &[usize],
    values: &[f64],
    right: &[f64],
    rows: &[usize],
    counts: PlanCounts,
    l_subs: &[usize],
    l_starts: &[usize],
    l_slots: &[usize],
    u_subs: &[usize],
    u_starts: &[usize],
    u_slots: &[usize],
) -> usize
    requires { (answer_room ≤ length out.old) × (n ≤ max_job_n)
        × PlanMade (lent_square n starts.now columns.now) counts
        (plan_stores l_subs.now l_starts.now l_slots.now u_subs.now u_starts.now u_slots.now) }
    ensures { Appended out.old 0
        (job_text (granted (job_from n starts.now columns.now values.now right.now rows.now)))
        out.new result }
{
    let mut l = [0.0f64; SIDE_ROOM];
    let mut u = [0.0f64; SIDE_ROOM];
    let mut d = [0.0f64; LARGEST_N];
    let mut x = [0.0f64; LARGEST_N];
    let mut pivots = [0usize; LARGEST_N];
    put_run_in(
        out,
        n,
        starts,
        columns,
        values,
        right,
        rows,
        counts,
        l_subs,
        l_starts,
        l_slots,
        u_subs,
        u_starts,
        u_slots,
        &mut l,
        &mut u,
        &mut d[0..n],
        &mut x[0..n],
        &mut pivots[0..n],
    )
}

// The plan, then the run on it; or the plan's refusal.
fn put_plan_in(
    out: &mut [u8],
    n: usize,
    starts: &[usize],
    columns: &[usize],
    values: &[f64],
    right: &[f64],
    rows: &[usize],
    l_subs: &mut [usize],
    l_starts: &mut [usize],
    l_slots: &mut [usize],
    u_subs: &mut [usize],
    u_starts: &mut [usize],
    u_slots: &mut [usize],
) -> usize
    requires { (answer_room ≤ length out.old) × (n ≤ max_job_n)
        × PlanSized n (plan_stores l_subs.old l_starts.old l_slots.old u_subs.old u_starts.old u_slots.old) }
    ensures { Appended out.old 0
        (job_text (granted (job_from n starts.now columns.now values.now right.now rows.now)))
        out.new result }
{
    let answer = plan_job(
        n, starts, columns, l_subs, l_starts, l_slots, u_subs, u_starts, u_slots,
    );
    match answer {
        PlanAnswer::Refused(refusal) => put_plan_refused(out, refusal),
        PlanAnswer::Planned(counts) => put_run(
            out, n, starts, columns, values, right, rows, counts, l_subs, l_starts, l_slots,
            u_subs, u_starts, u_slots,
        ),
    }
}

// The same, in stores of its own for the plan.
pub fn put_plan(
    out: &mut [u8],
    n: usize,
    starts: &[usize],
    columns: &[usize],
    values: &[f64],
    right: &[f64],
    rows: &[usize],
) -> usize
    requires { (answer_room ≤ length out.old) × (n ≤ max_job_n) }
    ensures { Appended out.old 0
        (job_text (granted (job_from n starts.now columns.now values.now right.now rows.now)))
        out.new result }
{
    let mut l_subs = [0usize; SIDE_ROOM];
    let mut l_starts = [0usize; LARGEST_N];
    let mut l_slots = [0usize; MORE_THAN_N];
    let mut u_subs = [0usize; SIDE_ROOM];
    let mut u_starts = [0usize; LARGEST_N];
    let mut u_slots = [0usize; MORE_THAN_N];
    let more = n + 1;
    put_plan_in(
        out,
        n,
        starts,
        columns,
        values,
        right,
        rows,
        &mut l_subs,
        &mut l_starts[0..n],
        &mut l_slots[0..more],
        &mut u_subs,
        &mut u_starts[0..n],
        &mut u_slots[0..more],
    )
}
