// What is printed of a job whose text was read: the report of its run, or the line of the refusal that ended its plan or its run.
#![tactic(auto)]

ghost use Rattle.std.specs.Prelude.{◌≡◌, ◌≤◌, length};
ghost use Rattle.foundation.specs.Answer.{Answer, and_then};
ghost use Rattle.foundation.specs.Pattern.{Lent};
ghost use Rattle.foundation.specs.Plan.{Planning};
ghost use Rattle.foundation.specs.PlanCall.{plan_answer};
ghost use Rattle.foundation.specs.RunCall.{Ran};
ghost use Rattle.foundation.specs.Printing.{answer_text, line_numbers};
ghost use Rattle.foundation.specs.Job.{max_job_n};
ghost use Rattle.job_sizes.specs.Sizes.{answer_room};
ghost use Rattle.answers.specs.Answers.{counts_in, refusal_of};
ghost use Rattle.job_print.specs.Appended.{Appended};
ghost use Rattle.job_report.specs.Reported.{Reported};

use answers::{PlanCounts, Refusal, RunAnswer, RunOutcome};
use job_print::{put_refused, put_report};
use numbers::{number_and_step, number_of};

// The line of a refusal of planning: whatever run was to follow, none did.
pub fn put_plan_refused(out: &mut [u8], refusal: Refusal) -> usize
    requires { 50 ≤ length out.old }
    ensures { (p : Lent) (a : Answer Planning) (after : Planning → Answer Ran) → refusal_of refusal ≡ plan_answer p a
        → Appended out.old 0 (answer_text p (and_then a after)) out.new result }
{
    let refused = number_and_step(refusal);
    put_refused(out, refused.number, refused.step)
}

// The numbers of the line `plan`: the row count of a job is its n, and is not printed.
fn line_numbers(c: PlanCounts) -> [usize; 7]
    ensures { result ≡ line_numbers (counts_in c) }
{
    [
        c.n,
        c.entries,
        c.l_subscripts,
        c.u_subscripts,
        c.l_slots,
        c.u_slots,
        c.reads,
    ]
}

// The report of a run on a plan with these counts, or the line of its refusal.
pub fn put_ran(
    out: &mut [u8],
    counts: PlanCounts,
    answer: RunAnswer,
    pivots: &[usize],
    x: &[f64],
) -> usize
    requires { (answer_room ≤ length out.old) × (length pivots.now ≤ max_job_n) × (length x.now ≤ max_job_n) }
    ensures { (p : Lent) (a : Answer Ran) → Reported p a counts answer pivots.now x.now
        → Appended out.old 0 (answer_text p a) out.new result }
{
    let outcome = answer.outcome;
    match outcome {
        RunOutcome::Finished(updates) => {
            let line = line_numbers(counts);
            put_report(out, &line, pivots, x, updates)
        }
        RunOutcome::Stopped(reason, step) => put_refused(out, number_of(reason), step),
    }
}
