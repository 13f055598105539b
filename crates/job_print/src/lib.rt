// The bytes of an answer, written into a lent store: a finished run's report, or the line of a refusal.
//
// Every function writes behind what a page has and leaves what lies beyond as it was: the records `Wrote` and `Appended`. A usize has at most
// 20 digits, so a line of the solution takes at most 40 bytes, and 8,192 bytes are room for every report of 128 fields.
#![tactic(auto)]

ghost use Rattle.std.specs.Prelude.{◌≤◌, length};
ghost use Rattle.foundation.specs.Pattern.{Lent};
ghost use Rattle.foundation.specs.RunCall.{Ran};
ghost use Rattle.foundation.specs.Printing.{refused_line, report};
ghost use Rattle.foundation.specs.Job.{max_job_n};
ghost use Rattle.job_sizes.specs.Sizes.{answer_room};
ghost use Rattle.job_print.specs.Appended.{Appended};
ghost use Rattle.job_print.specs.Lines.{Finished};

mod digits;
mod lines;
mod page;

use page::Page;

// The line of a refusal: its number and its step.
pub fn put_refused(out: &mut [u8], number: usize, step: usize) -> usize
    requires { 50 ≤ length out.old }
    ensures { Appended out.old 0 (refused_line number step) out.new result }
{
    let mut page = Page { bytes: out, end: 0 };
    let numbers = [number, step];
    page.put_line(b"refused", &numbers);
    page.end
}

// The report of a finished run: the plan's counts, the pivot rows, the solution row by row, the updates.
pub fn put_report(
    out: &mut [u8],
    counts: &[usize],
    pivots: &[usize],
    solution: &[f64],
    updates: usize,
) -> usize
    requires { (answer_room ≤ length out.old) × (length counts.now ≤ 7) × (length pivots.now ≤ max_job_n) × (length solution.now ≤ max_job_n) }
    ensures { (p : Lent) (ran : Ran) → Finished p ran counts.now pivots.now solution.now updates
        → Appended out.old 0 (report p ran) out.new result }
{
    let mut page = Page { bytes: out, end: 0 };
    page.put_line(b"plan", counts);
    page.put_line(b"rows", pivots);
    page.put_values(solution);
    page.put_line(b"updates", &[updates]);
    page.end
}
