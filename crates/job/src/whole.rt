// From the job's bytes on.
ghost use Rattle.std.specs.Prelude.{◌≤◌, length};
ghost use Rattle.foundation.specs.Answer.{granted};
ghost use Rattle.foundation.specs.Printing.{printed, job_text};
ghost use Rattle.job_sizes.specs.Sizes.{answer_room};
ghost use Rattle.job_print.specs.Appended.{Appended};
ghost use Rattle.job_read.specs.Read.{lists_in, job_in};

use job_print::put_refused;
use job_read::{LentStores, Sizes, read_job};
use job_run::put_plan;
use job_sizes::{JOB_ENTRIES, LARGEST_N, MORE_THAN_N};

// A job that was read: the filled parts of its stores go on.
fn put_read(out: &mut [u8], z: Sizes, stores: &LentStores) -> usize
    requires { answer_room ≤ length out.old }
    ensures { Appended out.old 0 (job_text (granted (job_in z (lists_in stores.now)))) out.new result }
{
    put_plan(
        out,
        z.n,
        &stores.starts[..z.n + 1],
        &stores.columns[..z.entries],
        &stores.values[..z.entries],
        &stores.right[..z.n],
        &stores.rows[..z.chosen],
    )
}

// The answer to a job's bytes.
pub fn put_answer(job: &[u8], out: &mut [u8]) -> usize
    requires { answer_room ≤ length out.old }
    ensures { Appended out.old 0 (printed job.now) out.new result }
{
    let mut starts = [0usize; MORE_THAN_N];
    let mut columns = [0usize; JOB_ENTRIES];
    let mut values = [0.0f64; JOB_ENTRIES];
    let mut right = [0.0f64; LARGEST_N];
    let mut rows = [0usize; LARGEST_N];
    let mut stores = LentStores {
        starts: &mut starts,
        columns: &mut columns,
        values: &mut values,
        right: &mut right,
        rows: &mut rows,
    };
    match read_job(job, &mut stores) {
        Ok(z) => put_read(out, z, &stores),
        Err(refusal) => put_refused(out, refusal.number(), 0),
    }
}
