// From a job's bytes to its pattern, values, right side and row list, or the refusal that the bytes earn: 18 first, then byte by byte 1 at N and 15 to 17.
//
// Only this crate and those below it know the grammar: `job_operands` has the numbers in their bytes, `job_commands` what each command does, `job_order` which command may
// stand where. Callers see the sizes of what was read and the stores.
#![tactic(auto)]

ghost use Rattle.std.specs.Prelude.{◌≡◌, suc, ◌≤◌, length, IfOk};
ghost use Rattle.foundation.specs.Job.{reading, nothing_read, read_job, max_job_bytes};
ghost use Rattle.job_commands.specs.Stores.{lists_in, SameStores};
ghost use Rattle.job_read.specs.Read.{read_of};
ghost use Rattle.job_read.specs.Ending.{ending_of};

mod sizes;

pub use job_commands::{JobRefusal, LentStores};
use job_commands::{Progress, nothing_read};
use job_order::read_next;
use job_sizes::JOB_BYTES;
pub use sizes::Sizes;

// Command after command, each of a byte at least, until Z.
fn read_commands<'a>(job: &'a [u8], stores: &mut LentStores) -> Result<Progress<'a>, JobRefusal>
    requires { length job.now ≤ max_job_bytes }
    ensures answer { ending_of result (lists_in stores.new) ≡ reading (suc (length job.now)) nothing_read job.now }
    ensures same { SameStores stores.old stores.new }
    ensures ended { IfOk result (λ p. p.closed ≡ p.n) }
{
    stores.starts[0] = 0;
    let mut p = nothing_read(job);
    while let Some(next) = read_next(p, stores)? {
        p = next;
    }
    Ok(p)
}

// A job read into lent stores.
pub fn read_job(job: &[u8], stores: &mut LentStores) -> Result<Sizes, JobRefusal>
    ensures answer { read_of result (lists_in stores.new) ≡ read_job job.now }
    ensures same { SameStores stores.old stores.new }
{
    if JOB_BYTES < job.len() {
        return Err(JobRefusal::TooLong);
    }
    let p = read_commands(job, stores)?;
    Ok(Sizes {
        n: p.n,
        entries: p.entries,
        chosen: p.chosen,
    })
}
