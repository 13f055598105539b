// A job's bytes to the bytes that are printed: read, planned, run, reported. Everything that the program prints is decided here.
#![tactic(auto)]

ghost use Rattle.std.specs.Prelude.{◌≡◌, length};
ghost use Rattle.lists.specs.Functions.{padded};
ghost use Rattle.foundation.specs.Printing.{printed};

mod whole;

use job_sizes::{ANSWER_ROOM, JOB_BYTES};

// The bytes of the longest job that is read: a longer one is refused whatever its bytes are.
pub const LONGEST: usize = JOB_BYTES;

// The places of a store for an answer: room for every one.
pub const ROOM: usize = ANSWER_ROOM;

// The bytes that are printed, and how many they are; the rest is zero.
#[derive(Clone, Copy)]
pub struct JobAnswer {
    pub bytes: [u8; ANSWER_ROOM],
    pub count: usize,
}

// The answer to a job, whatever its bytes are. The store has room for every answer.
pub fn answer(job: &[u8]) -> JobAnswer
    ensures count { result.count ≡ length (printed job.now) }
    ensures bytes { result.bytes ≡ padded 0 8192 (printed job.now) }
{
    let mut bytes = [0u8; ANSWER_ROOM];
    let count = whole::put_answer(job, &mut bytes);
    JobAnswer { bytes, count }
}
