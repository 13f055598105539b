// `job::answer` for callers in other languages.
ghost use Rattle.dalumiveth.specs.Calls.{JobTold};

use numbers::{put, put_bytes, put_refusal};

// The bytes that are printed for a job (`job::answer`), in a store of `job::ROOM` places; of another length it is refused with 6. Three numbers: 0, 0 and
// how many bytes are printed, or the refusal's number and step.
#[unsafe(no_mangle)]
pub extern "C" fn dalumiveth_job(job: &[u8], out: &mut [u8], answer: &mut [usize]) -> usize
    ensures { JobTold result job.now out.old out.new answer.old answer.new }
{
    if out.len() == job::ROOM {
        let answered = job::answer(job);
        let count = answered.count;
        let text = answered.bytes;
        let numbers = [0, 0, count];
        put_bytes(&text, count, out);
        put(&numbers, answer);
        return 0;
    }
    put_bytes(job, 0, out);
    put_refusal(6, 0, answer)
}
