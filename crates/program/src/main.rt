#![tactic(auto)]

// The job program: a job on standard input, its answer on standard output (document 01, "Job").
//
// What is answered is decided by `job::answer`; here bytes are read and written, and nothing else. Stated is, over any reader and any writer, that the job
// is what the reader gave, up to one byte more than the longest one, and that `printed` of it is what the writer is given. What standard input gives and what
// standard output takes is the system's, and no contract speaks of it. The exit status says nothing: a read or a write that fails is told on standard error.
mod input;
mod output;

ghost use Rattle.std.specs.Prelude.{OnOk};
ghost use Rattle.std.specs.Io.KnownBytes.{Appends};
ghost use Rattle.foundation.specs.Printing.{printed};

use input::Input;
use std::io;
use std::io::Write;

// One place more than the longest job has, so that a longer one is seen to be longer.
const ROOM: usize = job::LONGEST + 1;

// Writes the answer to a job that was read whole, in one piece.
fn print_answer<W: Write>(writer: &mut W, bytes: &[u8]) -> io::Result<()>
    ensures { OnOk result (Appends (W.contents writer.old) (W.contents writer.new) (printed bytes.now)) }
{
    let answer = job::answer(bytes);
    let count = answer.count;
    let room = answer.bytes;
    writer.write_all(output::text(&room, count))
}

// Tells what went wrong. That standard error takes no line is not told.
fn tell<W: Write>(errors: &mut W, line: &[u8]) {
    let _ = errors.write_all(line);
}

// One job, from standard input to standard output.
fn main(rt: HostRuntime) {
    let mut store = [0u8; ROOM];
    let Input::Whole(count) = input::read_input(&mut rt.stdin(), &mut store) else {
        tell(&mut rt.stderr(), b"job: standard input cannot be read\n");
        return;
    };
    if print_answer(&mut rt.stdout(), output::front(&store, count)).is_err() {
        tell(
            &mut rt.stderr(),
            b"job: standard output cannot be written\n",
        );
    }
}
