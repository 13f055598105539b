// Why a program serves no more requests, and how it ends then.
ghost use Rattle.std.specs.Prelude.{◌≡◌, OnOk};
ghost use Rattle.std.specs.Io.KnownBytes.{Appends};
ghost use Rattle.streams.specs.Halts.{said_at_end};

use std::io;
use std::io::Write;

#[derive(Debug, Drop)]
pub enum Halt {
    // The input ends where a request could begin.
    Ended,
    // What the input holds is no request: it is cut short, or asks for what cannot be had.
    Bad,
    // The system does not read or write.
    Failed(io::Error),
}

impl From<io::Error> for Halt {
    ghost use Rattle.streams.specs.declared.halts.Halt.TheVariants.{Failed};

    ghost from_gives = { λ error halt. halt ≡ Failed error };

    fn from(error: io::Error) -> Halt {
        Halt::Failed(error)
    }
}

// Ends a program: of a bad request it prints `line`, and an error of the system it hands on.
pub fn finish<W: Write>(writer: &mut W, served: Result<(), Halt>, line: &[u8]) -> io::Result<()>
    ensures { OnOk result (Appends (W.contents writer.old) (W.contents writer.new) (said_at_end served line.now)) }
{
    match served {
        Err(Halt::Bad) => writer.write_all(line),
        Err(Halt::Failed(error)) => Err(error),
        Ok(()) | Err(Halt::Ended) => Ok(()),
    }
}
