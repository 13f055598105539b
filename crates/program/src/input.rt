// Standard input, read into a store.
ghost use Rattle.std.specs.Prelude.{length};
ghost use Rattle.program.specs.Input.{InRoom, Brought, EndsAtNone, EndsShort};

use std::io::Read;

// How many bytes were read, or that a read failed.
#[derive(Clone, Copy)]
pub enum Input {
    Whole(usize),
    Failed,
}

// One read: how many bytes came, none at the end of the input.
fn read_some<R: Read>(reader: &mut R, part: &mut [u8]) -> Input
    ensures room { InRoom (length part.old) result }
    ensures bytes { Brought (R.remaining reader.old) (R.remaining reader.new) part.new result }
    ensures end { EndsAtNone (R.remaining reader.new) part.old result }
{
    match reader.read(part) {
        Ok(count) => Input::Whole(count),
        Err(_) => Input::Failed,
    }
}

// Reads until the input ends or the store is full. A pipe may bring the bytes in pieces; a read that fails is no end of the input.
pub fn read_input<R: Read>(reader: &mut R, store: &mut [u8]) -> Input
    ensures room { InRoom (length store.old) result }
    ensures bytes { Brought (R.remaining reader.old) (R.remaining reader.new) store.new result }
    ensures whole { EndsShort (R.remaining reader.new) store.old result }
{
    let mut done = 0;
    while done < store.len() {
        let got = read_some(reader, &mut store[done..]);
        let Input::Whole(more) = got else {
            return Input::Failed;
        };
        if more == 0 {
            return Input::Whole(done);
        }
        done += more;
    }
    Input::Whole(done)
}
