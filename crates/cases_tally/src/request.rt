// One request: its bytes, the call and what is shown of it.
use crate::{lending, show};
use std::io::{Read, Write};
use streams::{FromBytes, Halt, read_request};
use tally::Tally;

enum Request {
    // A record made with zeros.
    Fresh,
    // Updates for a member.
    Add { member: usize, updates: usize },
}

// The bytes of a request.
const WHOLE: usize = 17;

// The next request.
fn next<R: Read>(reader: &mut R) -> Result<Request, Halt> {
    let mut request = [0u8; WHOLE];
    read_request(reader, &mut request)?;
    let mut left = &request[..];
    let kind = u8::read(&mut left)?.ok_or(Halt::Bad)?;
    let member = usize::read(&mut left)?.ok_or(Halt::Bad)?;
    let updates = usize::read(&mut left)?.ok_or(Halt::Bad)?;
    match kind {
        b'Z' => Ok(Request::Fresh),
        b'A' => Ok(Request::Add { member, updates }),
        _ => Err(Halt::Bad),
    }
}

// Answers the next request.
pub fn serve<R: Read, W: Write>(
    reader: &mut R,
    writer: &mut W,
    record: &mut Tally,
) -> Result<(), Halt> {
    match next(reader)? {
        Request::Fresh => {
            *record = tally::empty();
            show::fresh(writer, record)?;
        }
        Request::Add { member, updates } => {
            let answer = lending::added(record, member, updates);
            show::added(writer, member, updates, answer, record)?;
        }
    }
    Ok(())
}
