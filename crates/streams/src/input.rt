// Bytes from any reader.
ghost use Rattle.std.specs.Prelude.{◌≡◌, IfOk, IfErr, MatchOption, ◌<◌, length, take};
ghost use Rattle.std.specs.Io.{ReadsAtMost};
ghost use Rattle.std.specs.Io.KnownBytes.{Consumes, IsAtEnd};
ghost use Rattle.streams.specs.Halts.{CutOff};

use crate::halts::Halt;
use std::io;
use std::io::Read;

// Reads until `store` is full or the input ends, and answers how many bytes it put at the front of `store`. A pipe may bring the bytes in pieces.
pub fn read_full<R: Read>(reader: &mut R, store: &mut [u8]) -> io::Result<usize>
    ensures bound { ReadsAtMost result store.new }
    ensures bytes { IfOk result (λ n. Consumes (R.remaining reader.old) (R.remaining reader.new) (take n store.new)) }
    ensures end { IfOk result (λ n. n < length store.old → IsAtEnd (R.remaining reader.new)) }
{
    let mut done = 0;
    // No `for`: no index is counted, since a read may bring any part.
    while done < store.len() {
        let got = reader.read(&mut store[done..])?;
        if got == 0 {
            break;
        }
        done += got;
    }
    Ok(done)
}

// The next N bytes; none where the input ends before them.
pub fn read_bytes<R: Read, const N: usize>(reader: &mut R) -> io::Result<Option<[u8; N]>>
    ensures { IfOk result (λ read. MatchOption read (IsAtEnd (R.remaining reader.new))
        (λ bytes. Consumes (R.remaining reader.old) (R.remaining reader.new) bytes)) }
{
    let mut bytes = [0u8; N];
    if read_full(reader, &mut bytes)? < N {
        return Ok(None);
    }
    Ok(Some(bytes))
}

// Fills a store with the bytes of a request, which are asked for in one piece.
pub fn read_request<R: Read>(reader: &mut R, request: &mut [u8]) -> Result<(), Halt>
    ensures bytes { IfOk result (λ _. Consumes (R.remaining reader.old) (R.remaining reader.new) request.new) }
    ensures cut_off { IfErr result (λ halt. CutOff (length request.old) (R.remaining reader.old) (R.remaining reader.new) halt) }
{
    let count = read_full(reader, request)?;
    if count == request.len() {
        Ok(())
    } else if count == 0 {
        Err(Halt::Ended)
    } else {
        Err(Halt::Bad)
    }
}

// Reads `count` bytes, asked for in one piece, into the front of a store: the part that they fill. Where the store or the input has fewer, what is read is no request.
pub fn read_text<'a, R: Read>(
    reader: &mut R,
    store: &'a mut [u8],
    count: usize,
) -> Result<&'a [u8], Halt>
    ensures count { IfOk result (λ part. length part.now ≡ count) }
    ensures bytes { IfOk result (λ part. Consumes (R.remaining reader.old) (R.remaining reader.new) part.now) }
{
    let part = store.get_mut(..count).ok_or(Halt::Bad)?;
    if read_full(reader, part)? < count {
        return Err(Halt::Bad);
    }
    Ok(part)
}
