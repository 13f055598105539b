// Lines on standard output.
use answers::{ReadAnswer, WriteAnswer};
use std::io;
use std::io::Write;
use streams::Bits;

// The line of a text that was read: the whole number and the bits of the f64, or the refusal and its step.
pub fn read<W: Write>(writer: &mut W, request: usize, answer: ReadAnswer) -> io::Result<()> {
    write!(writer, "read {request} ")?;
    match answer {
        ReadAnswer::Whole(whole, value) => {
            let bits = value.bits();
            writeln!(writer, "granted {whole} {bits:016x}")
        }
        ReadAnswer::OtherText => writeln!(writer, "refused 28 0"),
    }
}

// The whole number that was written, or the refusal and its step.
fn answered<W: Write>(writer: &mut W, answer: WriteAnswer) -> io::Result<()> {
    match answer {
        WriteAnswer::Written(whole) => write!(writer, "granted {whole}"),
        WriteAnswer::Stores => write!(writer, "refused 6 0"),
        WriteAnswer::Beyond => write!(writer, "refused 29 0"),
    }
}

// The line of a number that was written: the answer, and every place of the store.
pub fn written<W: Write>(
    writer: &mut W,
    request: usize,
    answer: WriteAnswer,
    store: &[u8],
) -> io::Result<()> {
    write!(writer, "write {request} ")?;
    answered(writer, answer)?;
    write!(writer, " ")?;
    for byte in store {
        write!(writer, "{byte:02x}")?;
    }
    writeln!(writer)
}
