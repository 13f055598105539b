// Printing over any writer.
ghost use Rattle.std.specs.Prelude.{OnOk};
ghost use Rattle.std.specs.Fmt.{decimal};
ghost use Rattle.std.specs.Io.KnownBytes.{Appends};
ghost use Rattle.streams.specs.Numbers.{hexadecimal};

use std::io;
use std::io::Write;

// Prints a number in decimal.
pub fn write_decimal<W: Write>(writer: &mut W, n: u64) -> io::Result<()>
    ensures { OnOk result (Appends (W.contents writer.old) (W.contents writer.new) (decimal n)) }
{
    write!(writer, "{n}")
}

// Prints a number in hexadecimal, with zeros in front up to `width` digits.
pub fn write_hex<W: Write>(writer: &mut W, n: u64, width: usize) -> io::Result<()>
    ensures { OnOk result (Appends (W.contents writer.old) (W.contents writer.new) (hexadecimal width n)) }
{
    write!(writer, "{n:0width$x}")
}
