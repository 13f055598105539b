// Offsets in degrees, minutes and seconds, as `+012 34 56.789`: read as whole milliarcseconds, written from an f64 of milliarcseconds. Document 02, Ticket 11.
#![tactic(auto)]

ghost use Rattle.std.specs.Prelude.{◌≡◌, length};
ghost use Rattle.foundation.specs.OffsetCall.{read_offset, write_offset, write_leaves};
ghost use Rattle.answers.specs.Offsets.{read_answer_of, write_answer_of};

use answers::{ReadAnswer, WriteAnswer};
use numbers::put_bytes;
use offset_round::{Rounding, rounded};
use offset_text::{readable, size_read};
use offset_write::text_with;

mod wholes;

// The bytes of a text.
pub const BYTES: usize = 14;

// Reads a text.
pub fn read(text: &[u8]) -> ReadAnswer
    ensures { read_answer_of result ≡ read_offset text.now }
{
    if !readable(text) {
        return ReadAnswer::OtherText;
    }
    let whole = wholes::signed(text[0] == b'-', size_read(text));
    ReadAnswer::Whole(whole, wholes::float_of(whole))
}

// Writes the nearest whole milliarcsecond, the even one at a half, into a store of 14 places. A refusal leaves it zero.
pub fn write(value: f64, out: &mut [u8]) -> WriteAnswer
    ensures { (write_answer_of result ≡ write_offset (length out.old) value) × (out.new ≡ write_leaves (length out.old) value) }
{
    if out.len() != BYTES {
        put_bytes(b"", 0, out);
        return WriteAnswer::Stores;
    }
    match rounded(value) {
        Rounding::To(minus, size) => {
            let text = text_with(minus, size);
            put_bytes(&text, BYTES, out);
            WriteAnswer::Written(wholes::signed(minus, size))
        }
        Rounding::Beyond => {
            put_bytes(b"", 0, out);
            WriteAnswer::Beyond
        }
    }
}
