// `offsets::read` for callers in other languages.
ghost use Rattle.dalumiveth.specs.Calls.{ReadTold};

use answers::ReadAnswer;
use numbers::{put_refusal, tell_offset};
use offsets::read;

// The whole milliarcseconds of a text (`offsets::read`), and the f64 equal to them in the store `value` of one place; of another length it is refused with 6. Four
// numbers: 0, 0, 1 where the whole number is below zero, and its size; or the refusal's number and step.
#[unsafe(no_mangle)]
pub extern "C" fn dalumiveth_read_offset(
    text: &[u8],
    value: &mut [f64],
    answer: &mut [usize],
) -> usize
    ensures { ReadTold result text.now value.old value.new answer.old answer.new }
{
    if value.len() != 1 {
        value.fill(0.0);
        return put_refusal(6, 0, answer);
    }
    match read(text) {
        ReadAnswer::Whole(whole, x) => {
            value.fill(x);
            tell_offset(whole, answer)
        }
        ReadAnswer::OtherText => {
            value.fill(0.0);
            put_refusal(28, 0, answer)
        }
    }
}
