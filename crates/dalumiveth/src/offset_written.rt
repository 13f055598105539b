// `offsets::write` for callers in other languages.
ghost use Rattle.dalumiveth.specs.Calls.{WriteTold};

use numbers::tell_written;
use offsets::write;

// The text of the nearest whole milliarcsecond (`offsets::write`), in a store of `offsets::BYTES` places; of another length it is refused with 6. Four numbers: 0, 0, 1
// where the whole number is below zero, and its size; or the refusal's number and step.
#[unsafe(no_mangle)]
pub extern "C" fn dalumiveth_write_offset(value: f64, out: &mut [u8], answer: &mut [usize]) -> usize
    ensures { WriteTold result value out.old out.new answer.old answer.new }
{
    let answered = write(value, out);
    tell_written(answered, answer)
}
