// Lists of numbers and of bytes, laid into a store that the caller lends: as many as there is room for, and 0 behind them.
ghost use Rattle.std.specs.Prelude.{◌≡◌, [], ◌∷◌, length, get_or, take};
ghost use Rattle.numbers.specs.Numbered.{cut_or_padded};

use crate::reading::number_at;

// Place t gets the t-th number.
pub fn put(numbers: &[usize], answer: &mut [usize])
    ensures { answer.new ≡ cut_or_padded (length answer.old) numbers.now }
{
    let mut t = 0;
    while t < answer.len() {
        answer[t] = number_at(numbers, t);
        t += 1;
    }
}

// A refusal's number and step, and the number returned. (0 and 0 where nothing is refused and nothing else is told.)
pub fn put_refusal(number: usize, step: usize, answer: &mut [usize]) -> usize
    ensures returned { result ≡ number }
    ensures numbers { answer.new ≡ cut_or_padded (length answer.old) (number ∷ step ∷ []) }
{
    let numbers = [number, step];
    put(&numbers, answer);
    number
}

// The byte at place t of the first `count`, 0 behind them.
fn byte_at(bytes: &[u8], count: usize, t: usize) -> u8
    ensures { result ≡ get_or (take count bytes.now) t 0 }
{
    if t < count {
        if t < bytes.len() {
            return bytes[t];
        }
    }
    0
}

// The first `count` bytes.
pub fn put_bytes(bytes: &[u8], count: usize, out: &mut [u8])
    ensures { out.new ≡ cut_or_padded (length out.old) (take count bytes.now) }
{
    let mut i = 0;
    while i < out.len() {
        out[i] = byte_at(bytes, count, i);
        i += 1;
    }
}
