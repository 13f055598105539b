// Numbers that a caller gives, as the types that the calls take.
ghost use Rattle.std.specs.Prelude.{◌≡◌, get_or};
ghost use Rattle.answers.specs.Answers.{counts_in};
ghost use Rattle.answers.specs.Runs.{extent_of};
ghost use Rattle.numbers.specs.Numbered.{counts_from, extent_from};

use answers::{Extent, PlanCounts};

// The number at place t, 0 behind the last one.
pub fn number_at(numbers: &[usize], t: usize) -> usize
    ensures { result ≡ get_or numbers.now t 0 }
{
    if t < numbers.len() {
        return numbers[t];
    }
    0
}

// The eight counts of a plan. Missing ones read as 0, further ones are not read.
pub fn counts_from(numbers: &[usize]) -> PlanCounts
    ensures { counts_in result ≡ counts_from numbers.now }
{
    let n = number_at(numbers, 0);
    let height = number_at(numbers, 1);
    let entries = number_at(numbers, 2);
    let l_subscripts = number_at(numbers, 3);
    let u_subscripts = number_at(numbers, 4);
    let l_slots = number_at(numbers, 5);
    let u_slots = number_at(numbers, 6);
    let reads = number_at(numbers, 7);
    PlanCounts {
        n,
        height,
        entries,
        l_subscripts,
        u_subscripts,
        l_slots,
        u_slots,
        reads,
    }
}

// A whole run where `cut` is 0, else the first `steps` steps.
pub fn extent_from(cut: usize, steps: usize) -> Extent
    ensures { extent_of result ≡ extent_from cut steps }
{
    if cut == 0 {
        return Extent::Whole;
    }
    Extent::Cut(steps)
}
