// `loads::load` for callers in other languages.
ghost use Rattle.foundation.specs.LoadCall.{load_stores};
ghost use Rattle.dalumiveth.specs.Calls.{LoadTold};

use loads::load;
use numbers::tell_load;

// The test load of a seed (`loads::load`), in stores of n + 1 row starts, `loads::PLACES` columns and as many values, and n right sides; of another length one is refused with
// 6. Three numbers: 0, 0 and the number of entries, or the refusal's number and step.
#[unsafe(no_mangle)]
pub extern "C" fn dalumiveth_load(
    seed: u32,
    n: usize,
    d: usize,
    starts: &mut [usize],
    columns: &mut [usize],
    values: &mut [f64],
    right: &mut [f64],
    answer: &mut [usize],
) -> usize
    ensures { LoadTold result seed n d (load_stores starts.old columns.old values.old right.old)
        (load_stores starts.new columns.new values.new right.new) answer.old answer.new }
{
    let answered = load(seed, n, d, starts, columns, values, right);
    tell_load(answered, answer)
}
