// How pivot rows are chosen, read from a number that a caller gives.
ghost use Rattle.std.specs.Prelude.{◌≡◌};
ghost use Rattle.dalumiveth.specs.Calls.{choice_from};

use answers::PivotChoice;

// By the largest entry where `by_list` is 0, else by the list.
pub fn choice_from(by_list: usize) -> PivotChoice
    ensures { result ≡ choice_from by_list }
{
    if by_list == 0 {
        return PivotChoice::Largest;
    }
    PivotChoice::Listed
}
