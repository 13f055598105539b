// Where a number stands in an ascending list.
ghost use Rattle.std.specs.Prelude.{◌≤◌, length};
ghost use Rattle.lists.specs.Sets.{Ascending};
ghost use Rattle.store_search.specs.Places.{FirstFrom};

// The first place of an ascending list whose member is not below x, the list's length where there is none: found by halves. In a list that does
// not ascend, some place up to its length.
// Halved by hand: with the slices' `partition_point`, which chooses without a branch, the searches of planning took a third to a half longer, since
// what they look up stands near the front.
pub fn place_of(list: &[usize], x: usize) -> usize
    ensures { (result ≤ length list.now) × (Ascending 0 list.now → FirstFrom list.now x result) }
{
    let mut low = 0;
    let mut high = list.len();
    while low < high {
        let mid = low + (high - low) / 2;
        if list[mid] < x {
            low = mid + 1;
            continue;
        }
        high = mid;
    }
    low
}
