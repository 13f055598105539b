// Stretches of numbers and of subscripts: m times one is taken off another; a work store is filled by subscripts and cleared again.
#![tactic(auto)]

ghost use Rattle.std.specs.Prelude.{◌≡◌, ◌≤◌, ◌<◌, length, get_or};
ghost use Rattle.run_stretch.specs.Stretches.{UpTo};

mod gather;
mod stretch;
mod work;

pub use stretch::reduce_from;
pub use work::{clear_at, copy_in, spread};

// The first place from s on whose member is above i, the list's length where there is none.
pub fn first_above(list: &[usize], s: usize, i: usize) -> usize
    requires { (s ≤ length list.now) × UpTo i s list.now }
    ensures { (result ≤ length list.now) × UpTo i result list.now × (result < length list.now → i < get_or list.now result 0) }
{
    let mut q = s;
    while q < list.len() {
        if i < list[q] {
            return q;
        }
        q += 1;
    }
    q
}
