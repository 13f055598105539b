// The choice of a pivot row by the entries of its column.
ghost use Rattle.std.specs.Prelude.{true, ◌≡◌, suc, ◌≤◌, length};
ghost use Rattle.lists.specs.Functions.{all};
ghost use Rattle.lists.specs.Sets.{Ascending};
ghost use Rattle.foundation.specs.Numbers.{finite, may_pivot};
ghost use Rattle.run_pivot.specs.Pivot.{absolute, LargestFound, ListedFound};

use crate::Found;
use store_search::place_of;

// 2 to the power -1022, the least magnitude of a pivot.
const LEAST_PIVOT: f64 = 2.2250738585072014e-308;

// The largest f64 below it. The search starts from it, so that one comparison asks whether an entry may serve and whether it is larger.
const LARGEST_FAINT: f64 = 2.225073858507201e-308;

// A number without its sign; a zero keeps it, which no comparison sees.
fn size(v: f64) -> f64
    ensures { result ≡ absolute v }
{
    if v < 0.0 {
        return -v;
    }
    v
}

// Whether a number may serve as a pivot.
fn serves(v: f64) -> bool
    ensures { result ≡ may_pivot v }
{
    LEAST_PIVOT <= size(v)
}

// The row with the largest entry among k and the rows of a list, the lowest if equal; 0 where no entry may serve.
pub fn largest_row(k: usize, own: f64, slots: &[f64], subs: &[usize]) -> Found
    requires { (length slots.now ≡ length subs.now) × (1 ≤ k) × Ascending (suc k) subs.now × (finite own ≡ true) × (all finite slots.now ≡ true) }
    ensures { LargestFound k own slots.now subs.now result.row result.place }
{
    let mut row = 0;
    let mut place = 0;
    let mut top = size(own);
    if LARGEST_FAINT < top {
        row = k;
    } else {
        top = LARGEST_FAINT;
    }
    let mut q = 0;
    while q < slots.len() {
        let a = size(slots[q]);
        if top < a {
            top = a;
            row = subs[q];
            place = q;
        }
        q += 1;
    }
    Found { row, place }
}

// The listed row if its entry may serve, else 0: it is k, or it stands in the list, or it has no entry.
pub fn listed_row(k: usize, listed: usize, own: f64, slots: &[f64], subs: &[usize]) -> Found
    requires { (length slots.now ≡ length subs.now) × Ascending 0 subs.now }
    ensures { ListedFound k listed own slots.now subs.now result.row result.place }
{
    if listed == k {
        if serves(own) {
            return Found { row: k, place: 0 };
        }
        return Found { row: 0, place: 0 };
    }
    let place = place_of(subs, listed);
    if place < subs.len() {
        if subs[place] == listed {
            let entry = slots[place];
            if serves(entry) {
                return Found { row: listed, place };
            }
        }
    }
    Found { row: 0, place: 0 }
}
