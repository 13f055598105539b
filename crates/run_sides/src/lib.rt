// A side's part of a step of the elimination: off every list of the side that the step reaches, a factor times the numbers of list k. Rows
// (U) and columns (L) are one function, since the order of a product does not show.
#![tactic(auto)]

ghost use Rattle.answers.specs.Stores.{side_stores};
ghost use Rattle.run_slots.specs.Handing.{Clear};
ghost use Rattle.run_sides.specs.Side.{SideAsks, SideLeaves};

use run_stretch::{clear_at, copy_in, spread};
use store_place::list_place;

mod crossing;

// One side of step k: `heads` are the lists reached, `factors` their factors; `copy` takes list k's numbers, `dense` the same by subscript,
// and is clear again afterwards. Returns the step's flag.
pub fn reduce_side(
    y: &mut [f64],
    subs: &[usize],
    starts: &[usize],
    slots: &[usize],
    heads: &[usize],
    factors: &[f64],
    copy: &mut [f64],
    dense: &mut [f64],
    k: usize,
    flag: usize,
) -> usize
    requires { SideAsks y.old (side_stores subs.now starts.now slots.now) heads.now factors.now copy.old dense.old k × Clear dense.old }
    ensures { Clear dense.new × ((w : SideAsks y.old (side_stores subs.now starts.now slots.now) heads.now factors.now copy.old dense.old k)
        → SideLeaves _ _ _ _ _ _ _ flag y.new result w) }
{
    let place = list_place(starts, slots, k);
    let from = place.from.0;
    let to = place.to.0;
    let slot = place.slot.0;
    let next = place.next.0;
    let count = next - slot;
    let own = &subs[from..to];
    copy_in(copy, &y[slot..next]);
    spread(dense, own, &copy[0..count]);
    let bad = crossing::reduce_lists(
        y,
        subs,
        starts,
        slots,
        heads,
        factors,
        own,
        &copy[0..count],
        dense,
        place.from,
        flag,
    );
    clear_at(dense, own);
    bad
}
