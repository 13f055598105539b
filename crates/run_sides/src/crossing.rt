// The lists of a side that list k crosses: where the common members stand, and what is taken off.
ghost use Rattle.std.specs.Prelude.{true, false, ◌≡◌, ◌<◌, length, get_or};
ghost use Rattle.lists.specs.Functions.{all};
ghost use Rattle.lists.specs.Sets.{Ascending, member};
ghost use Rattle.foundation.specs.Numbers.{is_zero, finite};
ghost use Rattle.answers.specs.Stores.{side_stores};
ghost use Rattle.run_slots.specs.Flags.{flagged};
ghost use Rattle.run_stretch.specs.Stretches.{reduced_all, gathered};
ghost use Rattle.run_stretch.specs.Crossing.{Crossing, SharedCell};
ghost use Rattle.run_sides.specs.Heads.{HeadsAsk, HeadsLeave};

use answers::SubscriptPlace;
use run_stretch::{first_above, reduce_from};
use store_place::list_place;
use store_search::place_of;

// Where member x of a list stands. Lists share their subscripts: if the cell that x was read from lies inside this list, its place is known.
pub fn member_place(own: &[usize], start: SubscriptPlace, cell: SubscriptPlace, x: usize) -> usize
    requires { Ascending 0 own.now × (member x own.now ≡ true) × SharedCell own.now start.0 cell.0 x }
    ensures { (result < length own.now) × (get_or own.now result 0 ≡ x) }
{
    let from = start.0;
    let at = cell.0;
    if from <= at {
        let o = at - from;
        if o < own.len() {
            return o;
        }
    }
    place_of(own, x)
}

// One list that another one crosses; `start` is where it opens among the subscripts, `cell` where the other one's first member stands there.
pub fn reduce_list(
    y: &mut [f64],
    own: &[usize],
    over: &[usize],
    values: &[f64],
    dense: &[f64],
    m: f64,
    start: SubscriptPlace,
    cell: SubscriptPlace,
    flag: usize,
) -> usize
    requires { (length y.old ≡ length own.now) × (is_zero m ≡ false) × Crossing own.now over.now values.now dense.now × (0 < length over.now) × (all finite y.old ≡ true) × SharedCell own.now start.0 cell.0 (get_or over.now 0 0) }
    ensures { (y.new ≡ reduced_all m (gathered dense.now own.now) y.old) × (result ≡ flagged flag (all finite y.new)) }
{
    let o = member_place(own, start, cell, over[0]);
    reduce_from(y, own, over, values, dense, m, o, flag)
}

// Off the list of each head, its factor times the numbers of the crossing list beyond the head. `opening` is where the crossing list opens
// among the subscripts.
pub fn reduce_lists(
    y: &mut [f64],
    subs: &[usize],
    starts: &[usize],
    slots: &[usize],
    heads: &[usize],
    factors: &[f64],
    over: &[usize],
    values: &[f64],
    dense: &[f64],
    opening: SubscriptPlace,
    flag: usize,
) -> usize
    requires { HeadsAsk y.old (side_stores subs.now starts.now slots.now) heads.now over.now factors.now values.now dense.now opening.0 }
    ensures { (w : HeadsAsk y.old (side_stores subs.now starts.now slots.now) heads.now over.now
        factors.now values.now dense.now opening.0) → HeadsLeave _ _ _ _ _ _ _ _ flag y.new result w }
{
    let mut bad = flag;
    let mut s = 0;
    let mut t = 0;
    while t < heads.len() {
        let i = heads[t];
        let m = factors[t];
        s = first_above(over, s, i);
        t += 1;
        if m == 0.0 {
            continue;
        }
        // Nothing lies beyond the head. A head above n always ends here: it has no list.
        if s == over.len() {
            continue;
        }
        let place = list_place(starts, slots, i);
        let from = place.from.0;
        let to = place.to.0;
        let slot = place.slot.0;
        let next = place.next.0;
        let z = over.len();
        let cell = opening.0 + s;
        bad = reduce_list(
            &mut y[slot..next],
            &subs[from..to],
            &over[s..z],
            &values[s..z],
            dense,
            m,
            place.from,
            SubscriptPlace(cell),
            bad,
        );
    }
    bad
}
