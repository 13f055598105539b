// Slots that change places.
ghost use Rattle.std.specs.Prelude.{◌≡◌, ◌<◌, length, get_or, set};
ghost use Rattle.std.specs.Float.{nan};
ghost use Rattle.answers.specs.Stores.{side_stores};
ghost use Rattle.run_swap.specs.Swapping.{BeforeAsks, BeforeLeaves, BeyondAsks, BeyondLeaves};

use crate::places::{place_by, slot_of};
use answers::{SlotPlace, SubscriptPlace};

// A place of the diagonal changes with a slot of a side.
pub fn swap(y: &mut [f64], i: usize, z: &mut [f64], slot: SlotPlace)
    requires { (i < length y.old) × (slot.0 < length z.old) }
    ensures { (y.new ≡ set y.old i (get_or z.old slot.0 nan)) × (z.new ≡ set z.old slot.0 (get_or y.old i nan)) }
{
    let j = slot.0;
    let v = y[i];
    y[i] = z[j];
    z[j] = v;
}

// Two places of a store change.
pub fn swap_within(y: &mut [f64], i: usize, j: usize)
    requires { (i < length y.old) × (j < length y.old) }
    ensures { y.new ≡ set (set y.old i (get_or y.old j nan)) j (get_or y.old i nan) }
{
    let v = y[i];
    y[i] = y[j];
    y[j] = v;
}

// Rows k and p in the columns of U_k before p, where row p lies in L; `cell` has p among the subscripts. Returns where p stands in U_k. A row
// above n is no column and lies in L alone: all of U_k is before it, and its length is returned.
pub fn swap_before(
    us: &[usize],
    first: SlotPlace,
    p: usize,
    cell: SubscriptPlace,
    l_subs: &[usize],
    l_starts: &[usize],
    l_slots: &[usize],
    l: &mut [f64],
    u: &mut [f64],
) -> usize
    requires { BeforeAsks us.now first.0 p (side_stores l_subs.now l_starts.now l_slots.now) l.old u.old }
    ensures { (w : BeforeAsks us.now first.0 p (side_stores l_subs.now l_starts.now l_slots.now) l.old u.old)
        → BeforeLeaves result _ _ _ _ _ _ l.new u.new w }
{
    let mut t = 0;
    while t < us.len() {
        let j = us[t];
        if p <= j {
            return t;
        }
        let slot = slot_of(l_subs, l_starts, l_slots, j, p, cell);
        let q = slot.0;
        let i = first.0 + t;
        let v = u[i];
        u[i] = l[q];
        l[q] = v;
        t += 1;
    }
    t
}

// Rows k and p in the columns of U_k beyond p, from place `from` on, where row p lies in U_p. A member of U_k most often stands behind the
// one before it in U_p too; `guess` is where the first may stand.
pub fn swap_beyond(
    us: &[usize],
    first: SlotPlace,
    from: usize,
    own: &[usize],
    second: SlotPlace,
    guess: usize,
    u: &mut [f64],
)
    requires { BeyondAsks us.now first.0 from own.now second.0 u.old }
    ensures { (w : BeyondAsks us.now first.0 from own.now second.0 u.old) → BeyondLeaves _ _ _ _ _ _ u.new w }
{
    let mut t = from;
    let mut next = guess;
    while t < us.len() {
        let q = place_by(own, next, us[t]);
        let i = first.0 + t;
        let j = second.0 + q;
        let v = u[i];
        u[i] = u[j];
        u[j] = v;
        next = q + 1;
        t += 1;
    }
}
