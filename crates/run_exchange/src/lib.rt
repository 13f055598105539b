// The exchange of rows in the slots: `exchange` brings a step's pivot row to row k.
#![tactic(auto)]

ghost use Rattle.answers.specs.Stores.{plan_stores, side_stores};
ghost use Rattle.run_slots.specs.Shows.{square_stores};
ghost use Rattle.run_exchange.specs.Behind.{BehindAsks, BehindLeaves};
ghost use Rattle.run_exchange.specs.Exchange.{ExchangeAsks, ExchangeLeaves};

use answers::{SlotPlace, SubscriptPlace};
use run_swap::{offset_from, swap, swap_before, swap_beyond, swap_within};
use store_place::list_place;

// Rows k and p in the columns of U_k that are not before p, from place t on: p itself, where row p has its diagonal, and those beyond it, where
// it lies in U_p. A row above n lies in L alone: all of U_k is before it, and nothing is left to do. U_k's subscripts begin at `from`, its slots
// at `first`.
fn swap_behind(
    us: &[usize],
    from: SubscriptPlace,
    first: SlotPlace,
    t: usize,
    p: usize,
    u_subs: &[usize],
    u_starts: &[usize],
    u_slots: &[usize],
    u: &mut [f64],
    d: &mut [f64],
)
    requires { BehindAsks us.now from.0 first.0 t p (side_stores u_subs.now u_starts.now u_slots.now) u.old d.old }
    ensures { (w : BehindAsks us.now from.0 first.0 t p (side_stores u_subs.now u_starts.now u_slots.now) u.old d.old)
        → BehindLeaves _ _ _ _ _ _ _ _ u.new d.new w }
{
    if t == us.len() {
        return;
    }
    let own = first.0 + t;
    swap(d, p - 1, u, SlotPlace(own));
    let other = list_place(u_starts, u_slots, p);
    let start = other.from.0;
    let end = other.to.0;
    let next = from.0 + t + 1;
    let guess = offset_from(SubscriptPlace(next), other.from);
    swap_beyond(us, first, t + 1, &u_subs[start..end], other.slot, guess, u);
}

// Rows k and p change places in columns k to n and in the right side; p is the member of L_k at `place`. Only k and the columns of U_k are
// touched: in all others both rows hold +0. Row k lies on the diagonal and in U_k; row p lies in L before its diagonal and in U_p
// beyond it. A row above n lies in L alone.
pub fn exchange(
    k: usize,
    place: usize,
    l_subs: &[usize],
    l_starts: &[usize],
    l_slots: &[usize],
    u_subs: &[usize],
    u_starts: &[usize],
    u_slots: &[usize],
    l: &mut [f64],
    u: &mut [f64],
    d: &mut [f64],
    x: &mut [f64],
)
    requires { ExchangeAsks k place (plan_stores l_subs.now l_starts.now l_slots.now u_subs.now u_starts.now u_slots.now)
        (square_stores l.old u.old d.old x.old) }
    ensures { (w : ExchangeAsks k place
        (plan_stores l_subs.now l_starts.now l_slots.now u_subs.now u_starts.now u_slots.now)
        (square_stores l.old u.old d.old x.old))
        → ExchangeLeaves k place _ _ (square_stores l.new u.new d.new x.new) w }
{
    let column = list_place(l_starts, l_slots, k);
    let cell = column.from.0 + place;
    let p = l_subs[cell];
    let begin = column.slot.0;
    let at = begin + place;
    swap(d, k - 1, l, SlotPlace(at));
    let row = list_place(u_starts, u_slots, k);
    let from = row.from.0;
    let to = row.to.0;
    let us = &u_subs[from..to];
    let t = swap_before(
        us,
        row.slot,
        p,
        SubscriptPlace(cell),
        l_subs,
        l_starts,
        l_slots,
        l,
        u,
    );
    swap_behind(
        us, row.from, row.slot, t, p, u_subs, u_starts, u_slots, u, d,
    );
    swap_within(x, k - 1, p - 1);
}
