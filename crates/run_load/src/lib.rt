// What a run is lent, laid into the slots.
#![tactic(auto)]

ghost use Rattle.std.specs.Prelude.{◌≡◌, length};
ghost use Rattle.foundation.specs.Pattern.{lent};
ghost use Rattle.answers.specs.Stores.{plan_stores, side_stores};
ghost use Rattle.run_slots.specs.Handing.{LoadAsks, LoadLeaves};
ghost use Rattle.run_slots.specs.Lists.{SlotAsks, SlotLeaves};
ghost use Rattle.run_slots.specs.Shows.{square_stores};
ghost use Rattle.run_load.specs.Rows.{RowAsks, Loaded};

use answers::SlotPlace;
use run_stretch::copy_in;
use store_place::list_place;
use store_search::place_of;

// Where the slot of a subscript lies: list k's slots start at place k-1's number, in the order of its subscripts.
fn slot_of(subs: &[usize], starts: &[usize], slots: &[usize], k: usize, x: usize) -> SlotPlace
    requires { SlotAsks (side_stores subs.now starts.now slots.now) k x }
    ensures { (w : SlotAsks (side_stores subs.now starts.now slots.now) k x) → SlotLeaves result.0 _ _ _ w }
{
    let list = list_place(starts, slots, k);
    let from = list.from.0;
    let to = list.to.0;
    let at = list.slot.0 + place_of(&subs[from..to], x);
    SlotPlace(at)
}

// The values of row i: those before its diagonal go to L, into the lists of their columns, those behind it to U, into the row's own list.
fn load_row(
    i: usize,
    columns: &[usize],
    values: &[f64],
    l_subs: &[usize],
    l_starts: &[usize],
    l_slots: &[usize],
    u_subs: &[usize],
    u_starts: &[usize],
    u_slots: &[usize],
    l: &mut [f64],
    u: &mut [f64],
    d: &mut [f64],
)
    requires { RowAsks i columns.now values.now (plan_stores l_subs.now l_starts.now l_slots.now u_subs.now u_starts.now u_slots.now) l.old u.old d.old }
    ensures { (w : RowAsks i columns.now values.now
        (plan_stores l_subs.now l_starts.now l_slots.now u_subs.now u_starts.now u_slots.now)
        l.old u.old d.old)
        → Loaded w.s w.n w.target i columns.now l.new u.new d.new }
{
    let mut q = 0;
    while q < columns.len() {
        let j = columns[q];
        let value = values[q];
        q += 1;
        if j < i {
            let slot = slot_of(l_subs, l_starts, l_slots, j, i);
            let to = slot.0;
            l[to] = value;
            continue;
        }
        if i < j {
            let slot = slot_of(u_subs, u_starts, u_slots, i, j);
            let to = slot.0;
            u[to] = value;
            continue;
        }
        d[i - 1] = value;
    }
}

// The square and the right side before the first step, `height` rows of each, in stores whose slots are +0 throughout.
pub fn load(
    n: usize,
    height: usize,
    starts: &[usize],
    columns: &[usize],
    values: &[f64],
    right: &[f64],
    l_subs: &[usize],
    l_starts: &[usize],
    l_slots: &[usize],
    u_subs: &[usize],
    u_starts: &[usize],
    u_slots: &[usize],
    l: &mut [f64],
    u: &mut [f64],
    d: &mut [f64],
    x: &mut [f64],
)
    requires { LoadAsks (lent n height starts.now columns.now) values.now right.now
        (plan_stores l_subs.now l_starts.now l_slots.now u_subs.now u_starts.now u_slots.now) (square_stores l.old u.old d.old x.old) }
    ensures { (w : LoadAsks (lent n height starts.now columns.now) values.now right.now
        (plan_stores l_subs.now l_starts.now l_slots.now u_subs.now u_starts.now u_slots.now)
        (square_stores l.old u.old d.old x.old))
        → LoadLeaves _ _ _ _ _ (square_stores l.new u.new d.new x.new) w }
{
    copy_in(x, right);
    let mut i = 0;
    while i < height {
        let from = starts[i];
        i += 1;
        let end = starts[i];
        load_row(
            i,
            &columns[from..end],
            &values[from..end],
            l_subs,
            l_starts,
            l_slots,
            u_subs,
            u_starts,
            u_slots,
            l,
            u,
            d,
        );
    }
}
