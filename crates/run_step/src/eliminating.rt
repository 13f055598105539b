// The elimination of a step once its pivot row stands in place.
ghost use Rattle.answers.specs.Stores.{plan_stores};
ghost use Rattle.run_slots.specs.Handing.{Clear};
ghost use Rattle.run_slots.specs.Shows.{square_stores};
ghost use Rattle.run_step.specs.Eliminating.{ElimAsks, ElimLeaves};

use run_column::{FlagCount, reduce_column};
use run_sides::reduce_side;
use store_place::list_place;

// Step k: column k, right side and diagonal, then the rows of U by the multipliers, then the columns of L by the pivot row. Returns the
// flag and the updates.
pub fn eliminate(
    k: usize,
    l_subs: &[usize],
    l_starts: &[usize],
    l_slots: &[usize],
    u_subs: &[usize],
    u_starts: &[usize],
    u_slots: &[usize],
    l: &mut [f64],
    u: &mut [f64],
    d: &mut [f64],
    x: &mut [f64],
    copy: &mut [f64],
    dense: &mut [f64],
) -> FlagCount
    requires { ElimAsks k (plan_stores l_subs.now l_starts.now l_slots.now u_subs.now u_starts.now u_slots.now)
        (square_stores l.old u.old d.old x.old) copy.old dense.old × Clear dense.old }
    ensures { Clear dense.new × ((w : ElimAsks k
        (plan_stores l_subs.now l_starts.now l_slots.now u_subs.now u_starts.now u_slots.now)
        (square_stores l.old u.old d.old x.old) copy.old dense.old)
        → ElimLeaves k _ _ _ _ (square_stores l.new u.new d.new x.new) result.flag result.count w) }
{
    let column = list_place(l_starts, l_slots, k);
    let l_from = column.from.0;
    let l_to = column.to.0;
    let l_slot = column.slot.0;
    let l_next = column.next.0;
    let rows = &l_subs[l_from..l_to];
    let row = list_place(u_starts, u_slots, k);
    let u_from = row.from.0;
    let u_to = row.to.0;
    let u_slot = row.slot.0;
    let u_next = row.next.0;
    let columns = &u_subs[u_from..u_to];
    let made = reduce_column(
        &mut l[l_slot..l_next],
        rows,
        columns,
        &u[u_slot..u_next],
        d,
        x,
        k,
    );
    let upper = reduce_side(
        u,
        u_subs,
        u_starts,
        u_slots,
        rows,
        &l[l_slot..l_next],
        copy,
        dense,
        k,
        made.flag,
    );
    let bad = reduce_side(
        l,
        l_subs,
        l_starts,
        l_slots,
        columns,
        &u[u_slot..u_next],
        copy,
        dense,
        k,
        upper,
    );
    FlagCount {
        flag: bad,
        count: made.count,
    }
}
