// The lists of step k are laid into the stores of their sides: shared subscripts (report, section 3.1) and the starts of their value slots. What stands there already is not written.
ghost use Rattle.std.specs.Prelude.{◌-◌, length};
ghost use Rattle.foundation.specs.Pattern.{Lent};
ghost use Rattle.foundation.specs.Plan.{Side, lower, upper};
ghost use Rattle.answers.specs.Stores.{side_stores};
ghost use Rattle.plan_gather.specs.Ready.{lent_by, plan_of};
ghost use Rattle.plan_share.specs.Adding.{NewList};
ghost use Rattle.plan_lay.specs.Placing.{Layable, PlacedAs};
ghost use Rattle.plan_lay.specs.Filled.{Filled};

use answers::SubscriptPlace;
use plan_gather::after_first;
use plan_lists::Lies;
use plan_share::{Placed, follow_sole, shared_end, write_rest};

// The kept list of step k is put into its side's stores.
fn place(
    n: usize,
    k: usize,
    new: &[usize],
    subs: &mut [usize],
    starts: &mut [usize],
    slots: &mut [usize],
    end: SubscriptPlace,
) -> Placed
    requires { (p : Lent) × (side : Side) × NewList p side n k new.now (side_stores subs.old starts.old slots.old) end.0 }
    ensures { (p : Lent) (side : Side)
        → NewList p side n k new.now (side_stores subs.old starts.old slots.old) end.0
        → Filled (plan_of p) side n (k - 1) (length subs.old) (side_stores subs.old starts.old slots.old)
        → PlacedAs result p side n k (length subs.old) (side_stores subs.new starts.new slots.new) }
{
    let shared = shared_end(new, subs, end);
    write_rest(k, shared, &new[shared..], subs, starts, slots, end)
}

// The list of L_k is laid into its side's stores. What stands behind the list of step k-1 is the row itself, or nothing; each has a call of its own, so that no store of unknown length is copied.
pub fn lay_lower(
    n: usize,
    k: usize,
    row: usize,
    lies: Lies,
    growing: &[usize],
    subs: &mut [usize],
    list_starts: &mut [usize],
    slots: &mut [usize],
    end: SubscriptPlace,
) -> Placed
    requires { (p : Lent) × Layable lies p lower n k row growing.now (length subs.old) (side_stores subs.old list_starts.old slots.old) end.0 }
    ensures { (p : Lent)
        → Layable lies p lower n k row growing.now (length subs.old) (side_stores subs.old list_starts.old slots.old) end.0
        → PlacedAs result p lower n k (length subs.old) (side_stores subs.new list_starts.new slots.new) }
{
    let own = [row];
    match lies {
        Lies::Sole(l) => {
            follow_sole(k, l, list_starts, slots, end);
            Placed::End(end)
        }
        Lies::Behind(shared, from) => {
            if from == 0 {
                return write_rest(k, shared, &own, subs, list_starts, slots, end);
            }
            write_rest(k, shared, &own[1..], subs, list_starts, slots, end)
        }
        Lies::Row => place(n, k, after_first(k, &own), subs, list_starts, slots, end),
        Lies::Grown(count) => place(n, k, &growing[0..count], subs, list_starts, slots, end),
    }
}

// The list of U_k is laid into its side's stores.
pub fn lay_upper(
    n: usize,
    k: usize,
    row: usize,
    lies: Lies,
    starts: &[usize],
    columns: &[usize],
    growing: &[usize],
    subs: &mut [usize],
    list_starts: &mut [usize],
    slots: &mut [usize],
    end: SubscriptPlace,
) -> Placed
    requires { Layable lies (lent_by n starts.now columns.now) upper n k row growing.now (length subs.old) (side_stores subs.old list_starts.old slots.old) end.0 }
    ensures { PlacedAs result (lent_by n starts.now columns.now) upper n k (length subs.old)
        (side_stores subs.new list_starts.new slots.new) }
{
    match lies {
        Lies::Sole(l) => {
            follow_sole(k, l, list_starts, slots, end);
            Placed::End(end)
        }
        Lies::Behind(shared, from) => {
            let first = starts[row - 1] + from;
            let to = starts[row];
            write_rest(
                k,
                shared,
                &columns[first..to],
                subs,
                list_starts,
                slots,
                end,
            )
        }
        Lies::Row => {
            let first = starts[row - 1];
            let to = starts[row];
            place(
                n,
                k,
                after_first(k, &columns[first..to]),
                subs,
                list_starts,
                slots,
                end,
            )
        }
        Lies::Grown(count) => place(n, k, &growing[0..count], subs, list_starts, slots, end),
    }
}
