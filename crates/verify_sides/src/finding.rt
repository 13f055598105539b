// The list of step k, wherever it lies, is looked for in the stores of its side of a lent plan.
ghost use Rattle.foundation.specs.Pattern.{Lent};
ghost use Rattle.foundation.specs.Plan.{lower, upper};
ghost use Rattle.answers.specs.Stores.{side_stores};
ghost use Rattle.plan_gather.specs.Ready.{lent_by};
ghost use Rattle.plan_gather.specs.Steps.{SideAt};
ghost use Rattle.plan_lists.specs.Lying.{WholeAt};
ghost use Rattle.verify_sides.specs.Verifying.{VerifiedAs};

use crate::kept_lists::{Verified, verify_list, verify_rest};
use answers::SubscriptPlace;
use plan_gather::after_first;
use plan_lists::Lies;
use plan_share::sole_followed;

// The list of L_k.
pub fn find_lower(
    n: usize,
    k: usize,
    row: usize,
    lies: Lies,
    growing: &[usize],
    subs: &[usize],
    list_starts: &[usize],
    slots: &[usize],
    end: SubscriptPlace,
) -> Verified
    requires { (p : Lent) × SideAt p lower n k (side_stores subs.now list_starts.now slots.now) end.0 × WholeAt lies p lower k row growing.now }
    ensures { (p : Lent) → SideAt p lower n k (side_stores subs.now list_starts.now slots.now) end.0
        → WholeAt lies p lower k row growing.now
        → VerifiedAs result p lower n k (side_stores subs.now list_starts.now slots.now) }
{
    let own = [row];
    match lies {
        Lies::Sole(l) => {
            if !sole_followed(k, l, list_starts, slots, end) {
                return Verified::Differs;
            }
            Verified::End(end)
        }
        Lies::Behind(shared, from) => {
            verify_rest(k, shared, &own[from..], subs, list_starts, slots, end)
        }
        Lies::Row => verify_list(n, k, after_first(k, &own), subs, list_starts, slots, end),
        Lies::Grown(count) => verify_list(n, k, &growing[0..count], subs, list_starts, slots, end),
    }
}

// The list of U_k.
pub fn find_upper(
    n: usize,
    k: usize,
    row: usize,
    lies: Lies,
    starts: &[usize],
    columns: &[usize],
    growing: &[usize],
    subs: &[usize],
    list_starts: &[usize],
    slots: &[usize],
    end: SubscriptPlace,
) -> Verified
    requires { SideAt (lent_by n starts.now columns.now) upper n k (side_stores subs.now list_starts.now slots.now) end.0
        × WholeAt lies (lent_by n starts.now columns.now) upper k row growing.now }
    ensures { VerifiedAs result (lent_by n starts.now columns.now) upper n k
        (side_stores subs.now list_starts.now slots.now) }
{
    match lies {
        Lies::Sole(l) => {
            if !sole_followed(k, l, list_starts, slots, end) {
                return Verified::Differs;
            }
            Verified::End(end)
        }
        Lies::Behind(shared, from) => {
            let first = starts[row - 1] + from;
            let to = starts[row];
            verify_rest(
                k,
                shared,
                &columns[first..to],
                subs,
                list_starts,
                slots,
                end,
            )
        }
        Lies::Row => {
            let first = starts[row - 1];
            let to = starts[row];
            verify_list(
                n,
                k,
                after_first(k, &columns[first..to]),
                subs,
                list_starts,
                slots,
                end,
            )
        }
        Lies::Grown(count) => verify_list(n, k, &growing[0..count], subs, list_starts, slots, end),
    }
}
