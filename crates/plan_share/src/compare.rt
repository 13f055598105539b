// Whether a list, or the place of a list, stands in a side's stores.
ghost use Rattle.std.specs.Prelude.{◌≡◌, ◌≤◌, length, take, drop};
ghost use Rattle.lists.specs.Functions.{same};
ghost use Rattle.plan_share.specs.Sole.{SoleReady, sole_followed};

use answers::SubscriptPlace;
use store_place::list_place;

// Whether a list stands in a store from a place on.
pub fn stands_at(list: &[usize], store: &[usize], at: SubscriptPlace) -> bool
    requires { at.0 ≤ length store.now }
    ensures { result ≡ same (take (length list.now) (drop at.0 store.now)) list.now }
{
    let from = at.0;
    if list.len() <= store.len() - from {
        let mut i = 0;
        while i < list.len() {
            if store[from + i] != list[i] {
                return false;
            }
            i += 1;
        }
        return true;
    }
    false
}

// Whether step k shares the list of the one step l that was handed on to it.
pub fn sole_followed(
    k: usize,
    l: usize,
    starts: &[usize],
    slots: &[usize],
    end: SubscriptPlace,
) -> bool
    requires { SoleReady k l starts.now slots.now }
    ensures { result ≡ sole_followed k l starts.now slots.now end.0 }
{
    let sole = list_place(starts, slots, l);
    let count = sole.next.0 - sole.slot.0 - 1;
    if slots[k] != slots[k - 1] + count {
        return false;
    }
    if count == 0 {
        return starts[k - 1] == end.0;
    }
    starts[k - 1] == sole.from.0 + 1
}
