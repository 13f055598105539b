// Where the lists of a side lie: among its subscripts, and among its value slots.
#![tactic(auto)]

ghost use Rattle.store_place.specs.Places.{ListAsks, ListAt};

use answers::{SlotPlace, SubscriptPlace};

// Where a list lies: its subscripts from `from` to before `to`, its slots from `slot` to before `next`, where the next list's begin.
#[derive(Clone, Copy)]
pub struct ListPlace {
    pub from: SubscriptPlace,
    pub to: SubscriptPlace,
    pub slot: SlotPlace,
    pub next: SlotPlace,
}

// Where list k of a side lies; it has as many subscripts as slots.
pub fn list_place(starts: &[usize], slots: &[usize], k: usize) -> ListPlace
    requires { ListAsks starts.now slots.now k }
    ensures { ListAt starts.now slots.now k result.from.0 result.to.0 result.slot.0 result.next.0 }
{
    let slot = slots[k - 1];
    let next = slots[k];
    let from = starts[k - 1];
    let to = from + (next - slot);
    ListPlace {
        from: SubscriptPlace(from),
        to: SubscriptPlace(to),
        slot: SlotPlace(slot),
        next: SlotPlace(next),
    }
}
