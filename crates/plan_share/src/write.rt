// A list is written into the stores of a side: the rest of its subscripts, its start and the end of its value slots.
ghost use Rattle.std.specs.Prelude.{◌≡◌, ◌-◌, set};
ghost use Rattle.answers.specs.Stores.{side_stores};
ghost use Rattle.plan_share.specs.Adding.{Writable, Written};
ghost use Rattle.plan_share.specs.Sole.{SoleReady, sole_start, sole_slots};

use answers::SubscriptPlace;
use store_lists::append;
use store_place::list_place;

// Where a store ends once a list is in it, or that it is too short for the list.
#[derive(Clone, Copy)]
pub enum Placed {
    End(SubscriptPlace),
    Short,
}

// The rest of the list of step k is added at the store's end; its start and the end of its slots are noted.
pub fn write_rest(
    k: usize,
    shared: usize,
    rest: &[usize],
    subs: &mut [usize],
    starts: &mut [usize],
    slots: &mut [usize],
    end: SubscriptPlace,
) -> Placed
    requires { Writable k shared rest.now (side_stores subs.old starts.old slots.old) end.0 }
    ensures { Written result k shared rest.now (side_stores subs.old starts.old slots.old)
        (side_stores subs.new starts.new slots.new) end.0 }
{
    let at = end.0;
    let more = rest.len();
    let count = shared + more;
    if subs.len() - at < more {
        return Placed::Short;
    }
    let next = append(rest, subs, at);
    starts[k - 1] = at - shared;
    slots[k] = slots[k - 1] + count;
    Placed::End(SubscriptPlace(next))
}

// Step k shares the list of the one step l that was handed on to it: l's list without its first subscript, which is k.
pub fn follow_sole(
    k: usize,
    l: usize,
    starts: &mut [usize],
    slots: &mut [usize],
    end: SubscriptPlace,
)
    requires { SoleReady k l starts.old slots.old }
    ensures { (starts.new ≡ set starts.old (k - 1) (sole_start l starts.old slots.old end.0))
        × (slots.new ≡ set slots.old k (sole_slots k l slots.old)) }
{
    let sole = list_place(starts, slots, l);
    let count = sole.next.0 - sole.slot.0 - 1;
    slots[k] = slots[k - 1] + count;
    if count == 0 {
        starts[k - 1] = end.0;
        return;
    }
    starts[k - 1] = sole.from.0 + 1;
}
