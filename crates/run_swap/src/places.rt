// Where a subscript's slot lies. Lists share their subscripts, so a place is often known from another list's; else it is searched for.
ghost use Rattle.std.specs.Prelude.{◌≡◌};
ghost use Rattle.lists.specs.Sets.{Ascending};
ghost use Rattle.answers.specs.Stores.{side_stores};
ghost use Rattle.store_search.specs.Places.{FirstFrom};
ghost use Rattle.run_slots.specs.Lists.{SlotAsks, SlotLeaves};

use answers::{SlotPlace, SubscriptPlace};
use store_place::list_place;
use store_search::place_of;

// The place that a cell of the subscripts has in a list that begins at `start`, if it lies there at all.
pub fn offset_from(cell: SubscriptPlace, start: SubscriptPlace) -> usize {
    if start.0 <= cell.0 {
        return cell.0 - start.0;
    }
    0
}

// The first place of an ascending list whose member is not below x: the guess if x stands there.
pub fn place_by(list: &[usize], guess: usize, x: usize) -> usize
    requires { Ascending 0 list.now }
    ensures { FirstFrom list.now x result }
{
    if guess < list.len() {
        if list[guess] == x {
            return guess;
        }
    }
    place_of(list, x)
}

// The slot of member x of list h in its side's store; `cell` is a cell of the subscripts that has x, perhaps of this list too.
pub fn slot_of(
    subs: &[usize],
    starts: &[usize],
    slots: &[usize],
    h: usize,
    x: usize,
    cell: SubscriptPlace,
) -> SlotPlace
    requires { SlotAsks (side_stores subs.now starts.now slots.now) h x }
    ensures { (w : SlotAsks (side_stores subs.now starts.now slots.now) h x) → SlotLeaves result.0 _ _ _ w }
{
    let list = list_place(starts, slots, h);
    let from = list.from.0;
    let to = list.to.0;
    let guess = offset_from(cell, list.from);
    let at = list.slot.0 + place_by(&subs[from..to], guess, x);
    SlotPlace(at)
}
