// The kept list of a step, or what it adds to its side's store, looked for where the plan has it.
ghost use Rattle.foundation.specs.Pattern.{Lent};
ghost use Rattle.foundation.specs.Plan.{Side};
ghost use Rattle.answers.specs.Stores.{side_stores};
ghost use Rattle.plan_share.specs.Adding.{NewList, Writable};
ghost use Rattle.verify_sides.specs.Verifying.{FoundAs, VerifiedAs};

use answers::SubscriptPlace;
use plan_share::{shared_end, stands_at};

// Where the used part of a store ends once a list is found in it, or that it is another list.
#[derive(Clone, Copy)]
pub enum Verified {
    End(SubscriptPlace),
    Differs,
}

// The rest of the kept list of step k, its start and the end of its slots are looked for where the plan has them.
pub fn verify_rest(
    k: usize,
    shared: usize,
    rest: &[usize],
    subs: &[usize],
    starts: &[usize],
    slots: &[usize],
    end: SubscriptPlace,
) -> Verified
    requires { Writable k shared rest.now (side_stores subs.now starts.now slots.now) end.0 }
    ensures { FoundAs result k shared rest.now (side_stores subs.now starts.now slots.now) end.0 }
{
    let at = end.0;
    let more = rest.len();
    if starts[k - 1] != at - shared {
        return Verified::Differs;
    }
    if slots[k] != slots[k - 1] + (shared + more) {
        return Verified::Differs;
    }
    if !stands_at(rest, subs, SubscriptPlace(at)) {
        return Verified::Differs;
    }
    Verified::End(SubscriptPlace(at + more))
}

// The kept list of step k, its start and the end of its slots are looked for where the plan has them.
pub fn verify_list(
    n: usize,
    k: usize,
    new: &[usize],
    subs: &[usize],
    starts: &[usize],
    slots: &[usize],
    end: SubscriptPlace,
) -> Verified
    requires { (p : Lent) × (side : Side) × NewList p side n k new.now (side_stores subs.now starts.now slots.now) end.0 }
    ensures { (p : Lent) (side : Side)
        → NewList p side n k new.now (side_stores subs.now starts.now slots.now) end.0
        → VerifiedAs result p side n k (side_stores subs.now starts.now slots.now) }
{
    let shared = shared_end(new, subs, end);
    verify_rest(k, shared, &new[shared..], subs, starts, slots, end)
}
