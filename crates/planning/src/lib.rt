// Planning: the storage slots of an elimination with row interchanges, counted from the pattern alone (report CS-84-43).
//
// `plan` makes the plan of a pattern in stores that the caller lends, or refuses; `verify` says whether a lent plan is this pattern's. What
// they promise is in specs/Calls.antt. Both take any input: whatever stands in the stores at entry.
#![tactic(auto)]

ghost use Rattle.foundation.specs.Pattern.{lent};
ghost use Rattle.answers.specs.Stores.{plan_stores, lent_plan, work_stores};
ghost use Rattle.planning.specs.Calls.{PlanKept, VerifyKept};

use answers::{PlanAnswer, PlanCounts, VerifyAnswer};
use plan_call::judge_and_plan;
use store_lists::{clear_side, clear_work};
use verify_call::judge_and_verify;

// The plan of a pattern of n columns and `height` rows, `most` being the largest n that is taken. Result stores: for each side the subscripts (any length), n
// starts of lists, n+1 starts of value slots. Work stores: four with one place more than there are rows, two with a place for each row.
pub fn plan(
    most: usize,
    n: usize,
    height: usize,
    starts: &[usize],
    columns: &[usize],
    l_subs: &mut [usize],
    l_starts: &mut [usize],
    l_slots: &mut [usize],
    u_subs: &mut [usize],
    u_starts: &mut [usize],
    u_slots: &mut [usize],
    row_heads: &mut [usize],
    row_links: &mut [usize],
    set_heads: &mut [usize],
    set_links: &mut [usize],
    list: &mut [usize],
    spare: &mut [usize],
) -> PlanAnswer
    ensures { PlanKept result most (lent n height starts.now columns.now)
        (plan_stores l_subs.old l_starts.old l_slots.old
        u_subs.old u_starts.old u_slots.old)
        (plan_stores l_subs.new l_starts.new l_slots.new
        u_subs.new u_starts.new u_slots.new)
        (work_stores row_heads.old row_links.old set_heads.old set_links.old
        list.old spare.old)
        (work_stores row_heads.new row_links.new set_heads.new set_links.new
        list.new spare.new) }
{
    let answer = judge_and_plan(
        most, n, height, starts, columns, l_subs, l_starts, l_slots, u_subs, u_starts, u_slots,
        row_heads, row_links, set_heads, set_links, list, spare,
    );
    clear_work(row_heads, row_links, set_heads, set_links, list, spare);
    if let PlanAnswer::Refused(refusal) = answer {
        clear_side(l_subs, l_starts, l_slots);
        clear_side(u_subs, u_starts, u_slots);
        return PlanAnswer::Refused(refusal);
    }
    answer
}

// Whether a lent plan, its counts and its stores, is the plan of this pattern: it agrees, or one of the refusals 1 to 6, 9 or 25. The work stores
// are those of `plan`.
pub fn verify(
    most: usize,
    n: usize,
    height: usize,
    starts: &[usize],
    columns: &[usize],
    counts: PlanCounts,
    l_subs: &[usize],
    l_starts: &[usize],
    l_slots: &[usize],
    u_subs: &[usize],
    u_starts: &[usize],
    u_slots: &[usize],
    row_heads: &mut [usize],
    row_links: &mut [usize],
    set_heads: &mut [usize],
    set_links: &mut [usize],
    list: &mut [usize],
    spare: &mut [usize],
) -> VerifyAnswer
    ensures { VerifyKept result most (lent n height starts.now columns.now)
        (lent_plan counts
        (plan_stores l_subs.now l_starts.now l_slots.now
        u_subs.now u_starts.now u_slots.now))
        (work_stores row_heads.old row_links.old set_heads.old set_links.old
        list.old spare.old)
        (work_stores row_heads.new row_links.new set_heads.new set_links.new
        list.new spare.new) }
{
    let answer = judge_and_verify(
        most, n, height, starts, columns, counts, l_subs, l_starts, l_slots, u_subs, u_starts,
        u_slots, row_heads, row_links, set_heads, set_links, list, spare,
    );
    clear_work(row_heads, row_links, set_heads, set_links, list, spare);
    answer
}
