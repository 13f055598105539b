// Planning from the judgement to the answer: refusals 1 to 6 and 25, then the steps.
ghost use Rattle.std.specs.Prelude.{◌≡◌, length};
ghost use Rattle.foundation.specs.Pattern.{lent};
ghost use Rattle.foundation.specs.PlanCall.{planned, plan_answer};
ghost use Rattle.answers.specs.Answers.{counted, counts_in, answer_of};
ghost use Rattle.answers.specs.Stores.{plan_stores, work_sizes, work_stores};
ghost use Rattle.plan_call.specs.Outcome.{ended_answer, PlannedAs};

use answers::{PlanAnswer, PlanCounts, Refusal};
use plan_gather::chain_rows;
use plan_loop::{Ended, plan_steps};
use plan_pattern::{lengths_fit, pattern_fault, refusal_of};
use store_lists::{clear_chains, clear_side};

// The counts of a plan that was made.
fn counts_of(
    n: usize,
    height: usize,
    entries: usize,
    l_subscripts: usize,
    u_subscripts: usize,
    l_slots: usize,
    u_slots: usize,
    reads: usize,
) -> PlanCounts
    ensures { counts_in result ≡ counted n height entries l_subscripts u_subscripts l_slots u_slots reads }
{
    PlanCounts {
        n,
        height,
        entries,
        l_subscripts,
        u_subscripts,
        l_slots,
        u_slots,
        reads,
    }
}

// What the steps' ending says, with the ends of both sides' slots.
fn answer_of(
    n: usize,
    height: usize,
    entries: usize,
    ended: Ended,
    l_slots: usize,
    u_slots: usize,
) -> PlanAnswer
    ensures { answer_of result ≡ ended_answer ended n height entries l_slots u_slots }
{
    match ended {
        Ended::LowerAt(k) => PlanAnswer::Refused(Refusal::LowerRoom(k)),
        Ended::UpperAt(k) => PlanAnswer::Refused(Refusal::UpperRoom(k)),
        Ended::All(l_end, u_end, reads) => {
            PlanAnswer::Planned(counts_of(
                n, height, entries, l_end.0, u_end.0, l_slots, u_slots, reads,
            ))
        }
    }
}

// The plan of a pattern that passes, in stores that are cleared first. The work stores are left as they are, and so are the stores of a plan
// that was refused: who calls it clears them.
pub fn judge_and_plan(
    most: usize,
    n: usize,
    height: usize,
    starts: &[usize],
    columns: &[usize],
    l_subs: &mut [usize],
    l_starts: &mut [usize],
    l_slots: &mut [usize],
    u_subs: &mut [usize],
    u_starts: &mut [usize],
    u_slots: &mut [usize],
    row_heads: &mut [usize],
    row_links: &mut [usize],
    set_heads: &mut [usize],
    set_links: &mut [usize],
    list: &mut [usize],
    spare: &mut [usize],
) -> PlanAnswer
    ensures answer { answer_of result ≡ plan_answer (lent n height starts.now columns.now)
        (planned most (lent n height starts.now columns.now)
        (plan_stores l_subs.old l_starts.old l_slots.old
        u_subs.old u_starts.old u_slots.old)
        (work_sizes (work_stores row_heads.old row_links.old set_heads.old
        set_links.old list.old spare.old))) }
    ensures stores { PlannedAs result (lent n height starts.now columns.now) n
        (length l_subs.old) (length u_subs.old)
        (plan_stores l_subs.new l_starts.new l_slots.new u_subs.new u_starts.new u_slots.new) }
{
    let fault = pattern_fault(most, n, height, starts, columns);
    if fault != 0 {
        return PlanAnswer::Refused(refusal_of(fault));
    }
    if !lengths_fit(
        n,
        height,
        l_starts.len(),
        l_slots.len(),
        u_starts.len(),
        u_slots.len(),
        row_heads.len(),
        row_links.len(),
        set_heads.len(),
        set_links.len(),
        list.len(),
        spare.len(),
    ) {
        return PlanAnswer::Refused(Refusal::Stores);
    }
    clear_side(l_subs, l_starts, l_slots);
    clear_side(u_subs, u_starts, u_slots);
    chain_rows(n, starts, columns, row_heads, row_links);
    clear_chains(set_heads, set_links);
    let ended = plan_steps(
        n, starts, columns, row_heads, row_links, set_heads, set_links, l_subs, l_starts, l_slots,
        u_subs, u_starts, u_slots, list, spare,
    );
    let l_last = l_slots[n];
    let u_last = u_slots[n];
    answer_of(n, height, columns.len(), ended, l_last, u_last)
}
