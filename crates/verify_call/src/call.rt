// The answer about a lent plan: refusals 1 to 6 and 25, then the steps and the counts.
ghost use Rattle.std.specs.Prelude.{◌≡◌};
ghost use Rattle.foundation.specs.Pattern.{lent};
ghost use Rattle.foundation.specs.PlanCall.{held};
ghost use Rattle.answers.specs.Answers.{verify_answer_of, verify_answer};
ghost use Rattle.answers.specs.Stores.{lent_plan, plan_stores, work_sizes, work_stores};

use answers::{PlanCounts, Refusal, VerifyAnswer};
use plan_gather::chain_rows;
use plan_pattern::{lengths_fit, pattern_fault, refusal_of};
use store_lists::clear_chains;
use verify_counts::same_counts;
use verify_loop::{Compared, verify_steps};

// A lent plan of a pattern that passes, in work stores whose chains are cleared first. The work stores are left as they are: who calls it
// clears them.
pub fn judge_and_verify(
    most: usize,
    n: usize,
    height: usize,
    starts: &[usize],
    columns: &[usize],
    counts: PlanCounts,
    l_subs: &[usize],
    l_starts: &[usize],
    l_slots: &[usize],
    u_subs: &[usize],
    u_starts: &[usize],
    u_slots: &[usize],
    row_heads: &mut [usize],
    row_links: &mut [usize],
    set_heads: &mut [usize],
    set_links: &mut [usize],
    list: &mut [usize],
    spare: &mut [usize],
) -> VerifyAnswer
    ensures { verify_answer_of result ≡ verify_answer (held most (lent n height starts.now columns.now)
        (lent_plan counts
        (plan_stores l_subs.now l_starts.now l_slots.now
        u_subs.now u_starts.now u_slots.now))
        (work_sizes (work_stores row_heads.old row_links.old set_heads.old
        set_links.old list.old spare.old))) }
{
    let fault = pattern_fault(most, n, height, starts, columns);
    if fault != 0 {
        return VerifyAnswer::Refused(refusal_of(fault));
    }
    if !lengths_fit(
        n,
        height,
        l_starts.len(),
        l_slots.len(),
        u_starts.len(),
        u_slots.len(),
        row_heads.len(),
        row_links.len(),
        set_heads.len(),
        set_links.len(),
        list.len(),
        spare.len(),
    ) {
        return VerifyAnswer::Refused(Refusal::Stores);
    }
    chain_rows(n, starts, columns, row_heads, row_links);
    clear_chains(set_heads, set_links);
    let ended = verify_steps(
        n, starts, columns, row_heads, row_links, set_heads, set_links, l_subs, l_starts, l_slots,
        u_subs, u_starts, u_slots, list, spare,
    );
    let Compared::Agrees(l_end, u_end, reads) = ended else {
        return VerifyAnswer::Refused(Refusal::OtherPlan);
    };
    let l_last = l_slots[n];
    let u_last = u_slots[n];
    let made = PlanCounts {
        n,
        height,
        entries: columns.len(),
        l_subscripts: l_end.0,
        u_subscripts: u_end.0,
        l_slots: l_last,
        u_slots: u_last,
        reads,
    };
    if !same_counts(counts, made) {
        return VerifyAnswer::Refused(Refusal::OtherPlan);
    }
    VerifyAnswer::Agrees
}
