// A lent plan compared with this pattern's plan, step by step: the plan is made again in work stores alone, its lists looked for in the lent
// stores.
ghost use Rattle.std.specs.Prelude.{◌≡◌, suc, ◌-◌, length};
ghost use Rattle.answers.specs.Stores.{plan_stores};
ghost use Rattle.plan_gather.specs.Ready.{lent_by, Ready};
ghost use Rattle.plan_gather.specs.Steps.{StepOf, ChainsAt, EndsAre, chain_stores};
ghost use Rattle.verify_loop.specs.Progress.{BothContain, StepCompared, AllCompared};

use answers::SubscriptPlace;
use plan_turn::step_lists;
use verify_sides::{Verified, find_lower, find_upper};

// What steps compared so far come to: where both sides' used subscripts end and the reads, or that the lent plan differs.
#[derive(Clone, Copy)]
pub enum Compared {
    Agrees(SubscriptPlace, SubscriptPlace, usize),
    Differs,
}

// Step k of verifying a lent plan: its lists by the report's 2.1 to 2.5, and whether they stand in their stores, L first.
fn verify_step(
    n: usize,
    k: usize,
    starts: &[usize],
    columns: &[usize],
    row_heads: &mut [usize],
    row_links: &[usize],
    set_heads: &mut [usize],
    set_links: &mut [usize],
    l_subs: &[usize],
    l_starts: &[usize],
    l_slots: &[usize],
    u_subs: &[usize],
    u_starts: &[usize],
    u_slots: &[usize],
    list: &mut [usize],
    spare: &mut [usize],
    l_end: SubscriptPlace,
    u_end: SubscriptPlace,
    reads: usize,
) -> Compared
    requires step_of { StepOf (lent_by n starts.now columns.now) n k
        × ChainsAt (lent_by n starts.now columns.now) n (k - 1) (chain_stores row_heads.old row_links.now set_heads.old set_links.old) }
    requires both_contain { BothContain (lent_by n starts.now columns.now) n (k - 1)
        (plan_stores l_subs.now l_starts.now l_slots.now u_subs.now u_starts.now u_slots.now) }
    requires ends_are { EndsAre (lent_by n starts.now columns.now) (k - 1) l_end.0 u_end.0 reads }
    requires list_len { (length list.old ≡ (lent_by n starts.now columns.now).height) × (length spare.old ≡ (lent_by n starts.now columns.now).height) }
    ensures { StepCompared result (lent_by n starts.now columns.now) n k
        (chain_stores row_heads.new row_links.now set_heads.new set_links.new)
        (plan_stores l_subs.now l_starts.now l_slots.now
        u_subs.now u_starts.now u_slots.now) }
{
    let row = row_heads[k];
    let lists = step_lists(
        n, k, row, starts, columns, row_heads, row_links, set_heads, set_links, l_subs, l_starts,
        l_slots, u_subs, u_starts, u_slots, l_end, u_end, reads, list, spare,
    );
    let l_lies = lists.lower;
    let u_lies = lists.upper;
    let lowers = find_lower(n, k, row, l_lies, list, l_subs, l_starts, l_slots, l_end);
    let Verified::End(l_next) = lowers else {
        return Compared::Differs;
    };
    let uppers = find_upper(
        n, k, row, u_lies, starts, columns, spare, u_subs, u_starts, u_slots, u_end,
    );
    let Verified::End(u_next) = uppers else {
        return Compared::Differs;
    };
    Compared::Agrees(l_next, u_next, lists.reads)
}

// Steps 1 to n. The starts of the first slots are looked at before the first step.
pub fn verify_steps(
    n: usize,
    starts: &[usize],
    columns: &[usize],
    row_heads: &mut [usize],
    row_links: &[usize],
    set_heads: &mut [usize],
    set_links: &mut [usize],
    l_subs: &[usize],
    l_starts: &[usize],
    l_slots: &[usize],
    u_subs: &[usize],
    u_starts: &[usize],
    u_slots: &[usize],
    list: &mut [usize],
    spare: &mut [usize],
) -> Compared
    requires ready { Ready (lent_by n starts.now columns.now)
        × ChainsAt (lent_by n starts.now columns.now) n 0 (chain_stores row_heads.old row_links.now set_heads.old set_links.old) }
    requires l_starts_len { (length l_starts.now ≡ n) × (length l_slots.now ≡ suc n) × (length u_starts.now ≡ n)
        × (length u_slots.now ≡ suc n) × (length list.old ≡ (lent_by n starts.now columns.now).height) × (length spare.old ≡ (lent_by n starts.now columns.now).height) }
    ensures { AllCompared result (lent_by n starts.now columns.now) n
        (plan_stores l_subs.now l_starts.now l_slots.now
        u_subs.now u_starts.now u_slots.now) }
{
    if l_slots[0] != 0 {
        return Compared::Differs;
    }
    if u_slots[0] != 0 {
        return Compared::Differs;
    }
    let mut l_end = SubscriptPlace(0);
    let mut u_end = SubscriptPlace(0);
    let mut reads = columns.len();
    let mut k = 1;
    while k <= n {
        let turned = verify_step(
            n, k, starts, columns, row_heads, row_links, set_heads, set_links, l_subs, l_starts,
            l_slots, u_subs, u_starts, u_slots, list, spare, l_end, u_end, reads,
        );
        match turned {
            Compared::Differs => {
                return Compared::Differs;
            }
            Compared::Agrees(l_next, u_next, more) => {
                l_end = l_next;
                u_end = u_next;
                reads = more;
                k += 1;
            }
        }
    }
    Compared::Agrees(l_end, u_end, reads)
}
