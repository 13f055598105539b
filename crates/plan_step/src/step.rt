// One step of planning: its lists by the report's 2.1 to 2.5, and how they are laid into their stores (3.1), L first.
ghost use Rattle.std.specs.Prelude.{◌≡◌, ◌-◌, length};
ghost use Rattle.answers.specs.Stores.{plan_stores};
ghost use Rattle.plan_gather.specs.Ready.{lent_by};
ghost use Rattle.plan_gather.specs.Steps.{StepOf, ChainsAt, EndsAre, chain_stores};
ghost use Rattle.plan_lay.specs.Filled.{BothFilled};
ghost use Rattle.plan_step.specs.Stepping.{TurnedAs};

use answers::SubscriptPlace;
use plan_lay::{lay_lower, lay_upper};
use plan_share::Placed;
use plan_turn::step_lists;

// How a step ends: on to the next with where both stores end and the reads so far, or with the first side that is full.
#[derive(Clone, Copy)]
pub enum Turned {
    On(SubscriptPlace, SubscriptPlace, usize),
    LowerFull,
    UpperFull,
}

// Step k of planning.
pub fn plan_step(
    n: usize,
    k: usize,
    starts: &[usize],
    columns: &[usize],
    row_heads: &mut [usize],
    row_links: &[usize],
    set_heads: &mut [usize],
    set_links: &mut [usize],
    l_subs: &mut [usize],
    l_starts: &mut [usize],
    l_slots: &mut [usize],
    u_subs: &mut [usize],
    u_starts: &mut [usize],
    u_slots: &mut [usize],
    list: &mut [usize],
    spare: &mut [usize],
    l_end: SubscriptPlace,
    u_end: SubscriptPlace,
    reads: usize,
) -> Turned
    requires step_of { StepOf (lent_by n starts.now columns.now) n k
        × ChainsAt (lent_by n starts.now columns.now) n (k - 1) (chain_stores row_heads.old row_links.now set_heads.old set_links.old) }
    requires both_filled { BothFilled (lent_by n starts.now columns.now) n (k - 1) (length l_subs.old) (length u_subs.old)
        (plan_stores l_subs.old l_starts.old l_slots.old
        u_subs.old u_starts.old u_slots.old) }
    requires ends_are { EndsAre (lent_by n starts.now columns.now) (k - 1) l_end.0 u_end.0 reads }
    requires list_len { (length list.old ≡ (lent_by n starts.now columns.now).height) × (length spare.old ≡ (lent_by n starts.now columns.now).height) }
    ensures { TurnedAs result (lent_by n starts.now columns.now) n k (length l_subs.old) (length u_subs.old)
        (chain_stores row_heads.new row_links.now set_heads.new set_links.new)
        (plan_stores l_subs.new l_starts.new l_slots.new
        u_subs.new u_starts.new u_slots.new) }
{
    let row = row_heads[k];
    let lists = step_lists(
        n, k, row, starts, columns, row_heads, row_links, set_heads, set_links, l_subs, l_starts,
        l_slots, u_subs, u_starts, u_slots, l_end, u_end, reads, list, spare,
    );
    let l_lies = lists.lower;
    let u_lies = lists.upper;
    let lowers = lay_lower(n, k, row, l_lies, list, l_subs, l_starts, l_slots, l_end);
    let Placed::End(l_next) = lowers else {
        return Turned::LowerFull;
    };
    let uppers = lay_upper(
        n, k, row, u_lies, starts, columns, spare, u_subs, u_starts, u_slots, u_end,
    );
    let Placed::End(u_next) = uppers else {
        return Turned::UpperFull;
    };
    Turned::On(l_next, u_next, lists.reads)
}
