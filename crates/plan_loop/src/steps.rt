// The steps of planning one after the other, until all are done or a subscript does not fit.
ghost use Rattle.std.specs.Prelude.{◌≡◌, length};
ghost use Rattle.answers.specs.Stores.{plan_stores};
ghost use Rattle.plan_gather.specs.Ready.{lent_by, Ready};
ghost use Rattle.plan_gather.specs.Steps.{ChainsAt, chain_stores};
ghost use Rattle.plan_lay.specs.Filled.{BothFilled};
ghost use Rattle.plan_loop.specs.Progress.{EndedAs};

use answers::SubscriptPlace;
use plan_step::{Turned, plan_step};

// How planning ends: where both stores end and the reads, or the step at which an L or a U subscript does not fit.
#[derive(Clone, Copy)]
pub enum Ended {
    All(SubscriptPlace, SubscriptPlace, usize),
    LowerAt(usize),
    UpperAt(usize),
}

// Steps 1 to n.
pub fn plan_steps(
    n: usize,
    starts: &[usize],
    columns: &[usize],
    row_heads: &mut [usize],
    row_links: &[usize],
    set_heads: &mut [usize],
    set_links: &mut [usize],
    l_subs: &mut [usize],
    l_starts: &mut [usize],
    l_slots: &mut [usize],
    u_subs: &mut [usize],
    u_starts: &mut [usize],
    u_slots: &mut [usize],
    list: &mut [usize],
    spare: &mut [usize],
) -> Ended
    requires ready { Ready (lent_by n starts.now columns.now)
        × ChainsAt (lent_by n starts.now columns.now) n 0 (chain_stores row_heads.old row_links.now set_heads.old set_links.old) }
    requires both_filled { BothFilled (lent_by n starts.now columns.now) n 0 (length l_subs.old) (length u_subs.old)
        (plan_stores l_subs.old l_starts.old l_slots.old u_subs.old u_starts.old u_slots.old) }
    requires list_len { (length list.old ≡ (lent_by n starts.now columns.now).height) × (length spare.old ≡ (lent_by n starts.now columns.now).height) }
    ensures { EndedAs result (lent_by n starts.now columns.now) n (length l_subs.old) (length u_subs.old)
        (plan_stores l_subs.new l_starts.new l_slots.new
        u_subs.new u_starts.new u_slots.new) }
{
    let mut l_end = SubscriptPlace(0);
    let mut u_end = SubscriptPlace(0);
    let mut reads = columns.len();
    let mut k = 1;
    while k <= n {
        let turned = plan_step(
            n, k, starts, columns, row_heads, row_links, set_heads, set_links, l_subs, l_starts,
            l_slots, u_subs, u_starts, u_slots, list, spare, l_end, u_end, reads,
        );
        match turned {
            Turned::LowerFull => {
                return Ended::LowerAt(k);
            }
            Turned::UpperFull => {
                return Ended::UpperAt(k);
            }
            Turned::On(l_next, u_next, more) => {
                l_end = l_next;
                u_end = u_next;
                reads = more;
                k += 1;
            }
        }
    }
    Ended::All(l_end, u_end, reads)
}
