// One step of the report's algorithm, for both sides: 2.1 to 2.5 in their order.
ghost use Rattle.std.specs.Prelude.{◌≡◌, suc, ◌-◌, length, get_or};
ghost use Rattle.foundation.specs.Pattern.{pattern_of};
ghost use Rattle.foundation.specs.Plan.{lower, upper, after_test};
ghost use Rattle.answers.specs.Stores.{side_stores};
ghost use Rattle.plan_gather.specs.Ready.{lent_by};
ghost use Rattle.plan_gather.specs.Steps.{SideAt, ChainsOf, ChainsAt, EndsAre, chain_stores};
ghost use Rattle.plan_lists.specs.Lying.{ListsAt, ListsWhole};

use answers::SubscriptPlace;
use plan_collect::collect_steps;
use plan_lists::{Lists, begin_lists};
use plan_rows::obtain_rows;
use plan_sets::update_sets;

// Report, 2.3: "If S_k = ∅, then go to Step (2.5). (Step k is not influenced by any previous steps.)" Else 2.4 comes next.
fn collect_influence(
    rows: Lists,
    n: usize,
    k: usize,
    row: usize,
    row_links: &[usize],
    set: usize,
    set_links: &[usize],
    starts: &[usize],
    columns: &[usize],
    l_subs: &[usize],
    l_starts: &[usize],
    l_slots: &[usize],
    u_subs: &[usize],
    u_starts: &[usize],
    u_slots: &[usize],
    l_end: SubscriptPlace,
    u_end: SubscriptPlace,
    l_growing: &mut [usize],
    u_growing: &mut [usize],
) -> Lists
    requires side_at { SideAt (lent_by n starts.now columns.now) lower n k (side_stores l_subs.now l_starts.now l_slots.now) l_end.0
        × SideAt (lent_by n starts.now columns.now) upper n k (side_stores u_subs.now u_starts.now u_slots.now) u_end.0 }
    requires chains_of { ChainsOf (lent_by n starts.now columns.now) k row row_links.now set set_links.now × (length set_links.now ≡ suc (lent_by n starts.now columns.now).height) }
    requires lists_at { ListsAt rows (lent_by n starts.now columns.now) k row (after_test (pattern_of (lent_by n starts.now columns.now)) k) k l_growing.old u_growing.old }
    ensures { ListsWhole result (lent_by n starts.now columns.now) k row l_growing.new u_growing.new }
{
    // (2.3)
    if set == 0 {
        return rows;
    }
    // (2.4)
    collect_steps(
        rows, n, k, row, row_links, set, set_links, starts, columns, l_subs, l_starts, l_slots,
        u_subs, u_starts, u_slots, l_end, u_end, l_growing, u_growing,
    )
}

// Step k of the report's algorithm: L_k and U_k, and where they lie; `row` is the first row that is met. They are laid into their stores afterwards (3.1).
pub fn step_lists(
    n: usize,
    k: usize,
    row: usize,
    starts: &[usize],
    columns: &[usize],
    row_heads: &mut [usize],
    row_links: &[usize],
    set_heads: &mut [usize],
    set_links: &mut [usize],
    l_subs: &[usize],
    l_starts: &[usize],
    l_slots: &[usize],
    u_subs: &[usize],
    u_starts: &[usize],
    u_slots: &[usize],
    l_end: SubscriptPlace,
    u_end: SubscriptPlace,
    reads: usize,
    l_growing: &mut [usize],
    u_growing: &mut [usize],
) -> Lists
    requires side_at { SideAt (lent_by n starts.now columns.now) lower n k (side_stores l_subs.now l_starts.now l_slots.now) l_end.0
        × SideAt (lent_by n starts.now columns.now) upper n k (side_stores u_subs.now u_starts.now u_slots.now) u_end.0 }
    requires chains_at { ChainsAt (lent_by n starts.now columns.now) n (k - 1) (chain_stores row_heads.old row_links.now set_heads.old set_links.old)
        × (row ≡ get_or row_heads.old k 0) }
    requires ends_are { EndsAre (lent_by n starts.now columns.now) (k - 1) l_end.0 u_end.0 reads }
    requires l_growing_len { (length l_growing.old ≡ (lent_by n starts.now columns.now).height) × (length u_growing.old ≡ (lent_by n starts.now columns.now).height) }
    ensures lists { ListsWhole result (lent_by n starts.now columns.now) k row l_growing.new u_growing.new }
    ensures chains { ChainsAt (lent_by n starts.now columns.now) n k
        (chain_stores row_heads.new row_links.now set_heads.new set_links.new) }
{
    let set = set_heads[k];
    // (2.1)
    let empty = begin_lists(reads);
    // (2.2)
    let obtained = obtain_rows(
        empty, n, k, row, row_heads, row_links, starts, columns, l_growing, u_growing,
    );
    // (2.3) and (2.4)
    let lists = collect_influence(
        obtained, n, k, row, row_links, set, set_links, starts, columns, l_subs, l_starts, l_slots,
        u_subs, u_starts, u_slots, l_end, u_end, l_growing, u_growing,
    );
    let l_lies = lists.lower;
    let u_lies = lists.upper;
    // (2.5)
    update_sets(
        n, k, row, l_lies, u_lies, starts, columns, l_subs, l_starts, l_slots, u_subs, u_starts,
        u_slots, l_end, u_end, l_growing, u_growing, set_heads, set_links,
    );
    lists
}
