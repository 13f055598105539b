// Report, 2.5: the step at hand joins a set S.
ghost use Rattle.std.specs.Prelude.{cond, ◌≡◌, ◌-◌, ◌≤◌, ◌<◌, ltb, length, get_or};
ghost use Rattle.lists.specs.Functions.{span};
ghost use Rattle.lists.specs.Sets.{first};
ghost use Rattle.foundation.specs.Pattern.{Lent, pattern_of};
ghost use Rattle.foundation.specs.Plan.{lower, upper, after};
ghost use Rattle.foundation.specs.Subscripts.{kept};
ghost use Rattle.answers.specs.Stores.{side_stores};
ghost use Rattle.store_lists.specs.Chains.{Chained};
ghost use Rattle.plan_gather.specs.Ready.{lent_by, plan_of};
ghost use Rattle.plan_gather.specs.Steps.{SideAt};
ghost use Rattle.plan_lists.specs.Lying.{WholeAt};
ghost use Rattle.plan_sets.specs.Whole.{LowerWhole};

use answers::SubscriptPlace;
use plan_lists::Lies;
use store_lists::push;

// Whether the list of a sole step has a member behind its first.
fn sole_further(l: usize, slots: &[usize]) -> bool
    requires { (1 ≤ l) × (l < length slots.now) × (get_or slots.now (l - 1) 0 ≤ get_or slots.now l 0) }
    ensures { result ≡ ltb 1 (span slots.now l) }
{
    let slot = slots[l - 1];
    let next = slots[l];
    1 < next - slot
}

// Whether L_k has more than one member, that is, its kept list one. One row brings itself; the list of a sole step has k before the members of k's; behind the members that stand at the store's end comes the
// row itself, or nothing where `from` is 1: so there is one if `from` is 0, or if any stand there.
fn has_further(n: usize, k: usize, row: usize, lies: Lies, slots: &[usize]) -> bool
    requires { (p : Lent) × LowerWhole lies p n k row slots.now }
    ensures { (p : Lent) → LowerWhole lies p n k row slots.now → result ≡ ltb 0 (length (kept (plan_of p) lower k)) }
{
    match lies {
        Lies::Grown(count) => 0 < count,
        Lies::Row => row != k,
        Lies::Sole(l) => sole_further(l, slots),
        Lies::Behind(shared, from) => from <= shared,
    }
}

// The column at a place of the columns that belongs to a row; 0 behind the row's end.
fn column_at(row: usize, at: usize, starts: &[usize], columns: &[usize]) -> usize
    requires { (row < length starts.now) × (get_or starts.now row 0 ≤ length columns.now) }
    ensures { result ≡ cond (ltb at (get_or starts.now row 0)) (get_or columns.now at 0) 0 }
{
    if starts[row] <= at {
        return 0;
    }
    columns[at]
}

// The least member of U_k but k, the first of its kept list; 0 where there is none, which happens only where L_k has rows above n. What the one row brings and the list of a sole step
// have k before it.
fn least_further(
    n: usize,
    k: usize,
    row: usize,
    lies: Lies,
    starts: &[usize],
    columns: &[usize],
    subs: &[usize],
    list_starts: &[usize],
    slots: &[usize],
    end: SubscriptPlace,
    growing: &[usize],
) -> usize
    requires side_at { SideAt (lent_by n starts.now columns.now) upper n k (side_stores subs.now list_starts.now slots.now) end.0 }
    requires whole_at { WholeAt lies (lent_by n starts.now columns.now) upper k row growing.now }
    ensures { result ≡ first (kept (plan_of (lent_by n starts.now columns.now)) upper k) }
{
    match lies {
        Lies::Grown(count) => {
            if count == 0 {
                return 0;
            }
            growing[0]
        }
        Lies::Row => {
            let at = starts[row - 1] + 1;
            column_at(row, at, starts, columns)
        }
        Lies::Sole(l) => {
            if !sole_further(l, slots) {
                return 0;
            }
            let at = list_starts[l - 1] + 1;
            subs[at]
        }
        Lies::Behind(shared, from) => {
            if 0 < shared {
                let at = end.0 - shared;
                return subs[at];
            }
            let at = starts[row - 1] + from;
            column_at(row, at, starts, columns)
        }
    }
}

// Report, 2.5: "Update S: Let σ = min{t | t ∈ L_k - {k}} and ρ = min{t | t ∈ U_k - {k}} (..) set S_ρ = S_ρ ∪ {k} if |L_k| > 1." Only whether there is a σ counts. Where there is no ρ, k joins no set
// (document 02, ticket 9).
pub fn update_sets(
    n: usize,
    k: usize,
    row: usize,
    l_lies: Lies,
    u_lies: Lies,
    starts: &[usize],
    columns: &[usize],
    l_subs: &[usize],
    l_starts: &[usize],
    l_slots: &[usize],
    u_subs: &[usize],
    u_starts: &[usize],
    u_slots: &[usize],
    l_end: SubscriptPlace,
    u_end: SubscriptPlace,
    l_growing: &[usize],
    u_growing: &[usize],
    set_heads: &mut [usize],
    set_links: &mut [usize],
)
    requires side_at { SideAt (lent_by n starts.now columns.now) lower n k (side_stores l_subs.now l_starts.now l_slots.now) l_end.0
        × SideAt (lent_by n starts.now columns.now) upper n k (side_stores u_subs.now u_starts.now u_slots.now) u_end.0 }
    requires whole_at { WholeAt l_lies (lent_by n starts.now columns.now) lower k row l_growing.now
        × WholeAt u_lies (lent_by n starts.now columns.now) upper k row u_growing.now }
    requires chained { Chained set_heads.old set_links.old (lent_by n starts.now columns.now).height n (after (pattern_of (lent_by n starts.now columns.now)) (k - 1)).S }
    ensures { Chained set_heads.new set_links.new (lent_by n starts.now columns.now).height n (after (pattern_of (lent_by n starts.now columns.now)) k).S }
{
    if has_further(n, k, row, l_lies, l_slots) {
        let rho = least_further(
            n, k, row, u_lies, starts, columns, u_subs, u_starts, u_slots, u_end, u_growing,
        );
        if rho == 0 {
            return;
        }
        push(set_heads, set_links, rho, k);
    }
}
