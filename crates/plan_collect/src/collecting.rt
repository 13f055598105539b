// Report, 2.4: the influence of the steps in S_k is collected.
ghost use Rattle.std.specs.Prelude.{true, ◌≡◌, suc, ◌≤◌, ◌<◌, length};
ghost use Rattle.foundation.specs.Pattern.{pattern_of};
ghost use Rattle.foundation.specs.Plan.{lower, upper, after_rows};
ghost use Rattle.answers.specs.Stores.{side_stores};
ghost use Rattle.store_lists.specs.Chains.{Linked};
ghost use Rattle.plan_gather.specs.Ready.{lent_by, Ready, plan_of, side_of};
ghost use Rattle.plan_gather.specs.Gathering.{GrownIn};
ghost use Rattle.plan_gather.specs.Steps.{ChainsOf, SideAt, kept_rows};
ghost use Rattle.plan_append.specs.Joining.{JoinsLast};
ghost use Rattle.plan_lists.specs.Lying.{LiesAs, ListsAt, WholeAt, ListsWhole};
ghost use Rattle.plan_collect.specs.Collecting.{Collectable};

use answers::SubscriptPlace;
use plan_append::{Added, added_columns, added_own, joins_last};
use plan_gather::sole_step;
use plan_grow::{from_rows, from_steps};
use plan_lists::{Lies, Lists};
use store_lists::step_reads;

// What the rows brought, at the front of the growing store: how many members it has. If it lies in the pattern still, it is copied.
fn grow_rows(
    upper: bool,
    n: usize,
    k: usize,
    row: usize,
    row_links: &[usize],
    lies: Lies,
    starts: &[usize],
    columns: &[usize],
    growing: &mut [usize],
) -> usize
    requires ready { Ready (lent_by n starts.now columns.now) × (1 ≤ k) × (k ≤ n) }
    requires linked { Linked row_links.now row ((plan_of (lent_by n starts.now columns.now)).first_met k) × (length growing.old ≡ (lent_by n starts.now columns.now).height) }
    requires lies_as { LiesAs lies (lent_by n starts.now columns.now) (side_of upper) k row growing.old (kept_rows (lent_by n starts.now columns.now) (side_of upper) k) }
    ensures { GrownIn (lent_by n starts.now columns.now).height result growing.new (kept_rows (lent_by n starts.now columns.now) (side_of upper) k) }
{
    if let Lies::Grown(count) = lies {
        return count;
    }
    from_rows(upper, n, k, row, row_links, starts, columns, growing)
}

// The lists of the steps in S_k join what the rows brought.
fn collect_grown(
    upper: bool,
    n: usize,
    k: usize,
    row: usize,
    row_links: &[usize],
    lies: Lies,
    set: usize,
    set_links: &[usize],
    starts: &[usize],
    columns: &[usize],
    subs: &[usize],
    list_starts: &[usize],
    slots: &[usize],
    end: SubscriptPlace,
    growing: &mut [usize],
) -> Lies
    requires { Collectable lies (lent_by n starts.now columns.now) (side_of upper) n k row row_links.now set set_links.now
        (side_stores subs.now list_starts.now slots.now) end.0 growing.old }
    ensures { WholeAt result (lent_by n starts.now columns.now) (side_of upper) k row growing.new }
{
    let count = grow_rows(upper, n, k, row, row_links, lies, starts, columns, growing);
    Lies::Grown(from_steps(
        n,
        k,
        set,
        set_links,
        subs,
        list_starts,
        slots,
        count,
        growing,
    ))
}

// L_k. Where one row is met and S_k is the one step k-1, and the row only adds behind the list of k-1, which ends its store, that list is not copied: it is left at the store's end.
fn collect_lower(
    joins: bool,
    n: usize,
    k: usize,
    row: usize,
    row_links: &[usize],
    lies: Lies,
    set: usize,
    set_links: &[usize],
    starts: &[usize],
    columns: &[usize],
    subs: &[usize],
    list_starts: &[usize],
    slots: &[usize],
    end: SubscriptPlace,
    growing: &mut [usize],
) -> Lies
    requires joins_last { joins ≡ true → JoinsLast (lent_by n starts.now columns.now) n k row }
    requires collectable { Collectable lies (lent_by n starts.now columns.now) lower n k row row_links.now set set_links.now
        (side_stores subs.now list_starts.now slots.now) end.0 growing.old }
    ensures { WholeAt result (lent_by n starts.now columns.now) lower k row growing.new }
{
    if joins {
        if let Added::Behind(shared, from) = added_own(n, k, row, subs, list_starts, slots, end) {
            return Lies::Behind(shared, from);
        }
    }
    collect_grown(
        false,
        n,
        k,
        row,
        row_links,
        lies,
        set,
        set_links,
        starts,
        columns,
        subs,
        list_starts,
        slots,
        end,
        growing,
    )
}

// U_k, likewise.
fn collect_upper(
    joins: bool,
    n: usize,
    k: usize,
    row: usize,
    row_links: &[usize],
    lies: Lies,
    set: usize,
    set_links: &[usize],
    starts: &[usize],
    columns: &[usize],
    subs: &[usize],
    list_starts: &[usize],
    slots: &[usize],
    end: SubscriptPlace,
    growing: &mut [usize],
) -> Lies
    requires joins_last { joins ≡ true → JoinsLast (lent_by n starts.now columns.now) n k row }
    requires collectable { Collectable lies (lent_by n starts.now columns.now) upper n k row row_links.now set set_links.now
        (side_stores subs.now list_starts.now slots.now) end.0 growing.old }
    ensures { WholeAt result (lent_by n starts.now columns.now) upper k row growing.new }
{
    if joins {
        if let Added::Behind(shared, from) = added_columns(
            n,
            k,
            row,
            starts,
            columns,
            subs,
            list_starts,
            slots,
            end,
        ) {
            return Lies::Behind(shared, from);
        }
    }
    collect_grown(
        true,
        n,
        k,
        row,
        row_links,
        lies,
        set,
        set_links,
        starts,
        columns,
        subs,
        list_starts,
        slots,
        end,
        growing,
    )
}

// Report, 2.4: "for i ∈ S_k, collect influence caused by step i: L_k = L_k ∪ L_i - {1, .., k-1}, U_k = U_k ∪ U_i - {1, .., k-1}". S_k is the chain from `set` on. Report, 3.1: where no
// row was met and S_k is one step, "we do not have to access the elements" of its lists; they are counted as read all the same.
pub fn collect_steps(
    rows: Lists,
    n: usize,
    k: usize,
    row: usize,
    row_links: &[usize],
    set: usize,
    set_links: &[usize],
    starts: &[usize],
    columns: &[usize],
    l_subs: &[usize],
    l_starts: &[usize],
    l_slots: &[usize],
    u_subs: &[usize],
    u_starts: &[usize],
    u_slots: &[usize],
    l_end: SubscriptPlace,
    u_end: SubscriptPlace,
    l_growing: &mut [usize],
    u_growing: &mut [usize],
) -> Lists
    requires side_at { SideAt (lent_by n starts.now columns.now) lower n k (side_stores l_subs.now l_starts.now l_slots.now) l_end.0
        × SideAt (lent_by n starts.now columns.now) upper n k (side_stores u_subs.now u_starts.now u_slots.now) u_end.0 }
    requires chains_of { ChainsOf (lent_by n starts.now columns.now) k row row_links.now set set_links.now
        × (0 < set) × (length set_links.now ≡ suc (lent_by n starts.now columns.now).height) }
    requires lists_at { ListsAt rows (lent_by n starts.now columns.now) k row (after_rows (pattern_of (lent_by n starts.now columns.now)) k) k l_growing.old u_growing.old }
    ensures { ListsWhole result (lent_by n starts.now columns.now) k row l_growing.new u_growing.new }
{
    let l = sole_step(row, set, set_links);
    if l != 0 {
        let shared = step_reads(set, set_links, l_slots, u_slots);
        let counted = rows.reads + shared;
        return Lists {
            lower: Lies::Sole(l),
            upper: Lies::Sole(l),
            reads: counted,
        };
    }
    let joins = joins_last(k, row, row_links, set, set_links);
    let l_rows = rows.lower;
    let u_rows = rows.upper;
    let l_lies = collect_lower(
        joins, n, k, row, row_links, l_rows, set, set_links, starts, columns, l_subs, l_starts,
        l_slots, l_end, l_growing,
    );
    let u_lies = collect_upper(
        joins, n, k, row, row_links, u_rows, set, set_links, starts, columns, u_subs, u_starts,
        u_slots, u_end, u_growing,
    );
    let more = step_reads(set, set_links, l_slots, u_slots);
    let reads = rows.reads + more;
    Lists {
        lower: l_lies,
        upper: u_lies,
        reads,
    }
}
