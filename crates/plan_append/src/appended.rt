// A list that is appended to: one row joins the list of the step before, which ends its store, and only adds behind it.
ghost use Rattle.std.specs.Prelude.{true, ◌≡◌, ◌-◌, ◌≤◌, ◌<◌, length};
ghost use Rattle.foundation.specs.Pattern.{Lent};
ghost use Rattle.foundation.specs.Plan.{lower, upper};
ghost use Rattle.answers.specs.Stores.{side_stores};
ghost use Rattle.store_place.specs.Places.{ListAsks};
ghost use Rattle.plan_gather.specs.Ready.{lent_by};
ghost use Rattle.plan_gather.specs.Steps.{SideAt};
ghost use Rattle.plan_append.specs.Joining.{ChainsJoin, JoinsLast, LastAs, AddedAs};

use answers::SubscriptPlace;
use plan_gather::after_first;
use store_lists::list_at;
use store_place::list_place;
use store_search::search_behind;

// Whether S_k is the one step k-1 and one row was first met at k.
pub fn joins_last(
    k: usize,
    row: usize,
    row_links: &[usize],
    set: usize,
    set_links: &[usize],
) -> bool
    requires { ((row ≡ 0 → ⊥) → row < length row_links.now) × (set < length set_links.now) × (1 ≤ k) }
    ensures { result ≡ true → ChainsJoin k row row_links.now set set_links.now }
{
    if row == 0 {
        return false;
    }
    if row_links[row] != 0 {
        return false;
    }
    if set == 0 {
        return false;
    }
    if set != k - 1 {
        return false;
    }
    if set_links[set] != 0 {
        return false;
    }
    true
}

// What a row adds behind the list of the step before: how many members of that list stand in both, and from which place on what the row
// brings stands behind them; or that it adds elsewhere too, or that the list does not end its store.
#[derive(Clone, Copy)]
pub enum Added {
    Behind(usize, usize),
    Elsewhere,
}

// Where the list of step k-1 lies, if it ends its store.
#[derive(Clone, Copy)]
pub enum Last {
    Members(SubscriptPlace, SubscriptPlace),
    Before,
}

// The list of step k-1, if it ends its store.
fn last_list(k: usize, list_starts: &[usize], slots: &[usize], end: SubscriptPlace) -> Last
    requires { ListAsks list_starts.now slots.now (k - 1) }
    ensures { LastAs result k list_starts.now slots.now end.0 }
{
    let last = list_place(list_starts, slots, k - 1);
    if last.to.0 != end.0 {
        return Last::Before;
    }
    let from = last.from;
    let to = last.to;
    Last::Members(from, to)
}

// What a row first met at k adds behind the list of step k-1 of L: itself, unless it is k. It is compared with the last member alone.
pub fn added_own(
    n: usize,
    k: usize,
    row: usize,
    subs: &[usize],
    list_starts: &[usize],
    slots: &[usize],
    end: SubscriptPlace,
) -> Added
    requires { (p : Lent) × JoinsLast p n k row × SideAt p lower n k (side_stores subs.now list_starts.now slots.now) end.0 }
    ensures { (p : Lent) → JoinsLast p n k row
        → SideAt p lower n k (side_stores subs.now list_starts.now slots.now) end.0
        → AddedAs result p lower k row }
{
    let Last::Members(from, to) = last_list(k, list_starts, slots, end) else {
        return Added::Elsewhere;
    };
    let have = after_first(k, list_at(subs, from, to));
    let size = have.len();
    if row == k {
        return Added::Behind(size, 1);
    }
    if size == 0 {
        return Added::Behind(size, 0);
    }
    if have[size - 1] < row {
        return Added::Behind(size, 0);
    }
    Added::Elsewhere
}

// What a row first met at k adds behind the list of step k-1 of U: its columns from some place on. Both begin with k, which is left out: k is the least column of the row, and the
// least member of U of step k-1 behind k-1.
pub fn added_columns(
    n: usize,
    k: usize,
    row: usize,
    starts: &[usize],
    columns: &[usize],
    subs: &[usize],
    list_starts: &[usize],
    slots: &[usize],
    end: SubscriptPlace,
) -> Added
    requires joins_last { JoinsLast (lent_by n starts.now columns.now) n k row }
    requires side_at { SideAt (lent_by n starts.now columns.now) upper n k (side_stores subs.now list_starts.now slots.now) end.0 }
    ensures { AddedAs result (lent_by n starts.now columns.now) upper k row }
{
    let Last::Members(first, behind) = last_list(k, list_starts, slots, end) else {
        return Added::Elsewhere;
    };
    let last = list_at(subs, first, behind);
    let have = &last[1..];
    let from = starts[row - 1] + 1;
    let to = starts[row];
    let Some(at) = search_behind(have, &columns[from..to]) else {
        return Added::Elsewhere;
    };
    Added::Behind(have.len(), at + 1)
}
