// A list that grows by unions, at the front of a store of its own: by what rows bring (report, 2.2), and by the lists of steps (2.4).
ghost use Rattle.std.specs.Prelude.{List, ◌≡◌, ℕ, suc, ◌-◌, ◌≤◌, ◌<◌, length, take, drop, get_or};
ghost use Rattle.lists.specs.Functions.{span};
ghost use Rattle.lists.specs.Sets.{union};
ghost use Rattle.foundation.specs.Pattern.{Lent};
ghost use Rattle.foundation.specs.Plan.{Side, lower, upper};
ghost use Rattle.answers.specs.Stores.{side_stores};
ghost use Rattle.store_lists.specs.Chains.{Linked};
ghost use Rattle.plan_gather.specs.Ready.{lent_by, Ready, plan_of, side_of};
ghost use Rattle.plan_gather.specs.Gathering.{without, Within, GrownIn};
ghost use Rattle.plan_gather.specs.Steps.{StepOf, kept_rows, kept_steps};
ghost use Rattle.plan_grow.specs.Growing.{StepsReady};

use plan_gather::after_first;
use store_lists::{append, list_at, merge_in, walk};
use store_place::list_place;
use store_search::search_behind;

// A list joins the growing one, without the step at hand, k: how many members there are then. A search tells whether it only adds behind the end: then
// it is appended, and else merged in place. It is searched where it is likely to add nothing, or only behind the end.
fn join(search: bool, k: usize, more: &[usize], count: usize, growing: &mut [usize]) -> usize
    requires { (room : ℕ) × (xs : List ℕ) × GrownIn room count growing.old xs × Within (suc k) room xs × Within k room more.now }
    ensures { (room : ℕ) (xs : List ℕ) → GrownIn room count growing.old xs
        → GrownIn room result growing.new (union xs (without k more.now)) }
{
    let comes = after_first(k, more);
    if search {
        if let Some(at) = search_behind(&growing[0..count], comes) {
            return append(&comes[at..], growing, count);
        }
    }
    merge_in(count, comes, growing)
}

// The columns of row i.
fn row_columns<'a>(starts: &[usize], columns: &'a [usize], i: usize) -> &'a [usize]
    requires { (1 ≤ i) × (i < length starts.now) × (get_or starts.now (i - 1) 0 ≤ get_or starts.now i 0) × (get_or starts.now i 0 ≤ length columns.now) }
    ensures { result.now ≡ take (span starts.now i) (drop (get_or starts.now (i - 1) 0) columns.now) }
{
    &columns[starts[i - 1]..starts[i]]
}

// What the rows of a chain bring to U: their columns. Most of them add nothing, or only behind the end.
fn columns_of(
    n: usize,
    k: usize,
    first: usize,
    links: &[usize],
    starts: &[usize],
    columns: &[usize],
    growing: &mut [usize],
) -> usize
    requires ready { Ready (lent_by n starts.now columns.now) × (1 ≤ k) × (k ≤ n) }
    requires linked { Linked links.now first ((plan_of (lent_by n starts.now columns.now)).first_met k) }
    requires growing_len { length growing.old ≡ (lent_by n starts.now columns.now).height }
    ensures { GrownIn (lent_by n starts.now columns.now).height result growing.new (kept_rows (lent_by n starts.now columns.now) upper k) }
{
    let mut count = 0;
    for i in walk(first, links) {
        count = join(true, k, row_columns(starts, columns, i), count, growing);
    }
    count
}

// What they bring to L: themselves, in ascending order, without k.
fn numbers_of(n: usize, k: usize, first: usize, links: &[usize], growing: &mut [usize]) -> usize
    requires { (p : Lent) × StepOf p n k × Linked links.now first ((plan_of p).first_met k) × (length growing.old ≡ p.height) }
    ensures { (p : Lent) → StepOf p n k → Linked links.now first ((plan_of p).first_met k) → length growing.old ≡ p.height
        → GrownIn p.height result growing.new (kept_rows p lower k) }
{
    let mut count = 0;
    for i in walk(first, links) {
        if i != k {
            growing[count] = i;
            count += 1;
        }
    }
    count
}

// Report, 2.2: what the rows of a chain bring, each its own number to L and its columns to U.
pub fn from_rows(
    upper: bool,
    n: usize,
    k: usize,
    first: usize,
    links: &[usize],
    starts: &[usize],
    columns: &[usize],
    growing: &mut [usize],
) -> usize
    requires ready { Ready (lent_by n starts.now columns.now) × (1 ≤ k) × (k ≤ n) }
    requires linked { Linked links.now first ((plan_of (lent_by n starts.now columns.now)).first_met k) }
    requires growing_len { length growing.old ≡ (lent_by n starts.now columns.now).height }
    ensures { GrownIn (lent_by n starts.now columns.now).height result growing.new (kept_rows (lent_by n starts.now columns.now) (side_of upper) k) }
{
    if upper {
        return columns_of(n, k, first, links, starts, columns, growing);
    }
    numbers_of(n, k, first, links, growing)
}

// Report, 2.4: what the lists of the steps in a chain hand on, read out of the side's stores. While nothing has grown, a list is copied.
pub fn from_steps(
    n: usize,
    k: usize,
    first: usize,
    links: &[usize],
    subs: &[usize],
    starts: &[usize],
    slots: &[usize],
    gathered: usize,
    growing: &mut [usize],
) -> usize
    requires { (p : Lent) × (side : Side) × StepsReady p side n k first links.now (side_stores subs.now starts.now slots.now) gathered growing.old }
    ensures { (p : Lent) (side : Side)
        → StepsReady p side n k first links.now (side_stores subs.now starts.now slots.now) gathered growing.old
        → GrownIn p.height result growing.new (kept_steps p side k) }
{
    let mut count = gathered;
    for l in walk(first, links) {
        let lies = list_place(starts, slots, l);
        count = join(
            count == 0,
            k,
            list_at(subs, lies.from, lies.to),
            count,
            growing,
        );
    }
    count
}
