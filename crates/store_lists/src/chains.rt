// Lists as chains: place k of a store of first members has the first of k, and a second store has behind each member the next one, 0 at
// the end. Who joins last stands first.
ghost use Rattle.std.specs.Prelude.{List, ◌≡◌, ℕ, ◌<◌, length, set, get_or};
ghost use Rattle.lists.specs.Functions.{total, span};
ghost use Rattle.store_lists.specs.Chains.{Linked, Sized, AddsUp, both_spans, RowsWalk, StepsWalk};

use crate::walking::walk;

// x joins the chain of k.
pub fn push(heads: &mut [usize], links: &mut [usize], k: usize, x: usize)
    requires { (k < length heads.old) × (x < length links.old) }
    ensures { (heads.new ≡ set heads.old k x) × (links.new ≡ set links.old x (get_or heads.old k 0)) }
{
    links[x] = heads[k];
    heads[k] = x;
}

// What the members of a chain have together, each by a count of its own.
fn total_over<F: Fn(usize) -> usize>(first: usize, links: &[usize], count: F) -> usize
    requires { (size : ℕ → ℕ) × (all : List ℕ) × AddsUp (F.pre count) (F.post count) links.now first size all }
    ensures { (size : ℕ → ℕ) (all : List ℕ) → Sized (F.post count) links.now first size all → result ≡ total size all }
{
    let mut sum = 0;
    for x in walk(first, links) {
        sum += count(x);
    }
    sum
}

// How many columns the rows of a chain have together.
pub fn row_reads(first: usize, links: &[usize], starts: &[usize]) -> usize
    requires { (rows : List ℕ) × RowsWalk links.now first starts.now rows }
    ensures { (rows : List ℕ) → Linked links.now first rows → result ≡ total (span starts.now) rows }
{
    total_over(first, links, |i| starts[i] - starts[i - 1])
}

// How many members the lists L and U of the steps of a chain have together.
pub fn step_reads(first: usize, links: &[usize], lowers: &[usize], uppers: &[usize]) -> usize
    requires { (steps : List ℕ) × StepsWalk links.now first lowers.now uppers.now steps }
    ensures { (steps : List ℕ) → Linked links.now first steps → result ≡ total (both_spans lowers.now uppers.now) steps }
{
    total_over(
        first,
        links,
        |l| lowers[l] - lowers[l - 1] + 1 + (uppers[l] - uppers[l - 1] + 1),
    )
}
