// The judgement of a lent pattern and of the stores' lengths: refusals 1 to 6 in the table's order, 25 behind 1.
ghost use Rattle.std.specs.Prelude.{true, ◌||◌, ◌⊎◌, ◌≡◌, ℕ, ◌≤◌, ltb};
ghost use Rattle.lists.specs.Sets.{member};
ghost use Rattle.foundation.specs.Pattern.{lent, starts_fit, not_falling, entries_fault, rows_fault, pattern_fault};
ghost use Rattle.foundation.specs.Answer.{refused};
ghost use Rattle.foundation.specs.PlanCall.{Counts};
ghost use Rattle.answers.specs.Answers.{refusal_of};
ghost use Rattle.plan_pattern.specs.Sizes.{lengths_fit};

use answers::Refusal;

// Document 01, "Pattern": "n is 1 to 1,024, entries at most 16,384".
const LARGEST_N: usize = 1_024;

const MOST_ENTRIES: usize = 16_384;

// Document 02, ticket 9: "a row count of n to 2,048".
const MOST_ROWS: usize = 2_048;

// Whether each start is at least the one before it.
fn not_falling(starts: &[usize]) -> bool
    ensures { result ≡ not_falling 0 starts.now }
{
    let mut last = 0;
    let mut i = 0;
    while i < starts.len() {
        let start = starts[i];
        if start < last {
            return false;
        }
        last = start;
        i += 1;
    }
    true
}

// Refusal 2: one start more than there are rows, first 0, not falling, last equal to the number of entries.
fn starts_fit(height: usize, starts: &[usize], columns: &[usize]) -> bool
    ensures { (n : ℕ) → result ≡ starts_fit (lent n height starts.now columns.now) }
{
    if starts.len() <= height {
        return false;
    }
    if starts.len() != height + 1 {
        return false;
    }
    if starts[0] != 0 {
        return false;
    }
    if starts[height] != columns.len() {
        return false;
    }
    not_falling(starts)
}

// Refusals 3 and 4: the first fault among a row's columns, 0 where there is none.
fn entries_fault(n: usize, row: &[usize]) -> usize
    ensures { result ≡ entries_fault n 0 row.now }
{
    let mut before = 0;
    let mut i = 0;
    while i < row.len() {
        let column = row[i];
        if column < 1 {
            return 3;
        }
        if n < column {
            return 3;
        }
        if column <= before {
            return 4;
        }
        before = column;
        i += 1;
    }
    0
}

// Whether a number is in a list.
fn has_member(list: &[usize], x: usize) -> bool
    ensures { result ≡ member x list.now }
{
    let mut i = 0;
    while i < list.len() {
        if list[i] == x {
            return true;
        }
        i += 1;
    }
    false
}

// Refusal 5: whether row i has its diagonal, or needs none.
fn has_diagonal(n: usize, i: usize, row: &[usize]) -> bool
    ensures { result ≡ (ltb n i || member i row.now) }
{
    if n < i {
        return true;
    }
    has_member(row, i)
}

// Refusals 3, 4 and 5 of all rows, row by row: the first fault, 0 where there is none.
fn rows_fault(n: usize, height: usize, starts: &[usize], columns: &[usize]) -> usize
    requires { starts_fit (lent n height starts.now columns.now) ≡ true }
    ensures { result ≡ rows_fault (lent n height starts.now columns.now) 1 height }
{
    let mut i = 0;
    while i < height {
        let from = starts[i];
        let to = starts[i + 1];
        let row = &columns[from..to];
        let fault = entries_fault(n, row);
        if fault != 0 {
            return fault;
        }
        if !has_diagonal(n, i + 1, row) {
            return 5;
        }
        i += 1;
    }
    0
}

// The first of refusals 1, 25 and 2 to 5 that is given, 0 where the pattern passes. `most` is the largest n.
pub fn pattern_fault(
    most: usize,
    n: usize,
    height: usize,
    starts: &[usize],
    columns: &[usize],
) -> usize
    ensures { result ≡ pattern_fault most (lent n height starts.now columns.now) }
{
    if n == 0 {
        return 1;
    }
    if most < n {
        return 1;
    }
    if LARGEST_N < n {
        return 1;
    }
    if MOST_ENTRIES < columns.len() {
        return 1;
    }
    if height < n {
        return 25;
    }
    if MOST_ROWS < height {
        return 25;
    }
    if !starts_fit(height, starts, columns) {
        return 2;
    }
    rows_fault(n, height, starts, columns)
}

// A refusal of the pattern by its number.
pub fn refusal_of(fault: usize) -> Refusal
    requires { ((1 ≤ fault) × (fault ≤ 5)) ⊎ (fault ≡ 25) }
    ensures { refusal_of {A = Counts} result ≡ refused fault 0 }
{
    match fault {
        1 => Refusal::Limits,
        2 => Refusal::Starts,
        3 => Refusal::Column,
        4 => Refusal::Order,
        5 => Refusal::Diagonal,
        _ => Refusal::Height,
    }
}

// Refusal 6: whether the starts and the work stores have the lengths that docs/ fixes.
pub fn lengths_fit(
    n: usize,
    height: usize,
    l_starts: usize,
    l_slots: usize,
    u_starts: usize,
    u_slots: usize,
    row_heads: usize,
    row_links: usize,
    set_heads: usize,
    set_links: usize,
    list: usize,
    spare: usize,
) -> bool
    requires { (n ≤ 65536) × (height ≤ 65536) }
    ensures { result ≡ lengths_fit n height l_starts l_slots u_starts u_slots row_heads row_links set_heads set_links list spare }
{
    let next = n + 1;
    let below = height + 1;
    if l_starts != n {
        return false;
    }
    if l_slots != next {
        return false;
    }
    if u_starts != n {
        return false;
    }
    if u_slots != next {
        return false;
    }
    if row_heads != below {
        return false;
    }
    if row_links != below {
        return false;
    }
    if set_heads != below {
        return false;
    }
    if set_links != below {
        return false;
    }
    if list != height {
        return false;
    }
    spare == height
}
