// The rows of a test load, laid into the stores one behind the other: document 02, Ticket 6.
#![tactic(auto)]

ghost use Rattle.std.specs.Prelude.{◌≡◌, ◌<◌, ◌≤◌, length};
ghost use Rattle.foundation.specs.Load.{row_up_to, load_of};
ghost use Rattle.load_rows.specs.Laid.{RowLaid, LoadLaid, Blank};

use load_draw::{ask, step, value_at};

// Where the entries end behind a row, and the state after it.
#[derive(Clone, Copy)]
pub struct RowEnd {
    pub entries: usize,
    pub state: u32,
}

// The entries of one row, from place `filled` of the stores on. Where they pass the stores, more than their places is answered.
fn fill_row(
    state: u32,
    n: usize,
    d: usize,
    row: usize,
    filled: usize,
    columns: &mut [usize],
    values: &mut [f64],
) -> RowEnd
    requires { (0 < d) × (filled ≤ length columns.old) × (length values.old ≡ length columns.old) }
    ensures { RowLaid (row_up_to d row state n) (length columns.old) filled result.entries result.state columns.old columns.new values.old values.new }
{
    let room = columns.len();
    let mut current = state;
    let mut end = filled;
    let mut j = 0;
    while j < n {
        j += 1;
        let asked = ask(current, d, row, j);
        let reached = asked.state;
        let present = asked.present;
        current = reached;
        if !present {
            continue;
        }
        if room <= end {
            let past = room + 1;
            return RowEnd {
                entries: past,
                state: reached,
            };
        }
        current = step(reached);
        columns[end] = j;
        values[end] = value_at(current);
        end += 1;
    }
    RowEnd {
        entries: end,
        state: current,
    }
}

// All rows of a load, in stores that are zero: the number of entries, or more than the places for them.
pub fn fill_rows(
    seed: u32,
    n: usize,
    d: usize,
    starts: &mut [usize],
    columns: &mut [usize],
    values: &mut [f64],
    right: &mut [f64],
) -> usize
    requires { (0 < d) × Blank (length columns.old) n starts.old columns.old values.old right.old }
    ensures { LoadLaid (load_of seed n d) result (length columns.old) n starts.new columns.new values.new right.new }
{
    let room = columns.len();
    let mut state = seed;
    let mut filled = 0;
    let mut i = 0;
    while i < n {
        let row = i + 1;
        let end = fill_row(state, n, d, row, filled, columns, values);
        let entries = end.entries;
        let reached = end.state;
        if room < entries {
            return entries;
        }
        filled = entries;
        state = step(reached);
        right[i] = value_at(state);
        starts[row] = filled;
        i = row;
    }
    filled
}
