// Test loads that can be named: document 02, Ticket 6. A load is the pattern, values and right side that a seed, n and d stand for.
#![tactic(auto)]

ghost use Rattle.std.specs.Prelude.{◌≡◌};
ghost use Rattle.foundation.specs.LoadCall.{load_answer, load_stores, load_sizes_of, load_leaves};
ghost use Rattle.answers.specs.Loads.{load_answer_of};

use answers::LoadAnswer;
use clearing::clear_stores;
use load_judge::judge;
use load_rows::fill_rows;

mod clearing;

// The places of the stores for columns and values.
pub const PLACES: usize = load_judge::PLACES;

// Lays the load of a seed into four stores: n + 1 row starts, columns and values of `PLACES` each, n right sides. A place off the diagonal is present where its draw
// divides by d without rest. The answer is the number of entries; zeros stand behind them, and throughout after a refusal.
pub fn load(
    seed: u32,
    n: usize,
    d: usize,
    starts: &mut [usize],
    columns: &mut [usize],
    values: &mut [f64],
    right: &mut [f64],
) -> LoadAnswer
    ensures { (load_answer_of result ≡ load_answer seed n d (load_sizes_of (load_stores starts.old columns.old values.old right.old)))
        × (load_stores starts.new columns.new values.new right.new
        ≡ load_leaves seed n d (load_sizes_of (load_stores starts.old columns.old values.old right.old))) }
{
    clear_stores(starts, columns, values, right);
    let verdict = judge(n, d, starts.len(), columns.len(), values.len(), right.len());
    let LoadAnswer::Entries(_) = verdict else {
        return verdict;
    };
    let entries = fill_rows(seed, n, d, starts, columns, values, right);
    if PLACES < entries {
        clear_stores(starts, columns, values, right);
        return LoadAnswer::Limits;
    }
    LoadAnswer::Entries(entries)
}
