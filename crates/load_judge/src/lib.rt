// What is judged before any draw of a test load: document 02, Ticket 6. It judges numbers alone, n, d and the places of the stores.
#![tactic(auto)]

ghost use Rattle.std.specs.Prelude.{◌≡◌, ◌≤◌};
ghost use Rattle.foundation.specs.LoadCall.{load_sizes, load_sizes_fit, judged_load};
ghost use Rattle.answers.specs.Loads.{load_answer_of};

use answers::LoadAnswer;

// Document 02, Ticket 6: "An n of 0 or above 1,024 is 1".
const LARGEST_N: usize = 1_024;

// "Column and value stores are lent with 16,384 places each".
pub const PLACES: usize = 16_384;

// Whether each store has the length that is asked for.
fn sizes_fit(n: usize, starts: usize, columns: usize, values: usize, right: usize) -> bool
    requires { n ≤ 1024 }
    ensures { result ≡ load_sizes_fit n (load_sizes starts columns values right) }
{
    if columns != PLACES {
        return false;
    }
    if values != PLACES {
        return false;
    }
    if starts != n + 1 {
        return false;
    }
    right == n
}

// 1 for n, 23, 6; or no entry yet. The lengths are looked at before d and told behind it.
pub fn judge(
    n: usize,
    d: usize,
    starts: usize,
    columns: usize,
    values: usize,
    right: usize,
) -> LoadAnswer
    ensures { load_answer_of result ≡ judged_load n d (load_sizes starts columns values right) }
{
    if n == 0 {
        return LoadAnswer::Limits;
    }
    if LARGEST_N < n {
        return LoadAnswer::Limits;
    }
    let fit = sizes_fit(n, starts, columns, values, right);
    if d == 0 {
        return LoadAnswer::NoDivisor;
    }
    if !fit {
        return LoadAnswer::Stores;
    }
    LoadAnswer::Entries(0)
}
