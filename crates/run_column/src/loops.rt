// The loops over column k, the right side and the diagonal. As in the sides, places are written by value and what is not finite sets the step's
// flag.
ghost use Rattle.std.specs.Prelude.{true, map, ◌≡◌, ℕ, suc, ◌≤◌, Float, length};
ghost use Rattle.run_slots.specs.Products.{less_product};
ghost use Rattle.lists.specs.Functions.{all};
ghost use Rattle.lists.specs.Sets.{member, upto, Ascending};
ghost use Rattle.foundation.specs.Numbers.{finite};
ghost use Rattle.foundation.specs.Reference.{reduced};
ghost use Rattle.run_slots.specs.Flags.{flagged, nonzeros, with_diagonal};
ghost use Rattle.run_stretch.specs.Stretches.{Below};
ghost use Rattle.run_column.specs.Column.{over_pivot, Rewritten};

use crate::FlagCount;
use run_stretch::first_above;

// The entries of a column below the pivot are divided by it. Counts the multipliers that are not zero.
pub fn divide(part: &mut [f64], pivot: f64, flag: usize) -> FlagCount
    ensures { (part.new ≡ map (over_pivot pivot) part.old) × (result.flag ≡ flagged flag (all finite part.new)) × (result.count ≡ nonzeros part.new) × (result.count ≤ length part.old) }
{
    let mut bad = flag;
    let mut count = 0;
    let mut q = 0;
    while q < part.len() {
        let v = part[q];
        let mut m = v / pivot;
        if v == 0.0 {
            m = v;
        }
        part[q] = m;
        if m - m != 0.0 {
            bad = 1;
        }
        if m != 0.0 {
            count += 1;
        }
        q += 1;
    }
    FlagCount { flag: bad, count }
}

// How many numbers are not zero.
pub fn count_nonzero(values: &[f64]) -> usize
    ensures { (result ≡ nonzeros values.now) × (result ≤ length values.now) }
{
    let mut count = 0;
    let mut q = 0;
    while q < values.len() {
        if values[q] != 0.0 {
            count += 1;
        }
        q += 1;
    }
    count
}

// The right side follows: off the place of each row, its multiplier times the pivot row's place.
pub fn reduce_right(x: &mut [f64], rows: &[usize], factors: &[f64], k: usize, flag: usize) -> usize
    requires { (length factors.now ≡ length rows.now) × (1 ≤ k) × (k ≤ length x.old) × Ascending 1 rows.now × Below (suc (length x.old)) rows.now }
    ensures { (f m : ℕ → Float) → x.old ≡ map f (upto (length x.old)) → factors.now ≡ map m rows.now → Rewritten f (λ i. less_product (m i) (f k) (f i)) rows.now (length x.old) flag x.new result }
{
    let top = x[k - 1];
    let mut bad = flag;
    let mut t = 0;
    while t < rows.len() {
        let i = rows[t];
        let m = factors[t];
        let old = x[i - 1];
        let mut new = old - m * top;
        if m == 0.0 {
            new = old;
        }
        x[i - 1] = new;
        if new - new != 0.0 {
            bad = 1;
        }
        t += 1;
    }
    bad
}

// The diagonal: off the place of each row that has one there, its multiplier times the pivot row's entry in that column. Every such row is a
// column of the pivot row.
pub fn reduce_diagonal(
    d: &mut [f64],
    rows: &[usize],
    factors: &[f64],
    columns: &[usize],
    values: &[f64],
    flag: usize,
) -> usize
    requires { (length factors.now ≡ length rows.now) × (length values.now ≡ length columns.now) × Ascending 1 rows.now × Ascending 0 columns.now
        × ((i : ℕ) → member i rows.now ≡ true → i ≤ length d.old → member i columns.now ≡ true) }
    ensures { (f m u : ℕ → Float) → d.old ≡ map f (upto (length d.old)) → factors.now ≡ map m rows.now → values.now ≡ map u columns.now
        → Rewritten f (λ i. reduced (m i) (u i) (f i)) (with_diagonal (length d.old) rows.now) (length d.old) flag d.new result }
{
    let mut bad = flag;
    let mut s = 0;
    let mut t = 0;
    while t < rows.len() {
        let i = rows[t];
        // Rows ascend: from the first one above n on, none has a place here.
        if d.len() < i {
            return bad;
        }
        let m = factors[t];
        s = first_above(columns, s, i - 1);
        let u = values[s];
        let old = d[i - 1];
        let mut new = old - m * u;
        if m == 0.0 {
            new = old;
        }
        if u == 0.0 {
            new = old;
        }
        d[i - 1] = new;
        if new - new != 0.0 {
            bad = 1;
        }
        t += 1;
    }
    bad
}
