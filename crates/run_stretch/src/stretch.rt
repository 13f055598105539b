// Inner loops: m times one stretch of numbers is taken off another. Each place is written once and by value, also where nothing is taken off,
// and what is not finite sets a flag: no branch, no stop inside a row.
ghost use Rattle.std.specs.Prelude.{true, false, ◌≡◌, ◌<◌, length, get_or};
ghost use Rattle.lists.specs.Functions.{all};
ghost use Rattle.foundation.specs.Numbers.{is_zero, finite};
ghost use Rattle.run_slots.specs.Flags.{flagged};
ghost use Rattle.run_stretch.specs.Stretches.{reduced_all, gathered};
ghost use Rattle.run_stretch.specs.Crossing.{Crossing};

use crate::gather::reduce_gathered;

// m times the stretch w is taken off the stretch y, where w is not zero.
pub fn reduce_stretch(y: &mut [f64], w: &[f64], m: f64, flag: usize) -> usize
    requires { (length y.old ≡ length w.now) × (is_zero m ≡ false) }
    ensures { (y.new ≡ reduced_all m w.now y.old) × (result ≡ flagged flag (all finite y.new)) }
{
    let mut bad = flag;
    let mut q = 0;
    while q < y.len() {
        let u = w[q];
        let old = y[q];
        let mut new = old - m * u;
        if u == 0.0 {
            new = old;
        }
        y[q] = new;
        if new - new != 0.0 {
            bad = 1;
        }
        q += 1;
    }
    bad
}

// m times the numbers of the list `over` is taken off those of the list `own`, in which it lies with its first member at place o. Where its last
// member stands as far behind the first in both, all members between are equal, and no subscript is read.
pub fn reduce_from(
    y: &mut [f64],
    own: &[usize],
    over: &[usize],
    values: &[f64],
    dense: &[f64],
    m: f64,
    o: usize,
    flag: usize,
) -> usize
    requires { (length y.old ≡ length own.now) × (is_zero m ≡ false) × Crossing own.now over.now values.now dense.now × (0 < length over.now) × (o < length own.now) × (get_or own.now o 0 ≡ get_or over.now 0 0) × (all finite y.old ≡ true) }
    ensures { (y.new ≡ reduced_all m (gathered dense.now own.now) y.old) × (result ≡ flagged flag (all finite y.new)) }
{
    let c = over.len();
    let e = o + c;
    if e <= own.len() {
        if own[e - 1] == over[c - 1] {
            return reduce_stretch(&mut y[o..e], values, m, flag);
        }
    }
    let n = own.len();
    reduce_gathered(&mut y[o..n], &own[o..n], dense, m, flag)
}
