// Back substitution in the slots: the solution of the rows, from the last to the first.
#![tactic(auto)]

ghost use Rattle.std.specs.Prelude.{◌≡◌, length};
ghost use Rattle.foundation.specs.Numbers.{quotient};
ghost use Rattle.answers.specs.Stores.{side_stores};
ghost use Rattle.run_slots.specs.Handing.{SolveAsks, SolveLeaves};
ghost use Rattle.run_solve.specs.Rows.{less_all, Columns};

use run_slots::SolveEnd;
use store_place::list_place;

// One row solved: its number less u × solution for each u that is not zero, columns ascending, then divided by the diagonal. A difference or product
// that is not finite shows in the quotient, so nothing is tested on the way.
fn solved_row(row: &[f64], subs: &[usize], x: &[f64], own: f64, diagonal: f64) -> f64
    requires { (length row.now ≡ length subs.now) × Columns (length x.now) subs.now }
    ensures { result ≡ quotient (less_all row.now subs.now x.now own) diagonal }
{
    let mut value = own;
    let mut q = 0;
    while q < row.len() {
        let u = row[q];
        let j = subs[q];
        let known = x[j - 1];
        let mut next = value - u * known;
        if u == 0.0 {
            next = value;
        }
        value = next;
        q += 1;
    }
    value / diagonal
}

// Back substitution: x goes in with the right side and comes out with the solution, unless a row's is not finite.
pub fn solve(
    n: usize,
    subs: &[usize],
    starts: &[usize],
    slots: &[usize],
    u: &[f64],
    d: &[f64],
    x: &mut [f64],
) -> SolveEnd
    requires { SolveAsks n (side_stores subs.now starts.now slots.now) u.now d.now x.old }
    ensures { (w : SolveAsks n (side_stores subs.now starts.now slots.now) u.now d.now x.old) → SolveLeaves result n _ _ _ _ x.new w }
{
    let mut i = n;
    while 0 < i {
        let above = i - 1;
        let place = list_place(starts, slots, i);
        let from = place.from.0;
        let to = place.to.0;
        let slot = place.slot.0;
        let next = place.next.0;
        let own = x[above];
        let value = solved_row(&u[slot..next], &subs[from..to], x, own, d[above]);
        if value - value != 0.0 {
            return SolveEnd::NotFiniteAt(i);
        }
        x[above] = value;
        i = above;
    }
    SolveEnd::Solved
}
