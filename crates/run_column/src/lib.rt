// What a step does beside the two sides: the multipliers of column k, the right side, the diagonal, and how many updates the step makes.
#![tactic(auto)]

ghost use Rattle.run_column.specs.Column.{ColumnAsks, ColumnLeaves};

mod loops;

// A step's flag, 1 once something is not finite, and a count: of numbers that are not zero, or of updates.
#[derive(Clone, Copy)]
pub struct FlagCount {
    pub flag: usize,
    pub count: usize,
}

// Column k below the pivot is divided; the right side and the diagonal follow. Counts the step's updates: every multiplier that is not zero
// meets every entry of the pivot row that is not zero.
pub fn reduce_column(
    part: &mut [f64],
    rows: &[usize],
    columns: &[usize],
    row: &[f64],
    d: &mut [f64],
    x: &mut [f64],
    k: usize,
) -> FlagCount
    requires { ColumnAsks part.old rows.now columns.now row.now d.old x.old k }
    ensures { (w : ColumnAsks part.old rows.now columns.now row.now d.old x.old k) → ColumnLeaves _ _ _ _ _ _ _ part.new d.new x.new result.flag result.count w }
{
    let pivot = d[k - 1];
    let made = loops::divide(part, pivot, 0);
    let right = loops::reduce_right(x, rows, part, k, made.flag);
    let bad = loops::reduce_diagonal(d, rows, part, columns, row, right);
    let count = loops::count_nonzero(row);
    FlagCount {
        flag: bad,
        count: made.count * count,
    }
}
