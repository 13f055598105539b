// What a run is lent: 10, 11, and 12 of the row list.
ghost use Rattle.std.specs.Prelude.{◌≡◌};
ghost use Rattle.lists.specs.Functions.{all};
ghost use Rattle.foundation.specs.Numbers.{finite};
ghost use Rattle.foundation.specs.Pattern.{Lent};
ghost use Rattle.foundation.specs.Plan.{Planning};
ghost use Rattle.foundation.specs.RunCall.{Lending, lending_fits, rows_in_range};
ghost use Rattle.run_judge.specs.Sizes.{Sizes};

// Refusal 10, on numbers alone: values are as many as entries, right side and solution have a place for each row, pivot rows and diagonal n places, and
// the slots are no fewer than planned.
pub fn lending_fits(
    n: usize,
    height: usize,
    entries: usize,
    values: usize,
    right: usize,
    solution: usize,
    pivots: usize,
    diagonal: usize,
    l_places: usize,
    u_places: usize,
    l_planned: usize,
    u_planned: usize,
) -> bool
    ensures { (p : Lent) (s : Planning) (w : Lending) → Sizes p s w n height entries values right solution pivots diagonal l_places u_places l_planned u_planned → result ≡ lending_fits p s w }
{
    if values != entries {
        return false;
    }
    if right != height {
        return false;
    }
    if solution != height {
        return false;
    }
    if pivots != n {
        return false;
    }
    if diagonal != n {
        return false;
    }
    if l_places < l_planned {
        return false;
    }
    u_planned <= u_places
}

// Refusal 11, of the values or of the right side: whether all are finite.
pub fn all_finite(values: &[f64]) -> bool
    ensures { result ≡ all finite values.now }
{
    let mut q = 0;
    while q < values.len() {
        let value = values[q];
        if value - value != 0.0 {
            return false;
        }
        q += 1;
    }
    true
}

// Refusal 12, of the rows: whether p_k is from k to the row count at every step k.
pub fn rows_in_range(height: usize, rows: &[usize]) -> bool
    ensures { result ≡ rows_in_range height 1 rows.now }
{
    let mut k = 0;
    while k < rows.len() {
        let row = rows[k];
        k += 1;
        if row < k {
            return false;
        }
        if height < row {
            return false;
        }
    }
    true
}
