// The inner loop where the numbers do not stand as one stretch: they are gathered from a work store by their subscripts. Each place is written once
// and by value, as in `stretch`.
ghost use Rattle.std.specs.Prelude.{false, ◌≡◌, length};
ghost use Rattle.lists.specs.Functions.{all};
ghost use Rattle.foundation.specs.Numbers.{is_zero, finite};
ghost use Rattle.run_slots.specs.Flags.{flagged};
ghost use Rattle.run_stretch.specs.Stretches.{reduced_all, gathered, Below};

// The same where the stretch has other subscripts: what is taken off is gathered from a work store.
pub fn reduce_gathered(y: &mut [f64], subs: &[usize], dense: &[f64], m: f64, flag: usize) -> usize
    requires { (length y.old ≡ length subs.now) × (is_zero m ≡ false) × Below (length dense.now) subs.now }
    ensures { (y.new ≡ reduced_all m (gathered dense.now subs.now) y.old) × (result ≡ flagged flag (all finite y.new)) }
{
    let mut bad = flag;
    let mut q = 0;
    while q < y.len() {
        let x = subs[q];
        let u = dense[x];
        let old = y[q];
        let mut new = old - m * u;
        if u == 0.0 {
            new = old;
        }
        y[q] = new;
        if new - new != 0.0 {
            bad = 1;
        }
        q += 1;
    }
    bad
}
