// Work stores: numbers copied, laid out by their subscripts, and cleared again.
ghost use Rattle.std.specs.Prelude.{◌≡◌, ◌≤◌, length, take};
ghost use Rattle.run_slots.specs.Handing.{Clear};
ghost use Rattle.run_stretch.specs.Stretches.{Below};
ghost use Rattle.run_stretch.specs.Work.{ClearBut, Spread};

// Numbers are copied to the front of a store.
pub fn copy_in(to: &mut [f64], from: &[f64])
    requires { length from.now ≤ length to.old }
    ensures { take (length from.now) to.new ≡ from.now }
{
    let mut i = 0;
    while i < from.len() {
        to[i] = from[i];
        i += 1;
    }
}

// Values are laid out in a clear work store by their subscripts.
pub fn spread(dense: &mut [f64], subs: &[usize], values: &[f64])
    requires { (length values.now ≡ length subs.now) × Below (length dense.old) subs.now × Clear dense.old }
    ensures { Spread subs.now values.now dense.new }
{
    let mut i = 0;
    while i < subs.len() {
        let x = subs[i];
        dense[x] = values[i];
        i += 1;
    }
}

// A work store is cleared at some subscripts.
pub fn clear_at(dense: &mut [f64], subs: &[usize])
    requires { Below (length dense.old) subs.now × ClearBut subs.now dense.old }
    ensures { Clear dense.new }
{
    let mut i = 0;
    while i < subs.len() {
        let x = subs[i];
        dense[x] = 0.0;
        i += 1;
    }
}
