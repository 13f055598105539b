// Stores are cleared before a run, and after a run that stopped.
#![tactic(auto)]

ghost use Rattle.std.specs.Prelude.{◌≡◌, length};
ghost use Rattle.foundation.specs.Answer.{work_store};
ghost use Rattle.foundation.specs.Numbers.{plus_zero};
ghost use Rattle.answers.specs.RunStores.{run_stores};
ghost use Rattle.run_clear.specs.Blanks.{blanked, ClearedIfStopped};

use answers::RunOutcome;
use store_clear::clear;

// Every place of a work store of f64 becomes +0.
pub fn clear_floats(store: &mut [f64])
    ensures { store.new ≡ work_store plus_zero (length store.old) }
{
    store.fill(0.0);
}

// The five result stores are cleared.
pub fn clear_results(
    l: &mut [f64],
    u: &mut [f64],
    d: &mut [f64],
    x: &mut [f64],
    pivots: &mut [usize],
)
    ensures { run_stores l.new u.new d.new x.new pivots.new
        ≡ blanked (run_stores l.old u.old d.old x.old pivots.old) }
{
    l.fill(0.0);
    u.fill(0.0);
    d.fill(0.0);
    x.fill(0.0);
    clear(pivots);
}

// The result stores of a run that stopped are cleared.
pub fn clear_if_stopped(
    outcome: RunOutcome,
    l: &mut [f64],
    u: &mut [f64],
    d: &mut [f64],
    x: &mut [f64],
    pivots: &mut [usize],
)
    ensures { ClearedIfStopped outcome (run_stores l.old u.old d.old x.old pivots.old)
        (run_stores l.new u.new d.new x.new pivots.new) }
{
    let RunOutcome::Stopped(_, _) = outcome else {
        return;
    };
    clear_results(l, u, d, x, pivots);
}
