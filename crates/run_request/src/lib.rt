// What a caller asks of a run besides its numbers: whose rows are chosen, and how far the run goes.
#![tactic(auto)]

ghost use Rattle.std.specs.Prelude.{◌≡◌, ◌≤◌, length};
ghost use Rattle.foundation.specs.Reference.{steps_of};
ghost use Rattle.run_slots.specs.Handing.{asked};
ghost use Rattle.answers.specs.Runs.{chosen_by, extent_of};
ghost use Rattle.run_request.specs.Asking.{is_whole};

use answers::{Extent, PivotChoice};

// The row that is asked for at step k: that of the list, or 0 where the largest entry decides.
pub fn row_asked(choice: PivotChoice, rows: &[usize], k: usize) -> usize
    requires { (1 ≤ k) × (choice ≡ PivotChoice.Listed → k ≤ length rows.now) }
    ensures { result ≡ asked (chosen_by choice rows.now) k }
{
    match choice {
        PivotChoice::Listed => rows[k - 1],
        PivotChoice::Largest => 0,
    }
}

// How many steps a run has.
pub fn steps_of(extent: Extent, n: usize) -> usize
    ensures { result ≡ steps_of (extent_of extent) n }
{
    match extent {
        Extent::Whole => n,
        Extent::Cut(steps) => steps,
    }
}

// Whether a run is solved: a whole one is, a cut one, to n steps too, is not.
pub fn solves(extent: Extent) -> bool
    ensures { result ≡ is_whole extent }
{
    match extent {
        Extent::Whole => true,
        Extent::Cut(_) => false,
    }
}
