// Where the two lists of the step at hand lie while the report's 2.1 to 2.5 are carried out. A list is copied only where it has to be.
ghost use Rattle.std.specs.Prelude.{List, ◌≡◌, ℕ, ◌-◌, length};
ghost use Rattle.foundation.specs.Pattern.{Lent, pattern_of};
ghost use Rattle.foundation.specs.Plan.{after, after_initialization};
ghost use Rattle.plan_gather.specs.Steps.{counted_reads};
ghost use Rattle.plan_lists.specs.Lying.{ListsAt};

// Where the kept list of L_k or U_k lies: at the front of its growing store, so many members long; nowhere but in the pattern, being what the one row first met
// brings (in L its number, in U its columns) without k; in its side's own store, as the list of the sole step in S_k less its first member, which is k; or at the
// end of that store, as so many members that stand there and what the one row first met brings from a place on.
#[derive(Clone, Copy)]
pub enum Lies {
    Grown(usize),
    Row,
    Sole(usize),
    Behind(usize, usize),
}

// Both lists of the step at hand, and the reads so far.
#[derive(Clone, Copy)]
pub struct Lists {
    pub lower: Lies,
    pub upper: Lies,
    pub reads: usize,
}

// Report, 2.1: "Local initialization: Set L_k = ∅ and U_k = ∅."
pub fn begin_lists(reads: usize) -> Lists
    ensures { (p : Lent) (k row : ℕ) (lowers uppers : List ℕ) → length lowers ≡ p.height → length uppers ≡ p.height
        → reads ≡ counted_reads p (after (pattern_of p) (k - 1)) (k - 1)
        → ListsAt result p k row (after_initialization (pattern_of p) k) (k - 1) lowers uppers }
{
    Lists {
        lower: Lies::Grown(0),
        upper: Lies::Grown(0),
        reads,
    }
}
