// What the crates of the elimination share: how a step and back substitution end, and the definitions and laws of stores that show a square.
#![tactic(auto)]

// How a step of the elimination ended.
#[derive(Clone, Copy)]
pub enum StepEnd {
    // done, with its pivot row and its updates
    Went(usize, usize),
    // 13: no row may serve as pivot
    NoPivot,
    // 14: a quotient, product or difference is not finite
    NotFinite,
}

// How back substitution ended.
#[derive(Clone, Copy)]
pub enum SolveEnd {
    // every row is solved
    Solved,
    // 14 at this row
    NotFiniteAt(usize),
}
