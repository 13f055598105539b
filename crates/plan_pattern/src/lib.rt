// Judging what a call is lent: refusals 1 to 6 and 25.
#![tactic(auto)]

mod judge;

pub use judge::{lengths_fit, pattern_fault, refusal_of};
