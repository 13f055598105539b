// The tests before a run, in the table's order: planning's answer about the lent plan with 26 before its 9, then 10, 11 and 12.
#![tactic(auto)]

mod judging;
mod lending;

pub use judging::{Judgement, judge};
