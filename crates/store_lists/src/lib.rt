// Functions on plain stores: clearing them, merging lists in them, chains, places. They know nothing of a plan.
#![tactic(auto)]

mod chains;
mod clear;
mod places;
mod unions;
mod walking;

pub use chains::{push, row_reads, step_reads};
pub use clear::{clear_chains, clear_side, clear_work};
pub use places::list_at;
pub use unions::{append, merge_in};
pub use walking::{Chain, walk};
