// Whether the stores of a side of a lent plan contain the list of a step, all steps before it having been found equal.
#![tactic(auto)]

mod finding;
mod kept_lists;

pub use finding::{find_lower, find_upper};
pub use kept_lists::Verified;
