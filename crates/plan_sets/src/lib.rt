// The report's 2.5.
#![tactic(auto)]

mod updating;

pub use updating::update_sets;
