// The kept list of a step grown by unions, at the front of its growing store.
#![tactic(auto)]

mod grow;

pub use grow::{from_rows, from_steps};
