// The lists of the step at hand: where they lie, and the report's 2.1.
#![tactic(auto)]

mod lying;

pub use lying::{Lies, Lists, begin_lists};
