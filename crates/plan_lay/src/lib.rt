// The lists of a step laid into their stores (report, section 3.1).
#![tactic(auto)]

mod laying;

pub use laying::{lay_lower, lay_upper};
