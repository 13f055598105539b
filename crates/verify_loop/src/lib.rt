// All steps of a lent plan compared with a pattern's plan.
#![tactic(auto)]

mod steps;

pub use steps::{Compared, verify_steps};
