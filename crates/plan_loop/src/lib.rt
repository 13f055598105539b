// All steps of planning, in lent stores.
#![tactic(auto)]

mod steps;

pub use steps::{Ended, plan_steps};
