// One step of planning, in lent stores.
#![tactic(auto)]

mod step;

pub use step::{Turned, plan_step};
