// The report's 2.4.
#![tactic(auto)]

mod collecting;

pub use collecting::collect_steps;
