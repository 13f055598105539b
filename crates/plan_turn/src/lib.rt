// The report's 2.1 to 2.5 in their order, for planning and for verifying: the lists of a step, and the sets S behind it.
#![tactic(auto)]

mod turn;

pub use turn::step_lists;
