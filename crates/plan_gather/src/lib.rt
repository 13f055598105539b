// What the steps of a plan go by: the rows by their least column, the sets S, the lists without the step at hand.
#![tactic(auto)]

mod first;
mod rows;
mod sets;

pub use first::after_first;
pub use rows::chain_rows;
pub use sets::sole_step;
