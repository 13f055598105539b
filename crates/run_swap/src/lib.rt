// Where slots lie, and slots that change places: what the exchange of two rows is made of.
#![tactic(auto)]

mod places;
mod swapping;

pub use places::offset_from;
pub use swapping::{swap, swap_before, swap_beyond, swap_within};
