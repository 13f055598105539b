// A list and the stores of its side: how much of it stands at their end already, how the rest is written, and whether it stands there.
#![tactic(auto)]

mod compare;
mod share;
mod write;

pub use compare::{sole_followed, stands_at};
pub use share::shared_end;
pub use write::{Placed, follow_sole, write_rest};
