// Document 01's numbers: of each answer, the list of numbers that it is for a caller in another language, written into a store that the caller lends; and
// numbers that such a caller gives, as the types that the calls take.
//
// Every function takes any numbers and stores of any length.
#![tactic(auto)]

mod counters;
mod counting;
mod laying;
mod reading;
mod refusals;
mod signs;
mod telling;

pub use counters::put_counters;
pub use counting::count_numbers;
pub use laying::{put, put_bytes, put_refusal};
pub use reading::{counts_from, extent_from};
pub use refusals::{NumberAndStep, number_and_step, number_of};
pub use signs::{minus_of, size_of};
pub use telling::{
    tell_load, tell_offset, tell_plan, tell_run, tell_tally, tell_verify, tell_written,
};
