// The report's 2.2.
#![tactic(auto)]

mod obtaining;

pub use obtaining::obtain_rows;
