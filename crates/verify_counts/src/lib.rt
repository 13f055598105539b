// Two plans' counts compared.
#![tactic(auto)]

mod counts;

pub use counts::same_counts;
