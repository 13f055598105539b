// Stores of numbers that are cleared: those of every part.
#![tactic(auto)]

mod numbers;

pub use numbers::clear;
