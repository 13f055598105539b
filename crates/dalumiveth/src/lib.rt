// The library for callers in other languages: each open call on numbers and slices alone, exported by name.
//
// In C a slice is a pointer and then its length in elements. Every function takes any lengths and any numbers, and has the contract of the call that it makes;
// the answer is told in numbers, in the store `answer` and by what is returned. docs/CALLS.md has a table for each function.
#![tactic(auto)]

mod choices;
pub mod loaded;
pub mod offset_read;
pub mod offset_written;
pub mod planned;
pub mod printed;
pub mod ran;
pub mod tallied;
pub mod verified;
