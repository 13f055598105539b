// Searches in ascending lists: where a number stands, and whether one list only adds behind another's end, so that what is joined needs no merge.
#![tactic(auto)]

mod finding;
mod searching;

pub use finding::place_of;
pub use searching::search_behind;
