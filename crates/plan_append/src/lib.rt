// Where a step's list is appended to the last one: one row joins the list of the step before, which ends its store, and only adds behind it.
// Then only what stands behind is looked for, and written or compared. That list is not empty, since its step is in S_k, so it alone says what the
// store ends in: all of it but k is what the new list shares with that end, and nothing where it is [k] alone (docs/DECISIONS.md, 78).
#![tactic(auto)]

mod appended;

pub use appended::{Added, added_columns, added_own, joins_last};
