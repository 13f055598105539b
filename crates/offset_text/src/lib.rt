// The text of an offset: whether it can be read, and the milliarcseconds of its fields.
#![tactic(auto)]

mod fields;
mod form;
mod reading;

pub use fields::size_read;
pub use reading::readable;
