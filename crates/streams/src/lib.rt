#![tactic(auto)]

// What the programs do over any reader and any writer: reading until a store is full, reading values from their bytes, printing numbers and stores, and ending
// where no more requests are served.
mod digits;
mod halts;
mod input;
mod output;
mod places;
mod sums;
mod values;

pub use digits::{Decimal, Digits, Hexadecimal};
pub use halts::{Halt, finish};
pub use input::{read_full, read_request, read_text};
pub use output::{write_decimal, write_hex};
pub use places::{Bits, all_zero, write_places};
pub use sums::checksum_with;
pub use values::{FromBytes, fill, read_part};
