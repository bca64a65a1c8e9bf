//! The records of a text of comma-separated values, one after the other. It knows nothing of what
//! they mean.
#![tactic(auto)]

mod records;

pub use records::{read_row, start};
