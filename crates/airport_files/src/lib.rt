//! An airport, read from its airport file and its type file. It doesn't know where the bytes come
//! from, nor how a fault is printed.
#![tactic(auto)]

mod forms;
mod keys;
mod laws;
mod layout;
mod numbers;
mod read;
mod rows;
mod text;
mod type_rows;
mod types;

pub use laws::files_mean_no_want_of_memory;
pub use read::{FileFault, read_airport};
