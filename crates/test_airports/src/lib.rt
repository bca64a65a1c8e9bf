//! Small airports, for tests.
#![tactic(auto)]

mod airports;

pub use airports::{airport_of, empty_parts, on_one_frontage, stand_on_n, type_of_40};
