//! The wall chart: one day of a plan as a text for people. It knows nothing of requests, histories,
//! and heads of replies.
#![tactic(auto)]

mod alarms;
mod cells;
mod dates;
mod parts;
mod rows;
mod slots;
mod times;
mod unplaced;
mod whole;

pub use rows::{push_part, push_rule};
pub use times::{push_number, push_time};
pub use whole::chart;
