//! The first day of a plan, and the days counted from it. It knows nothing else of apron.
#![tactic(auto)]

mod day;
mod text;

pub use day::{Date, month_day, plan_date};
pub use text::date_in;
