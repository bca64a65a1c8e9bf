//! A generated day: visits of randomly drawn types and times, put on randomly drawn stands of one
//! airport and delayed by messages; a board is asked to make each change. It is for measuring and
//! comparing: it says nothing of real days, and knows nothing of files, desks and command lines.
#![tactic(auto)]

mod airport;
mod asks;
mod counts;
mod draws;
mod laws;
mod making;
mod making_steps;
mod making_visits;
mod summary;

pub use laws::limit_of_visits_is_as_defined;
pub use making_visits::{MAX_MADE, make_day};
pub use summary::{Summary, summary_line};
