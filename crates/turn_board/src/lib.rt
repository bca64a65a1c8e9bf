//! Threads take turns at one shared value that answers asks and keeps a history, a `Machine`: each
//! has a seat, and each turn is a call with a number of its own. It knows nothing of what is asked.
#![tactic(auto)]

mod board;
mod laws;
mod plays;
mod steps;
mod view;
mod wait;

pub use board::{SHARES, Seat, TurnBoard};
pub use laws::later_histories_go_on_from_earlier_ones;
pub use view::{Call, Start};
