//! Desks that come over TCP: the system's listener as a `Listener`, and for how long a peer may do
//! nothing. It knows nothing of what is read and written, and its contracts tell nothing of that.
#![tactic(auto)]

mod limits;
mod listening;
mod taking;
mod timed;

pub use limits::{MOST_SECONDS, TimeLimits};
pub use listening::{TcpDesks, TcpEnds};
pub use taking::{Doorway, Reporter, take_next};
pub use timed::{TimedReader, TimedWriter};
