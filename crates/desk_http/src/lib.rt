//! A session over HTTP: from the bytes of one desk to the bytes for it. It knows nothing of files,
//! of the command line, and of the source and the sink of its bytes.
#![tactic(auto)]

mod alone;
mod answering;
mod feeds;
pub mod laws;
mod names;
mod numbers;
mod port;
mod reading;
mod routes;
mod serving;
mod targets;

pub use alone::Alone;
pub use feeds::session_fed;
pub use port::{DeskPort, Feed, FeedAsk, FeedPort};
pub use serving::session;
