//! Serves screens, one look a connection, beside the desks of the same board. It knows nothing of
//! the command line and of files, nor of where connections come from.
#![tactic(auto)]

mod look;
mod shown;
mod walls;
mod writers;

pub use shown::{ShownEnd, Task, serve_hall, serve_watched};
