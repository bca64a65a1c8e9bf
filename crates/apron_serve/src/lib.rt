//! Many desks at once, each on a connection of its own, at one board over one journal, and beside
//! them screens that show the board's plan: what the words `serve A T N` and
//! `serve A T N screen DAY` ask for. It knows nothing of where connections come from.
#![tactic(auto)]

mod board;
mod program;
mod words;

pub use program::{serve, serve_all, serve_with};
pub use words::{
    MAX_CONNECTIONS, MAX_LISTENERS, MAX_SCREENS, connections_of, limits_are_as_defined,
};
