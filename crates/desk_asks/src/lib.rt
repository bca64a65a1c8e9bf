//! What desks may ask: the commands that change the plan, and questions about it; and the entries in
//! which a history keeps commands. It doesn't know what is answered.
#![tactic(auto)]

mod asks;

pub use asks::{Ask, Command, DeskMessage, DeskReport, Entry, EntryKind, What};
