//! What desks may ask.
pub use desk_asks::{Ask, Command, DeskMessage, DeskReport, Entry, EntryKind, What};
