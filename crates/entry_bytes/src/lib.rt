//! The entries of a history as bytes, both ways. It doesn't know where the bytes are kept, nor
//! which entries are legal at which place of a history.
#![tactic(auto)]

mod commits;
mod entries;
mod faults;
mod former;
mod keys;
mod laws;
mod messages;
mod new_visits;
mod reader;
mod reports;
mod writing;

pub use entries::{decode_entry, encode_entry};
pub use faults::EntryFault;
pub use former::convert_entry;
pub use laws::{entries_are_short, entries_differ, faults_are_one};
