//! What a run of the program is given by tests: the two files of the demo airport, the first
//! requests of a desk with their replies, the words of a command line, files on a shelf, and the
//! room of a disk.
#![tactic(auto)]

mod inputs;

pub use inputs::{ADDED, AIRPORT, FIRST, ROOM, STANDS, TYPES, shelf_file, words};
