//! Tests of `apron_base`, `tcp_desks`, `journal_disk` and `system_files`: sources and sinks, shelves,
//! keepers, listeners and journals, in memory and over the system.
#![tactic(auto)]

mod memory_file;
#[cfg(test)]
mod tests;

pub use memory_file::{Held, MemoryFile};
