//! Which parts are on a stand, and when: the slots of each stand, kept so that those at given
//! minutes are found by binary search. It doesn't know which stands exclude each other.
#![tactic(auto)]

mod index;
mod one_stand;
mod search;
mod slot_list;

pub use index::StandIndex;
