//! Movement messages: reading their texts, and writing the canonical ones. It knows nothing of
//! plans and visits.
#![tactic(auto)]

mod bytes;
mod clocks;
mod flights;
mod laws;
mod message;
mod pieces;
mod readable;
mod reading;
mod words;
mod writing;

pub use flights::read_flight;
pub use laws::{
    canonical_texts_are_read_back, canonical_texts_are_short, canonical_texts_tell_messages_apart,
    flights_are_read_back, reading_gives_readable_messages,
};
pub use message::{Clock, Flight, Mvt, MvtFault};
pub use readable::{is_flight, is_readable};
pub use reading::read_mvt;
pub use writing::{push_flight, write_mvt};
