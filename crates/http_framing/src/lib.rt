//! How a stream of bytes is cut into HTTP requests.
//!
//! A request is a head, as `httparse` reads it by default, and then as many bytes of body as its
//! `Content-Length` says. A `Transfer-Encoding` is refused. RFC 9112 gives the format; the limits
//! are this project's own. What `httparse` gives stays in this crate. It knows nothing of airports,
//! plans and desks.
#![tactic(auto)]

mod blank;
mod bodies;
mod closing;
mod fields;
mod front;
mod heads;
mod incoming;
mod laws;

pub use bodies::{MAX_BODY, RequestRefusal};
pub use fields::{FieldNumber, FieldText};
pub use front::{Front, RequestParts};
pub use heads::{MAX_FIELDS, MAX_HEAD};
pub use incoming::{Incoming, MAX_PIECE, StreamEnd};
pub use laws::{more_bytes_change_no_request, requests_have_one_reading};
