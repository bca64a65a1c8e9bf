// The head at the front of some bytes.
ghost use Rattle.std.specs.Prelude.{◌≡◌, ◌≤◌, length, take};
ghost use Rattle.http_framing.specs.Heads.{max_fields, max_head};
ghost use Rattle.http_framing.specs.Fronts.{IsHeadFront};

use httparse::Status;
use httparse::spans::{HeaderSpan, RequestSpans, parse_request};

/// The most bytes of a head, with the empty lines before it.
pub const MAX_HEAD: usize = 8192;

/// The most fields of a head.
pub const MAX_FIELDS: usize = 64;

/// What the head at the front of a window is.
#[derive(Clone, Copy, Debug)]
pub(crate) enum HeadFront {
    Whole(RequestSpans),
    Partial,
    /// No head within the limits can come.
    Bad,
}

/// The bytes within which the longest head must end.
pub(crate) fn window_of(bytes: &[u8]) -> &[u8]
    ensures value { result.now ≡ take max_head bytes.now }
{
    if bytes.len() <= MAX_HEAD {
        bytes
    } else {
        &bytes[..MAX_HEAD]
    }
}

/// Reads the head at the front of a window. The spans of its fields are put at the front of
/// `fields`.
pub(crate) fn head_front(window: &[u8], fields: &mut [HeaderSpan]) -> HeadFront
    requires room { length fields.old ≡ max_fields }
    requires window { length window.now ≤ max_head }
    ensures is { IsHeadFront window.now fields.new result }
{
    match parse_request(window, fields) {
        Ok(Status::Complete(spans)) => HeadFront::Whole(spans),
        Ok(Status::Partial) => if window.len() < MAX_HEAD {
            HeadFront::Partial
        } else {
            HeadFront::Bad
        },
        Err(_) => HeadFront::Bad,
    }
}
