// What is at the front of the bytes that have come.
ghost use Rattle.std.specs.Prelude.{◌≡◌, ◌+◌, ◌<◌, ◌^◌, length};
ghost use Rattle.httparse.specs.Grammar.{RequestHead};
ghost use Rattle.httparse.specs.Spans.{IsRequestAt, IsRequestWithin};
ghost use Rattle.http_framing.specs.Fronts.{ArePartsOf, IsFront};

use crate::bodies::{RequestRefusal, body_length};
use crate::closing::asks_close;
use crate::fields::{FieldNumber, FieldText, field_number, field_text};
use crate::heads::{HeadFront, MAX_FIELDS, head_front, window_of};
use httparse::spans::{EMPTY_HEADER_SPAN, HeaderSpan, RequestSpans};

/// What is at the front of the bytes that have come. Bytes that follow change no answer except
/// `Partial`.
#[derive(Clone, Copy, Debug)]
pub enum Front<'b> {
    /// A whole request.
    Whole(RequestParts<'b>),
    /// A request that is not whole yet, or nothing but empty lines.
    Partial,
    /// It can't become a request, whatever bytes follow.
    Malformed(RequestRefusal),
}

/// The parts of a whole request.
#[derive(Clone, Copy, Debug)]
pub struct RequestParts<'b> {
    /// The method, as it is written.
    pub method: &'b [u8],
    /// The target, as it is written.
    pub target: &'b [u8],
    /// The number that the only field `X-Seen` writes.
    pub seen: FieldNumber,
    /// What the fields `X-Desk` say.
    pub desk: FieldText<'b>,
    pub body: &'b [u8],
    /// Whether the session ends after the request.
    pub closes: bool,
    /// How many bytes the request has, head and body.
    pub length: usize,
}

/// What is at the front of the bytes.
pub(crate) fn front_of(bytes: &[u8]) -> Front<'_>
    ensures is { IsFront bytes.now result }
{
    let window = window_of(bytes);
    let mut fields = [EMPTY_HEADER_SPAN; MAX_FIELDS];
    match head_front(window, &mut fields) {
        HeadFront::Partial => Front::Partial,
        HeadFront::Bad => Front::Malformed(RequestRefusal::Head),
        HeadFront::Whole(spans) => match body_length(window, &fields, &spans) {
            Err(why) => Front::Malformed(why),
            Ok(length) => {
                let behind = &bytes[spans.len..];
                if length <= behind.len() {
                    Front::Whole(request_parts(window, &fields, &spans, &behind[..length]))
                } else {
                    Front::Partial
                }
            }
        },
    }
}

/// The parts of the request with this body, whose head has these spans of a window.
fn request_parts<'b>(
    window: &'b [u8],
    fields: &[HeaderSpan],
    spans: &RequestSpans,
    body: &'b [u8],
) -> RequestParts<'b>
    requires inside { IsRequestWithin window.now fields.now spans.now }
    requires short { spans.now.len + length body.now < 2 ^ 64 }
    ensures parts { (head : RequestHead) → IsRequestAt window.now fields.now spans.now head
        → ArePartsOf (record { head = head; body = body.now }) result }
{
    let fields = &fields[..spans.headers];
    RequestParts {
        method: spans.method.of(window),
        target: spans.path.of(window),
        seen: field_number(window, fields, b"x-seen"),
        desk: field_text(window, fields, b"x-desk"),
        body,
        closes: spans.version == 0 || asks_close(window, fields),
        length: spans.len + body.len(),
    }
}
