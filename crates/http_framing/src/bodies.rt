// How long the body is that follows a head.
ghost use Rattle.std.specs.Prelude.{◌≡◌, ◌≤◌, map, length, All};
ghost use Rattle.httparse.specs.Grammar.{RequestHead};
ghost use Rattle.httparse.specs.Spans.{IsHeaderWithin, header_bytes, IsRequestAt, IsRequestWithin};
ghost use Rattle.http_framing.specs.Fields.{pairs};
ghost use Rattle.http_framing.specs.Bodies.{length_by_fields};

use crate::fields::{FieldText, field_text};
use apron_base::{MAX_DIGITS, number_of};
use httparse::spans::{HeaderSpan, RequestSpans};

/// The most bytes of a body.
pub const MAX_BODY: usize = 65_536;

/// Why a request is refused. If several reasons hold, the first of these counts: no head, an
/// encoding, a bad length, a large one, none.
#[derive(Clone, Copy, Debug, PartialEq, Eq)]
pub enum RequestRefusal {
    /// No head of at most `MAX_FIELDS` fields and `MAX_HEAD` bytes can come; or there are two
    /// `Content-Length` fields, or the value of the only one is not 1 to 10 digits.
    Head,
    /// There is a `Transfer-Encoding` field.
    Encoding,
    /// The body is longer than `MAX_BODY`.
    Large,
    /// A POST gives no `Content-Length`.
    Length,
}

/// The length of the body after a head, in bytes, or why the head's fields are refused.
pub(crate) fn body_length(
    bytes: &[u8],
    fields: &[HeaderSpan],
    spans: &RequestSpans,
) -> Result<usize, RequestRefusal>
    requires inside { IsRequestWithin bytes.now fields.now spans.now }
    ensures value { (h : RequestHead) → IsRequestAt bytes.now fields.now spans.now h
        → result ≡ length_by_fields h.method (pairs h) }
{
    length_by(bytes, &fields[..spans.headers], spans.method.of(bytes))
}

/// The same by the fields and the method.
fn length_by(bytes: &[u8], fields: &[HeaderSpan], method: &[u8]) -> Result<usize, RequestRefusal>
    requires fields { All (IsHeaderWithin (length bytes.now)) fields.now }
    ensures value { result ≡ length_by_fields method.now (map (header_bytes bytes.now) fields.now) }
{
    let FieldText::Absent = field_text(bytes, fields, b"transfer-encoding") else {
        return Err(RequestRefusal::Encoding);
    };
    match field_text(bytes, fields, b"content-length") {
        FieldText::Absent => if method == b"POST".as_slice() {
            Err(RequestRefusal::Length)
        } else {
            Ok(0)
        },
        FieldText::Written(value) => match number_of(value, MAX_DIGITS) {
            None => Err(RequestRefusal::Head),
            Some(number) => if number <= MAX_BODY as u64 {
                Ok(number as usize)
            } else {
                Err(RequestRefusal::Large)
            },
        },
        FieldText::Twice => Err(RequestRefusal::Head),
    }
}
