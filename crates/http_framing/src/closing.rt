// Whether a request asks for the end of the session after it.
ghost use Rattle.std.specs.Prelude.{◌≡◌, ◌==◌, map, length, reverse, All};
ghost use Rattle.httparse.specs.Spans.{IsHeaderWithin, header_bytes};
ghost use Rattle.http_framing.specs.Closing.{asks_close as asks_close_lem, has_close as has_close_lem, is_close as is_close_lem, skip_spaces, trim_spaces as trim_spaces_lem};

use crate::fields::is_named;
use httparse::spans::HeaderSpan;

/// Whether a `Connection` field has `close` among its parts.
pub(crate) fn asks_close(bytes: &[u8], fields: &[HeaderSpan]) -> bool
    requires fields { All (IsHeaderWithin (length bytes.now)) fields.now }
    ensures is { result ≡ asks_close_lem (map (header_bytes bytes.now) fields.now) }
{
    for field in fields {
        if is_named(field.name.of(bytes), b"connection") && has_close(field.value.of(bytes)) {
            return true;
        }
    }
    false
}

/// Whether `close`, in any case, is one of the parts of a value between commas. Spaces at the ends
/// of a part don't count.
fn has_close(value: &[u8]) -> bool
    ensures is { result ≡ has_close_lem value.now }
{
    value.split(|byte| *byte == b',').any(|part| is_close(part))
}

/// Whether a part of a value is `close`.
fn is_close(part: &[u8]) -> bool
    ensures is { result ≡ is_close_lem part.now }
{
    is_named(trim_spaces(part), b"close")
}

/// The bytes without the spaces at both ends.
#[tactic(auto, unfolding(crate::specs::Closing::trim_spaces))]
fn trim_spaces(bytes: &[u8]) -> &[u8]
    ensures value { result.now ≡ trim_spaces_lem bytes.now }
{
    trim_end(trim_start(bytes))
}

fn trim_start(bytes: &[u8]) -> &[u8]
    ensures value { result.now ≡ skip_spaces bytes.now }
{
    let mut trimmed = bytes;
    while let [b' ', rest @ ..] = trimmed {
        trimmed = rest;
    }
    trimmed
}

fn trim_end(bytes: &[u8]) -> &[u8]
    ensures value { result.now ≡ reverse (skip_spaces (reverse bytes.now)) }
{
    let mut trimmed = bytes;
    while let [rest @ .., b' '] = trimmed {
        trimmed = rest;
    }
    trimmed
}
