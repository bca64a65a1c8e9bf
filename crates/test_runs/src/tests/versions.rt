// The version that a desk on a journal tells.
use super::runs::{DEMO, Run};
use apron_base::Memory;
use std::alloc::Global;

/// The request for the version.
pub(super) const VERSION: &[u8] = b"GET /version HTTP/1.1\r\n\r\n";

/// The reply to it at version 0.
pub(super) const AT_NONE: &str =
    "HTTP/1.1 200 OK\r\nContent-Type: application/json\r\nContent-Length: 13\r\nX-Version: 0\r\n\r\n{\"version\":0}";

/// At version 1.
pub(super) const AT_ONE: &str =
    "HTTP/1.1 200 OK\r\nContent-Type: application/json\r\nContent-Length: 13\r\nX-Version: 1\r\n\r\n{\"version\":1}";

/// At version 2.
pub(super) const AT_TWO: &str =
    "HTTP/1.1 200 OK\r\nContent-Type: application/json\r\nContent-Length: 13\r\nX-Version: 2\r\n\r\n{\"version\":2}";

/// At version 3.
pub(super) const AT_THREE: &str =
    "HTTP/1.1 200 OK\r\nContent-Type: application/json\r\nContent-Length: 13\r\nX-Version: 3\r\n\r\n{\"version\":3}";

/// The replies to it by the version.
pub(super) const TOLD: [&str; 4] = [AT_NONE, AT_ONE, AT_TWO, AT_THREE];

/// Whether a desk on this journal answers the input with the output, and ends with status 0. `Err`
/// if there is no memory.
pub(super) fn is_told_on<'a>(
    alloc: Global,
    journal: &'a [u8],
    input: &'a [u8],
    output: &str,
) -> Result<bool, Memory> {
    let run = Run {
        input,
        is_new: false,
        stored: journal,
        ..DEMO
    };
    Ok(run.ends(alloc)?.is(output.as_bytes(), 0))
}
