// Bytes that are empty lines.
ghost use Rattle.std.specs.Prelude.{◌≡◌};
ghost use Rattle.http_framing.specs.Blank.{is_blank};

/// Whether the bytes are empty lines, of which the last may lack its LF. If a stream ends with
/// fewer than `MAX_HEAD` such bytes, it ends between requests.
pub(crate) fn are_blank(bytes: &[u8]) -> bool
    ensures is { result ≡ is_blank bytes.now }
{
    let mut after_cr = false;
    for byte in bytes {
        if *byte == b'\n' {
            after_cr = false;
        } else if *byte == b'\r' && !after_cr {
            after_cr = true;
        } else {
            return false;
        }
    }
    true
}
