// Replies whose text is a constant. They take no memory.
ghost use Rattle.std.specs.Prelude.{◌≡◌};
ghost use Rattle.desk_words.specs.Fixed.{no_memory_text, keeper_fault_text, bad_encoding_text, bad_head_text, large_body_text, no_length_text};

/// There is no memory.
pub fn no_memory() -> &'static [u8]
    ensures text { result.now ≡ no_memory_text }
{
    b"HTTP/1.1 507 Insufficient Storage\r\nContent-Type: application/json\r\nContent-Length: 18\r\n\r\n{\"error\":\"memory\"}"
}

/// A command could have been accepted, but could not be kept, so it is not in the plan.
pub fn keeper_fault() -> &'static [u8]
    ensures text { result.now ≡ keeper_fault_text }
{
    b"HTTP/1.1 503 Service Unavailable\r\nContent-Type: application/json\r\nContent-Length: 18\r\n\r\n{\"error\":\"keeper\"}"
}

/// The head is malformed, exceeds its limits, or doesn't give a length as it has to. The connection
/// ends.
pub fn bad_head() -> &'static [u8]
    ensures text { result.now ≡ bad_head_text }
{
    b"HTTP/1.1 400 Bad Request\r\nContent-Type: application/json\r\nContent-Length: 16\r\nConnection: close\r\n\r\n{\"error\":\"head\"}"
}

/// The body would come in another way than as bytes of a stated length. The connection ends.
pub fn bad_encoding() -> &'static [u8]
    ensures text { result.now ≡ bad_encoding_text }
{
    b"HTTP/1.1 501 Not Implemented\r\nContent-Type: application/json\r\nContent-Length: 20\r\nConnection: close\r\n\r\n{\"error\":\"encoding\"}"
}

/// The body would be longer than a body may be. The connection ends.
pub fn large_body() -> &'static [u8]
    ensures text { result.now ≡ large_body_text }
{
    b"HTTP/1.1 413 Payload Too Large\r\nContent-Type: application/json\r\nContent-Length: 17\r\nConnection: close\r\n\r\n{\"error\":\"large\"}"
}

/// The length of the body isn't stated. The connection ends.
pub fn no_length() -> &'static [u8]
    ensures text { result.now ≡ no_length_text }
{
    b"HTTP/1.1 411 Length Required\r\nContent-Type: application/json\r\nContent-Length: 18\r\nConnection: close\r\n\r\n{\"error\":\"length\"}"
}
