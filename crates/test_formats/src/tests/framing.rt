// What the framing makes of bytes that come from outside.
use http_framing::{FieldNumber, FieldText, Front, Incoming, MAX_PIECE, RequestRefusal, StreamEnd};
use std::alloc::{AllocError, Global};

// What is at the front of some bytes; a whole request by its length.
#[derive(Clone, Copy, Debug, PartialEq, Eq)]
enum Kind {
    Whole(usize),
    Partial,
    Refused(RequestRefusal),
}

// A stream of which these bytes have come, as far as its first request needs them.
fn incoming_of(alloc: Global, bytes: &[u8]) -> Result<Incoming, AllocError> {
    let mut incoming = Incoming::new(alloc)?;
    for piece in bytes.chunks(MAX_PIECE) {
        let Front::Partial = incoming.front() else {
            break;
        };
        incoming.push(piece);
    }
    Ok(incoming)
}

fn kind_of(alloc: Global, bytes: &[u8]) -> Result<Kind, AllocError> {
    let incoming = incoming_of(alloc, bytes)?;
    Ok(match incoming.front() {
        Front::Whole(request) => Kind::Whole(request.length),
        Front::Partial => Kind::Partial,
        Front::Malformed(why) => Kind::Refused(why),
    })
}

// The first text at whose front there is something else.
fn first_other<'t>(alloc: Global, rows: &[(&'t str, Kind)]) -> Option<&'t str> {
    for (text, kind) in rows {
        if kind_of(alloc, text.as_bytes()) != Ok(*kind) {
            return Some(*text);
        }
    }
    None
}

const HEADS: [(&str, Kind); 19] = [
    ("", Kind::Partial),
    ("\r\n\n\r\n", Kind::Partial),
    ("\r", Kind::Partial),
    ("\r\r", Kind::Refused(RequestRefusal::Head)),
    ("\n\r\n\rG", Kind::Refused(RequestRefusal::Head)),
    ("\r\n\nGET / HTTP/1.1\r\n\r\n", Kind::Whole(21)),
    ("GET / HTTP/1.1\n\nX", Kind::Whole(16)),
    ("GET / HTTP/1.0\n\n", Kind::Whole(16)),
    ("GET / HTTP/1.2\n\n", Kind::Refused(RequestRefusal::Head)),
    ("GET / HTTP/2.0\n\n", Kind::Refused(RequestRefusal::Head)),
    ("GET  / HTTP/1.1\n\n", Kind::Refused(RequestRefusal::Head)),
    (" GET / HTTP/1.1\n\n", Kind::Refused(RequestRefusal::Head)),
    ("GET /a", Kind::Partial),
    ("GET / HTTP/1.1\r\na: b\r\n", Kind::Partial),
    (
        "GET / HTTP/1.1\na : b\n\n",
        Kind::Refused(RequestRefusal::Head),
    ),
    (
        "GET / HTTP/1.1\na: b\n c\n\n",
        Kind::Refused(RequestRefusal::Head),
    ),
    ("GET / HTTP/1.1\na:\n\n", Kind::Whole(19)),
    ("get / HTTP/1.1\n\n", Kind::Whole(16)),
    ("post / HTTP/1.1\n\n", Kind::Whole(17)),
];

#[test]
fn heads_that_are_taken_and_refused(rt: HostRuntime) {
    assert_eq!(rt; first_other(rt.alloc(), &HEADS), None);
}

#[test]
fn targets_that_are_no_text(rt: HostRuntime) {
    let kind = kind_of(rt.alloc(), b"GET /\xff HTTP/1.1\n\n");
    assert!(rt; kind == Ok(Kind::Refused(RequestRefusal::Head)));
}

const BODIES: [(&str, Kind); 13] = [
    ("POST / HTTP/1.1\n\n", Kind::Refused(RequestRefusal::Length)),
    ("POST / HTTP/1.1\nContent-Length: 0\n\n", Kind::Whole(35)),
    ("POST / HTTP/1.1\nContent-Length: 3\n\nab", Kind::Partial),
    ("POST / HTTP/1.1\nContent-Length: 3\n\nabc", Kind::Whole(38)),
    (
        "POST / HTTP/1.1\nContent-Length: 3\n\nabcd",
        Kind::Whole(38),
    ),
    (
        "GET / HTTP/1.1\nCONTENT-length:0000000003 \n\nabc",
        Kind::Whole(46),
    ),
    ("GET / HTTP/1.1\nContent-Length: 4\n\nabc", Kind::Partial),
    (
        "GET / HTTP/1.1\nContent-Length: 65536\n\nabc",
        Kind::Partial,
    ),
    (
        "GET / HTTP/1.1\nContent-Length: 65537\n\nabc",
        Kind::Refused(RequestRefusal::Large),
    ),
    (
        "GET / HTTP/1.1\nContent-Length: 9999999999\n\nabc",
        Kind::Refused(RequestRefusal::Large),
    ),
    (
        "GET / HTTP/1.1\nTransfer-Encoding: chunked\n\n",
        Kind::Refused(RequestRefusal::Encoding),
    ),
    (
        "GET / HTTP/1.1\ntransfer-encoding:\n\n",
        Kind::Refused(RequestRefusal::Encoding),
    ),
    ("GET / HTTP/1.1\nTransfer-Encoding: a\n", Kind::Partial),
];

#[test]
fn bodies_that_are_taken_and_refused(rt: HostRuntime) {
    assert_eq!(rt; first_other(rt.alloc(), &BODIES), None);
}

const NO_LENGTHS: [&str; 9] = [
    "POST / HTTP/1.1\nContent-Length:00000000003\n\nabc",
    "POST / HTTP/1.1\nContent-Length: +3\n\nabc",
    "POST / HTTP/1.1\nContent-Length: -3\n\nabc",
    "POST / HTTP/1.1\nContent-Length: 1 2\n\nabc",
    "POST / HTTP/1.1\nContent-Length: 0x3\n\nabc",
    "POST / HTTP/1.1\nContent-Length: 3,3\n\nabc",
    "POST / HTTP/1.1\nContent-Length:\n\nabc",
    "POST / HTTP/1.1\nContent-Length: 3\ncontent-length: 3\n\nabc",
    "GET / HTTP/1.1\nContent-Length: x\n\n",
];

#[test]
fn values_that_are_no_length(rt: HostRuntime) {
    for text in &NO_LENGTHS {
        let kind = kind_of(rt.alloc(), text.as_bytes());
        assert!(rt;
            kind == Ok(Kind::Refused(RequestRefusal::Head)),
            "of {text}"
        );
    }
}

const TWO_REASONS: [(&str, Kind); 6] = [
    (
        "POST / HTTP/1.1\nTransfer-Encoding: a\nno field\n\n",
        Kind::Refused(RequestRefusal::Head),
    ),
    (
        "POST / HTTP/1.1\nTransfer-Encoding: a\n\n",
        Kind::Refused(RequestRefusal::Encoding),
    ),
    (
        "POST / HTTP/1.1\nContent-Length: x\nTransfer-Encoding: a\n\n",
        Kind::Refused(RequestRefusal::Encoding),
    ),
    (
        "POST / HTTP/1.1\nContent-Length: 65537\nTransfer-Encoding: a\n\n",
        Kind::Refused(RequestRefusal::Encoding),
    ),
    (
        "POST / HTTP/1.1\nContent-Length: 65537\nContent-Length: 1\n\n",
        Kind::Refused(RequestRefusal::Head),
    ),
    (
        "POST / HTTP/1.1\nContent-Length: 00000065537\n\n",
        Kind::Refused(RequestRefusal::Head),
    ),
];

#[test]
fn of_two_reasons_the_first_counts(rt: HostRuntime) {
    assert_eq!(rt; first_other(rt.alloc(), &TWO_REASONS), None);
}

// Whether the session ends after a request, if the request is whole.
fn closes(alloc: Global, text: &str) -> Option<bool> {
    let incoming = incoming_of(alloc, text.as_bytes()).ok()?;
    match incoming.front() {
        Front::Whole(request) => Some(request.closes),
        _ => None,
    }
}

const CLOSINGS: [(&str, bool); 17] = [
    ("GET / HTTP/1.1\n\n", false),
    ("GET / HTTP/1.0\n\n", true),
    ("GET / HTTP/1.0\nConnection: keep-alive\n\n", true),
    ("GET / HTTP/1.1\nConnection: close\n\n", true),
    ("GET / HTTP/1.1\nCONNECTION:Close\n\n", true),
    ("GET / HTTP/1.1\nConnection: keep-alive, close\n\n", true),
    ("GET / HTTP/1.1\nConnection: a ,  CLOSE  ,x\n\n", true),
    ("GET / HTTP/1.1\nConnection: ,,close,\n\n", true),
    ("GET / HTTP/1.1\nConnection: a\nConnection: close\n\n", true),
    ("GET / HTTP/1.1\nConnection: \tclose\n\n", true),
    ("GET / HTTP/1.1\nConnection: a,\tclose\n\n", false),
    ("GET / HTTP/1.1\nConnection: closed\n\n", false),
    ("GET / HTTP/1.1\nConnection: close;q\n\n", false),
    ("GET / HTTP/1.1\nConnection: clo se\n\n", false),
    ("GET / HTTP/1.1\nConnection: keep-alive\n\n", false),
    ("GET / HTTP/1.1\nConnection:\n\n", false),
    ("GET / HTTP/1.1\nConnections: close\n\n", false),
];

#[test]
fn after_which_request_the_session_ends(rt: HostRuntime) {
    for (text, want) in &CLOSINGS {
        assert!(rt; closes(rt.alloc(), text) == Some(*want), "after {text}");
    }
}

// The number that the fields `X-Seen` of a request write, if the request is whole.
fn seen(alloc: Global, text: &str) -> Option<FieldNumber> {
    let incoming = incoming_of(alloc, text.as_bytes()).ok()?;
    match incoming.front() {
        Front::Whole(request) => Some(request.seen),
        _ => None,
    }
}

const NUMBERS: [(&str, FieldNumber); 14] = [
    ("GET / HTTP/1.1\n\n", FieldNumber::Absent),
    ("GET / HTTP/1.1\nX-Seem: 1\n\n", FieldNumber::Absent),
    ("GET / HTTP/1.1\nX-Seen: 0\n\n", FieldNumber::Written(0)),
    ("GET / HTTP/1.1\nx-sEEN:  12 \n\n", FieldNumber::Written(12)),
    (
        "GET / HTTP/1.1\nA: b\nX-Seen: 007\nC: 3\n\n",
        FieldNumber::Written(7),
    ),
    (
        "GET / HTTP/1.1\nX-Seen: 9999999999\n\n",
        FieldNumber::Written(9_999_999_999),
    ),
    (
        "GET / HTTP/1.1\nX-Seen: 00000000001\n\n",
        FieldNumber::Wrong,
    ),
    ("GET / HTTP/1.1\nX-Seen:\n\n", FieldNumber::Wrong),
    ("GET / HTTP/1.1\nX-Seen: +1\n\n", FieldNumber::Wrong),
    ("GET / HTTP/1.1\nX-Seen: -1\n\n", FieldNumber::Wrong),
    ("GET / HTTP/1.1\nX-Seen: 1 2\n\n", FieldNumber::Wrong),
    (
        "GET / HTTP/1.1\nX-Seen: 1\nX-Seen: 1\n\n",
        FieldNumber::Wrong,
    ),
    (
        "GET / HTTP/1.1\nX-Seen: 1\nA: b\nx-seen: 2\n\n",
        FieldNumber::Wrong,
    ),
    (
        "GET / HTTP/1.1\nX-Seen: 1\nX-Seen: a\n\n",
        FieldNumber::Wrong,
    ),
];

#[test]
fn numbers_that_fields_write(rt: HostRuntime) {
    for (text, want) in &NUMBERS {
        assert!(rt; seen(rt.alloc(), text) == Some(*want), "of {text}");
    }
}

// Whether the fields `X-Desk` of a whole request say this.
fn is_desk(alloc: Global, text: &str, want: FieldText<'_>) -> bool {
    match incoming_of(alloc, text.as_bytes()) {
        Ok(incoming) => match incoming.front() {
            Front::Whole(request) => request.desk == want,
            _ => false,
        },
        Err(_) => false,
    }
}

const DESKS: [(&str, FieldText<'static>); 9] = [
    ("GET / HTTP/1.1\n\n", FieldText::Absent),
    ("GET / HTTP/1.1\nX-Disk: A\n\n", FieldText::Absent),
    (
        "GET / HTTP/1.1\nX-Desk: A-1\n\n",
        FieldText::Written(b"A-1"),
    ),
    (
        "GET / HTTP/1.1\nx-dESK: \t NORTH \t\n\n",
        FieldText::Written(b"NORTH"),
    ),
    ("GET / HTTP/1.1\nX-DESK:a b\n\n", FieldText::Written(b"a b")),
    ("GET / HTTP/1.1\nX-Desk:\n\n", FieldText::Written(b"")),
    (
        "GET / HTTP/1.1\nX-Seen: 7\nX-Desk: A\nHost: B\n\n",
        FieldText::Written(b"A"),
    ),
    ("GET / HTTP/1.1\nX-Desk: A\nX-Desk: A\n\n", FieldText::Twice),
    (
        "GET / HTTP/1.1\nX-Desk: A\nHost: B\nx-desk:\nX-DESK: C\n\n",
        FieldText::Twice,
    ),
];

#[test]
fn desks_that_fields_name(rt: HostRuntime) {
    for (text, want) in &DESKS {
        assert!(rt; is_desk(rt.alloc(), text, *want), "of {text}");
    }
}

#[test]
fn parts_of_a_request(rt: HostRuntime) {
    let text = b"\r\nPOST /visits?a HTTP/1.1\r\nHost: x\r\nContent-Length: 2\r\n\r\n{}GET";
    let incoming = incoming_of(rt.alloc(), text).expect(&rt, "memory");
    let are_read = match incoming.front() {
        Front::Whole(request) => {
            request.method == b"POST".as_slice()
                && request.target == b"/visits?a".as_slice()
                && request.body == b"{}".as_slice()
                && !request.closes
        }
        _ => false,
    };
    assert!(rt; are_read);
}

// What is at the front of a head of this many fields and then the end.
fn kind_of_fields(alloc: Global, count: usize, end: &[u8]) -> Result<Kind, AllocError> {
    let mut text = b"GET / HTTP/1.1\n".to_vec(alloc)?;
    for _ in 0..count {
        text.extend_from_slice(b"a: b\n")?;
    }
    text.extend_from_slice(end)?;
    kind_of(alloc, &text)
}

const FIELDS: [(usize, &[u8], Kind); 5] = [
    (64, b"\n", Kind::Whole(336)),
    (64, b"", Kind::Partial),
    (64, b"a", Kind::Partial),
    (65, b"", Kind::Refused(RequestRefusal::Head)),
    (65, b"\n", Kind::Refused(RequestRefusal::Head)),
];

#[test]
fn sixty_four_fields_are_taken(rt: HostRuntime) {
    for (count, end, want) in FIELDS {
        assert_eq!(rt; kind_of_fields(rt.alloc(), count, end), Ok(want));
    }
}

// What is at the front of a head with a field whose value has this many bytes. The head is 20 bytes
// longer.
fn kind_of_value(alloc: Global, length: usize) -> Result<Kind, AllocError> {
    let mut text = b"GET / HTTP/1.1\nx: ".to_vec(alloc)?;
    for _ in 0..length {
        text.push(b'y')?;
    }
    text.extend_from_slice(b"\n\n")?;
    kind_of(alloc, &text)
}

const LENGTHS: [(usize, Kind); 4] = [
    (8171, Kind::Whole(8191)),
    (8172, Kind::Whole(8192)),
    (8173, Kind::Refused(RequestRefusal::Head)),
    (8174, Kind::Refused(RequestRefusal::Head)),
];

#[test]
fn heads_of_8192_bytes_are_taken(rt: HostRuntime) {
    for (length, want) in LENGTHS {
        assert_eq!(rt; kind_of_value(rt.alloc(), length), Ok(want));
    }
}

// How a stream of these bytes ends, if they are neither refused nor a whole request.
fn end_of(alloc: Global, text: &str) -> Option<StreamEnd> {
    let incoming = incoming_of(alloc, text.as_bytes()).ok()?;
    match incoming.front() {
        Front::Partial => Some(incoming.end()),
        _ => None,
    }
}

const ENDS: [(&str, Option<StreamEnd>); 8] = [
    ("", Some(StreamEnd::Ended)),
    ("\r", Some(StreamEnd::Ended)),
    ("\r\n\n\r", Some(StreamEnd::Ended)),
    ("\n\n", Some(StreamEnd::Ended)),
    ("\r\r", None),
    ("\r\r\n", None),
    ("\n ", None),
    ("G", Some(StreamEnd::Cut)),
];

#[test]
fn empty_lines_are_between_requests(rt: HostRuntime) {
    for (text, want) in &ENDS {
        assert!(rt; end_of(rt.alloc(), text) == *want, "after {text:?}");
    }
}
