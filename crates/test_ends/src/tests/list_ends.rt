// Sources and sinks in memory.
use apron_base::{Failed, ListSink, ListSource, Sink, Source};
use std::test::Fail;

// What reads of up to three bytes give, one after the other.
const READS: [Result<usize, Failed>; 7] = [
    Ok(2),
    Err(Failed),
    Ok(1),
    Ok(3),
    Err(Failed),
    Ok(1),
    Ok(0),
];

#[test]
fn reads_come_in_pieces_and_fail_as_told(rt: HostRuntime) -> Result<(), Fail> {
    let alloc = rt.alloc();
    let bytes = Vec::from_slice(alloc, b"abcdefg")?;
    let pieces = Vec::from_slice(alloc, &[2, 0])?;
    let fails = Vec::from_slice(alloc, &[4, 1])?;
    let mut source = ListSource::new(bytes, pieces, fails);
    let mut into = [0; 3];
    for want in READS {
        assert_eq!(rt; source.read(&mut into), want);
    }
    Ok(())
}

// Pieces, one after the other, whether each is put, and what was written by then.
const PUTS: [(&str, bool, &str); 6] = [
    ("abc", true, "abc"),
    ("de", false, "abc"),
    ("def", false, "abc"),
    ("de", true, "abcde"),
    ("", true, "abcde"),
    ("f", false, "abcde"),
];

#[test]
fn puts_fill_the_room_and_fail_as_told(rt: HostRuntime) -> Result<(), Fail> {
    let alloc = rt.alloc();
    let mut sink = ListSink::new(alloc, 5, Vec::from_slice(alloc, &[1])?)?;
    for (piece, want, told) in PUTS {
        let is_put = sink.put(piece.as_bytes()).is_ok();
        assert!(rt;
            is_put == want && sink.bytes() == told.as_bytes(),
            "at {piece}"
        );
    }
    Ok(())
}
