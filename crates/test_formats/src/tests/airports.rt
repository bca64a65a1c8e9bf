// What is told of files where a call of the shelf or of the sink fails.
use apron_base::{ListSink, MapShelf, Memory};
use apron_check::{airport_of, put_counts, put_fault};
use std::alloc::Global;
use std::test::Fail;
use test_support::{AIRPORT, TYPES, shelf_file};

// A type file, how many reads and how many writes succeed, the line, and whether it is written
// whole.
const FAILING: [(&'static str, u64, u64, &'static str, bool); 7] = [
    (TYPES, 9, 99, "ok: 13 stands, 7 types, 3 days\n", true),
    (TYPES, 0, 99, "shelf fault\n", true),
    ("", 1, 99, "shelf fault\n", true),
    (TYPES, 9, 0, "", false),
    (TYPES, 9, 2, "ok: 13", false),
    ("", 9, 1, "type file: record ", false),
    (TYPES, 0, 0, "", false),
];

// Whether this is written for these files if calls fail, and whether it is written whole.
fn is_told(
    alloc: Global,
    airport: &str,
    types: &str,
    fails: (u64, u64),
    told: (&str, bool),
) -> Result<bool, Memory> {
    let files = Vec::from_array(
        alloc,
        [
            shelf_file(alloc, "A", airport.as_bytes())?,
            shelf_file(alloc, "T", types.as_bytes())?,
        ],
    )?;
    let mut shelf = MapShelf::new(files, Vec::from_slice(alloc, &[fails.0])?);
    let mut sink = ListSink::new(alloc, 1000, Vec::from_slice(alloc, &[fails.1])?)?;
    let put = match airport_of(alloc, "A", "T", &mut shelf) {
        Ok(files) => put_counts(&mut sink, &files.airport),
        Err(fault) => put_fault(&mut sink, &fault),
    };
    Ok(sink.bytes() == told.0.as_bytes() && put.is_ok() == told.1)
}

#[test]
fn the_shelf_and_the_sink_may_fail(rt: HostRuntime) -> Result<(), Fail> {
    for (types, reads, puts, line, whole) in FAILING {
        let is = is_told(rt.alloc(), AIRPORT, types, (reads, puts), (line, whole))?;
        assert!(rt; is, "{reads} reads, {puts} writes: {line}");
    }
    Ok(())
}

#[test]
fn no_type_file_is_read_after_an_airport_file_that_is_too_long(
    rt: HostRuntime,
) -> Result<(), Fail> {
    let alloc = rt.alloc();
    let blanks = String::from_utf8(vec![in alloc; b' '; 1_048_577]?).unwrap_or(String::new(alloc));
    let told = ("airport file: too long\n", true);
    let is = is_told(alloc, blanks.as_str(), "", (1, 99), told)?;
    assert!(rt; is);
    Ok(())
}
