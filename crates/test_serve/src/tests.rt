// Many desks at once at a small airport, over a journal in memory.
mod beside;
mod feeds;
mod over_tcp;
mod screens;
mod statuses;

use apron_base::{ListListener, ListSink, ListSource, MapShelf, Memory};
use apron_run::run;
use apron_serve::serve;
use desk_workers::Workplace;
use journal_disk::{Disk, MemoryDisk};
use std::alloc::Global;
use std::sync::Wait;
use std::test::Fail;
use std::thread::Threads;
use test_support::{FIRST, ROOM, STANDS, shelf_file, words};

// The airport file: one stand.
const AIRPORT: &str = r#"frontage = [ { name = "N", objects = [] } ]
stand = [ { name = "N1", frontage = "N", centre = 4000, letter = "C", buffer = 10 } ]
pair = []

[airport]
station = "APR"
first_day = "2026-03-27"
days = 3
taxi_in = 5
tow = 20
"#;

// The type file: one type.
const TYPES: &str = "type,span,least\nA320,3580,40\n";

const VERSION: &[u8] = b"GET /version HTTP/1.1\r\nX-Seen: 0\r\n\r\n";

const AT_0: &[u8] =
    b"HTTP/1.1 200 OK\r\nContent-Type: application/json\r\nContent-Length: 13\r\nX-Version: 0\r\n\r\n{\"version\":0}";

const AT_1: &[u8] =
    b"HTTP/1.1 200 OK\r\nContent-Type: application/json\r\nContent-Length: 13\r\nX-Version: 1\r\n\r\n{\"version\":1}";

const AT_2: &[u8] =
    b"HTTP/1.1 200 OK\r\nContent-Type: application/json\r\nContent-Length: 13\r\nX-Version: 2\r\n\r\n{\"version\":2}";

const AT_3: &[u8] =
    b"HTTP/1.1 200 OK\r\nContent-Type: application/json\r\nContent-Length: 13\r\nX-Version: 3\r\n\r\n{\"version\":3}";

// Two visits at the same minutes are added.
const BOTH: &[u8] =
    b"POST /visits HTTP/1.1\r\nContent-Length: 78\r\n\r\n{\"name\":\"V1\",\"type\":\"A320\",\"class\":3,\"on\":600,\"off\":660,\"arr\":null,\"dep\":null}POST /visits HTTP/1.1\r\nContent-Length: 78\r\n\r\n{\"name\":\"V2\",\"type\":\"A320\",\"class\":3,\"on\":600,\"off\":660,\"arr\":null,\"dep\":null}";

// The first of them is put on the stand by desk A, and the second by desk B.
const BY_A: &[u8] =
    b"POST /commits HTTP/1.1\r\nContent-Length: 83\r\n\r\n{\"desk\":\"A\",\"draft\":1,\"base\":2,\"edits\":[{\"put\":{\"visit\":1,\"part\":1,\"stand\":\"N1\"}}]}";

const BY_B: &[u8] =
    b"POST /commits HTTP/1.1\r\nContent-Length: 83\r\n\r\n{\"desk\":\"B\",\"draft\":1,\"base\":2,\"edits\":[{\"put\":{\"visit\":2,\"part\":1,\"stand\":\"N1\"}}]}";

const CLASH: &[u8] =
    b"HTTP/1.1 422 Unprocessable Entity\r\nContent-Type: application/json\r\nContent-Length: 106\r\nX-Version: 3\r\n\r\n{\"a\":{\"part\":1,\"visit\":1},\"b\":{\"part\":1,\"visit\":2},\"error\":\"clash\",\"minute\":600,\"rule\":\"same\",\"version\":3}";

// The status and the line of a serving that nothing goes wrong in.
const DONE: (u8, &[u8]) = (0, b"");

// The two files, by the names `A` and `T`.
fn shelf(alloc: Global, failing: &[u64]) -> Result<MapShelf, Memory> {
    let files = Vec::from_array(
        alloc,
        [
            shelf_file(alloc, "A", AIRPORT.as_bytes())?,
            shelf_file(alloc, "T", TYPES.as_bytes())?,
        ],
    )?;
    Ok(MapShelf::new(files, failing.to_vec(alloc)?))
}

// What the program prints for these words and this input, on this disk.
fn printed<D: Disk>(
    alloc: Global,
    texts: &str,
    input: &[u8],
    disk: &mut D,
) -> Result<Vec<u8>, Memory> {
    let mut shelf = shelf(alloc, &[])?;
    let mut source = ListSource::new(input.to_vec(alloc)?, Vec::new(alloc), Vec::new(alloc));
    let mut sink = ListSink::new(alloc, 200_000, Vec::new(alloc))?;
    let words = words(alloc, texts)?;
    let _status = run(
        alloc,
        words.as_slice(),
        &mut shelf,
        &mut source,
        &mut sink,
        disk,
    );
    Ok(sink.bytes().to_vec(alloc)?)
}

// A disk that has a journal of the two files with no entry.
fn journal(alloc: Global) -> Result<MemoryDisk, Memory> {
    let mut disk = MemoryDisk::new(alloc, Vec::new(alloc), ROOM, Vec::new(alloc))?;
    printed(alloc, "init A T", b"", &mut disk)?;
    Ok(disk)
}

// A listener of this many connections that send this, whose accepts of these numbers fail.
fn failing_listener(
    alloc: Global,
    input: &[u8],
    count: usize,
    failing: &[u64],
) -> Result<ListListener<ListSource, ListSink>, Memory> {
    let mut to_come = Vec::new(alloc);
    for _ in 0..count {
        let source = ListSource::new(input.to_vec(alloc)?, Vec::new(alloc), Vec::new(alloc));
        to_come.push((source, ListSink::new(alloc, 10_000, Vec::new(alloc))?))?;
    }
    Ok(ListListener::new(alloc, to_come, failing.to_vec(alloc)?)?)
}

// A listener of one connection that sends this.
fn listener(alloc: Global, input: &[u8]) -> Result<ListListener<ListSource, ListSink>, Memory> {
    failing_listener(alloc, input, 1, &[])
}

// What the first connection of a listener was sent.
fn told(listener: &ListListener<ListSource, ListSink>) -> &[u8] {
    match listener.finished() {
        [first, ..] => first.sink.bytes(),
        [] => &[],
    }
}

// Whether the journal on this disk is at the version that this reply shows.
fn is_at<D: Disk>(alloc: Global, disk: &mut D, version: &[u8]) -> Result<bool, Memory> {
    Ok(printed(alloc, "desk A T", VERSION, disk)?.as_slice() == version)
}

// Serves at these listeners. It gives whether the status and the printed line are these, and the
// disk.
fn served<L: Workplace + Send, D: Disk + Drop + Send, R: Wait + Threads + Sync>(
    rt: &R,
    alloc: Global,
    texts: &str,
    shelf: &mut MapShelf,
    listeners: &mut [L],
    disk: D,
    want: (u8, &[u8]),
) -> Result<(bool, D), Memory> {
    let words = words(alloc, texts)?;
    let mut sink = ListSink::new(alloc, 1_000, Vec::new(alloc))?;
    let (status, disk) = serve(
        rt,
        alloc,
        words.as_slice(),
        shelf,
        listeners,
        &mut sink,
        disk,
    );
    Ok((status == want.0 && sink.bytes() == want.1, disk))
}

// Whether two listeners of one connection each were sent one of these pairs of replies.
fn are_told(listeners: &[ListListener<ListSource, ListSink>], pairs: &[(&[u8], &[u8])]) -> bool {
    match listeners {
        [one, two] => pairs.contains(&(told(one), told(two))),
        _ => false,
    }
}

// Two desks at once, each over a connection of its own: whether they get one of these pairs of
// replies, and the version afterwards is this one.
fn both_are_told<R: Wait + Threads + Sync>(
    rt: &R,
    alloc: Global,
    inputs: (&[u8], &[u8]),
    disk: MemoryDisk,
    pairs: &[(&[u8], &[u8])],
    version: &[u8],
) -> Result<bool, Memory> {
    let mut shelf = shelf(alloc, &[])?;
    let two = [listener(alloc, inputs.0)?, listener(alloc, inputs.1)?];
    let mut listeners = Vec::from_array(alloc, two)?;
    let (is_done, mut disk) = served(
        rt,
        alloc,
        "serve A T 1",
        &mut shelf,
        listeners.as_mut_slice(),
        disk,
        DONE,
    )?;
    let is = is_done && are_told(listeners.as_slice(), pairs);
    Ok(is && is_at(alloc, &mut disk, version)?)
}

#[test]
fn a_desk_that_asks_the_version_is_told_one_that_there_was(rt: HostRuntime) -> Result<(), Fail> {
    let alloc = rt.alloc();
    let pairs = [(STANDS, AT_0), (STANDS, AT_1), (STANDS, AT_2)];
    let is = both_are_told(&rt, alloc, (FIRST, VERSION), journal(alloc)?, &pairs, AT_2)?;
    assert!(rt; is);
    Ok(())
}

// Whether, of two desks that want the one stand at once, one is accepted and the other gets the
// clash.
fn one_gets_the_stand<R: Wait + Threads + Sync>(rt: &R, alloc: Global) -> Result<bool, Memory> {
    let mut disk = journal(alloc)?;
    printed(alloc, "desk A T", BOTH, &mut disk)?;
    let pairs = [(AT_3, CLASH), (CLASH, AT_3)];
    both_are_told(rt, alloc, (BY_A, BY_B), disk, &pairs, AT_3)
}

#[test]
fn of_two_desks_at_once_one_gets_the_stand(rt: HostRuntime) -> Result<(), Fail> {
    for round in 0..20 {
        let is = one_gets_the_stand(&rt, rt.alloc())?;
        assert!(rt; is, "round {round}");
    }
    Ok(())
}
