// Desks that ask for feeds.
use super::{AT_0, AT_1, AT_2, DONE, VERSION, are_told, journal, listener, shelf, told};
use apron_base::{ListListener, ListSink, ListSource, Memory, Minute, Name};
use apron_serve::serve_with;
use std::alloc::Global;
use std::sync::Wait;
use std::test::Fail;
use std::thread::Threads;
use test_support::{FIRST, STANDS, words};
use watch_list::{Shown, Watch, Watches};

// What a watch of each note shows.
const ALL: Shown = Shown {
    top_class: 9,
    stand: None,
    from: 0,
    until: Minute::MAX,
};

// What a watch of the classes 0 to 2 shows.
const HIGH: Shown = Shown {
    top_class: 2,
    ..ALL
};

// Two visits are put on N1, and a message has the first one there so long that the second, of class
// 5, loses it. Then the feeds of all classes and of high ones are asked for.
const ASKED: &[u8] =
    b"POST /visits HTTP/1.1\r\nContent-Length: 100\r\n\r\n{\"name\":\"V1\",\"type\":\"A320\",\"class\":1,\"on\":600,\"off\":660,\"arr\":{\"flight\":\"LH123\",\"day\":1},\"dep\":null}POST /visits HTTP/1.1\r\nContent-Length: 78\r\n\r\n{\"name\":\"V2\",\"type\":\"A320\",\"class\":5,\"on\":680,\"off\":740,\"arr\":null,\"dep\":null}POST /commits HTTP/1.1\r\nContent-Length: 125\r\n\r\n{\"desk\":\"D\",\"draft\":1,\"base\":2,\"edits\":[{\"put\":{\"visit\":1,\"part\":1,\"stand\":\"N1\"}},{\"put\":{\"visit\":2,\"part\":1,\"stand\":\"N1\"}}]}POST /mvt HTTP/1.1\r\nContent-Length: 46\r\n\r\nMVT\nLH123/27.DAIQA.MUC\nAD0930/0940 EA1040 APR\nGET /feeds/ALL/0 HTTP/1.1\r\n\r\nGET /feeds/HIGH/0 HTTP/1.1\r\n\r\n";

// The replies to both feeds.
const FED: &[u8] =
    b"HTTP/1.1 200 OK\r\nContent-Type: application/json\r\nContent-Length: 144\r\nX-Version: 4\r\n\r\n{\"bumps\":[{\"blocker\":{\"part\":1,\"visit\":1},\"class\":5,\"entry\":4,\"minute\":680,\"part\":{\"part\":1,\"visit\":2},\"rule\":\"same\",\"stand\":\"N1\"}],\"version\":4}HTTP/1.1 200 OK\r\nContent-Type: application/json\r\nContent-Length: 24\r\nX-Version: 4\r\n\r\n{\"bumps\":[],\"version\":4}";

// The watches ALL and HIGH.
fn watches(alloc: Global) -> Result<Watches<Shown, Shown>, Memory> {
    let mut watches = Watches::new(alloc)?;
    let all = watches.add(Watch::new(Name::literal(b"ALL"), ALL, ALL));
    let high = watches.add(Watch::new(Name::literal(b"HIGH"), HIGH, HIGH));
    if all.is_err() || high.is_err() {
        return Err(Memory);
    }
    Ok(watches)
}

// Serves one connection of each listener with both watches. It gives whether nothing was printed
// and the status is 0.
fn are_served<R: Wait + Threads + Sync>(
    rt: &R,
    alloc: Global,
    listeners: &mut [ListListener<ListSource, ListSink>],
) -> Result<bool, Memory> {
    let words = words(alloc, "serve A T 1")?;
    let mut shelf = shelf(alloc, &[])?;
    let mut sink = ListSink::new(alloc, 1_000, Vec::new(alloc))?;
    let watches = watches(alloc)?;
    let (status, _disk) = serve_with(
        rt,
        alloc,
        words.as_slice(),
        &watches,
        &mut shelf,
        listeners,
        &mut sink,
        journal(alloc)?,
    );
    Ok((status, sink.bytes()) == DONE)
}

// Whether a desk is sent the feeds of both watches.
fn is_fed<R: Wait + Threads + Sync>(rt: &R, alloc: Global) -> Result<bool, Memory> {
    let mut listeners = Vec::from_array(alloc, [listener(alloc, ASKED)?])?;
    let is = are_served(rt, alloc, listeners.as_mut_slice())?;
    let is_told = match listeners.as_slice() {
        [desk] => told(desk).ends_with(FED),
        _ => false,
    };
    Ok(is && is_told)
}

#[test]
fn a_desk_is_fed_the_bumps_that_a_watch_picks(rt: HostRuntime) -> Result<(), Fail> {
    let is = is_fed(&rt, rt.alloc())?;
    assert!(rt; is);
    Ok(())
}

// Whether of two desks, beside which there are watches, one is answered its commands and the other
// a version that there was.
fn both_are_served<R: Wait + Threads + Sync>(rt: &R, alloc: Global) -> Result<bool, Memory> {
    let two = [listener(alloc, FIRST)?, listener(alloc, VERSION)?];
    let mut listeners = Vec::from_array(alloc, two)?;
    let is = are_served(rt, alloc, listeners.as_mut_slice())?;
    let pairs = [(STANDS, AT_0), (STANDS, AT_1), (STANDS, AT_2)];
    Ok(is && are_told(listeners.as_slice(), &pairs))
}

#[test]
fn two_desks_are_served_beside_watches(rt: HostRuntime) -> Result<(), Fail> {
    let is = both_are_served(&rt, rt.alloc())?;
    assert!(rt; is);
    Ok(())
}
