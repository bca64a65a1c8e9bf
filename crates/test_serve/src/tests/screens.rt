// Screens beside desks.
use super::{DONE, failing_listener, journal, listener, shelf, told};
use apron_base::{ListListener, ListSink, ListSource, Memory};
use apron_serve::serve_all;
use std::alloc::Global;
use std::sync::Wait;
use std::test::Fail;
use std::thread::Threads;
use test_support::{FIRST, STANDS, words};
use watch_list::{Shown, Watches};

// The charts of the first day: of the empty plan, with a visit that has no stand, and with it on
// N1.
const CHARTS: [&[u8]; 3] = [
    b"STAND CHART APR 2026-03-27 VERSION 0\nN1     ................................................................................................\nPARTS\nUNPLACED\nALARMS\nEND\n",
    b"STAND CHART APR 2026-03-27 VERSION 1\nN1     ................................................................................................\nPARTS\nUNPLACED\n1.1 A320 1/1000-1/1100\nALARMS\nEND\n",
    b"STAND CHART APR 2026-03-27 VERSION 2\nN1     ........................................=====...................................................\nPARTS\nN1     1.1 A320 1/1000-1/1100 planned\nUNPLACED\nALARMS\nEND\n",
];

// The words, how many screens there are beside one desk, each with one connection; and the result.
#[derive(Clone, Copy)]
struct Row {
    words: &'static str,
    screens: usize,
    status: u8,
    line: &'static [u8],
}

const SHOWN: Row = Row {
    words: "serve A T 1 screen 1",
    screens: 1,
    status: 0,
    line: b"",
};

const USAGE: Row = Row {
    status: 2,
    line: b"usage\n",
    ..SHOWN
};

const ROWS: [Row; 14] = [
    SHOWN,
    Row {
        screens: 8,
        ..SHOWN
    },
    Row {
        words: "serve A T 1 screen 3",
        ..SHOWN
    },
    Row {
        words: "serve A T 1",
        screens: 0,
        ..SHOWN
    },
    Row {
        screens: 0,
        ..USAGE
    },
    Row {
        screens: 9,
        ..USAGE
    },
    Row {
        words: "serve A T 1",
        ..USAGE
    },
    Row {
        words: "serve A T 1 screen 0",
        ..USAGE
    },
    Row {
        words: "serve A T 1 screen 4",
        ..USAGE
    },
    Row {
        words: "serve A T 1 screen 01",
        ..USAGE
    },
    Row {
        words: "serve A T 1 screens 1",
        ..USAGE
    },
    Row {
        words: "serve A T 1 screen 99999999999999999999",
        ..USAGE
    },
    // The files are read before it is known which days there are.
    Row {
        words: "serve T T 1 screen 4",
        status: 3,
        line: b"airport file: not toml\n",
        ..SHOWN
    },
    Row {
        words: "serve A T 2 screen 1",
        status: 11,
        line: b"listener fault\n",
        ..SHOWN
    },
];

type Lists = Vec<ListListener<ListSource, ListSink>>;

// This many listeners of one connection each, which send this.
fn listeners(alloc: Global, input: &[u8], count: usize) -> Result<Lists, Memory> {
    let mut all = Vec::new(alloc);
    for _ in 0..count {
        all.push(listener(alloc, input)?)?;
    }
    Ok(all)
}

// Serves a desk that sends the first commands, and these screens. It gives whether the status and
// the printed line are these.
fn are_served<R: Wait + Threads + Sync>(
    rt: &R,
    alloc: Global,
    texts: &str,
    desks: &mut Lists,
    screens: &mut Lists,
    want: (u8, &[u8]),
) -> Result<bool, Memory> {
    let words = words(alloc, texts)?;
    let mut shelf = shelf(alloc, &[])?;
    let mut sink = ListSink::new(alloc, 1_000, Vec::new(alloc))?;
    let watches = Watches::<Shown, Shown>::none(alloc);
    let (status, _disk) = serve_all(
        rt,
        alloc,
        words.as_slice(),
        &watches,
        &mut shelf,
        desks.as_mut_slice(),
        screens.as_mut_slice(),
        &mut sink,
        journal(alloc)?,
    );
    Ok(status == want.0 && sink.bytes() == want.1)
}

// Whether each of these screens was sent a chart of the first day.
fn are_shown(screens: &[ListListener<ListSource, ListSink>]) -> bool {
    screens.iter().all(|screen| CHARTS.contains(&told(screen)))
}

// Whether a desk is answered, and beside it this many screens are shown a chart of its plan.
fn charts_are_shown<R: Wait + Threads + Sync>(
    rt: &R,
    alloc: Global,
    count: usize,
) -> Result<bool, Memory> {
    let mut desks = listeners(alloc, FIRST, 1)?;
    let mut screens = listeners(alloc, b"GET / HTTP/1.1\r\n\r\n", count)?;
    let texts = "serve A T 1 screen 1";
    let is = are_served(rt, alloc, texts, &mut desks, &mut screens, DONE)?;
    let is_answered = match desks.as_slice() {
        [desk] => told(desk) == STANDS,
        _ => false,
    };
    Ok(is && is_answered && are_shown(screens.as_slice()))
}

#[test]
fn a_screen_shows_a_chart_of_the_plan_while_a_desk_works(rt: HostRuntime) -> Result<(), Fail> {
    for round in 0..20 {
        let is = charts_are_shown(&rt, rt.alloc(), 1)?;
        assert!(rt; is, "round {round}");
    }
    Ok(())
}

#[test]
fn eight_screens_show_a_chart_each(rt: HostRuntime) -> Result<(), Fail> {
    let is = charts_are_shown(&rt, rt.alloc(), 8)?;
    assert!(rt; is);
    Ok(())
}

// Whether each of these listeners has finished one connection.
fn have_one(listeners: &[ListListener<ListSource, ListSink>]) -> bool {
    listeners
        .iter()
        .all(|listener| listener.finished().len() == 1)
}

// Whether a worker and a screen take one connection each, if their second accepts fail and more
// connections are to come.
fn take_one_each<R: Wait + Threads + Sync>(rt: &R, alloc: Global) -> Result<bool, Memory> {
    let mut desks = Vec::from_array(alloc, [failing_listener(alloc, FIRST, 3, &[1])?])?;
    let mut screens = Vec::from_array(alloc, [failing_listener(alloc, b"", 3, &[1])?])?;
    let texts = "serve A T 3 screen 1";
    let want: (u8, &[u8]) = (11, b"listener fault\n");
    let is = are_served(rt, alloc, texts, &mut desks, &mut screens, want)?;
    Ok(is && have_one(desks.as_slice()) && have_one(screens.as_slice()))
}

#[test]
fn none_is_taken_after_an_accept_that_failed(rt: HostRuntime) -> Result<(), Fail> {
    let is = take_one_each(&rt, rt.alloc())?;
    assert!(rt; is);
    Ok(())
}

// Whether it ends as the row says.
fn ends<R: Wait + Threads + Sync>(rt: &R, alloc: Global, row: &Row) -> Result<bool, Memory> {
    let mut desks = listeners(alloc, b"", 1)?;
    let mut screens = listeners(alloc, b"", row.screens)?;
    are_served(
        rt,
        alloc,
        row.words,
        &mut desks,
        &mut screens,
        (row.status, row.line),
    )
}

#[test]
fn screens_are_shown_as_the_words_order_or_a_line_says_why_not(
    rt: HostRuntime,
) -> Result<(), Fail> {
    for number in 0..ROWS.len() {
        let is = ends(&rt, rt.alloc(), &ROWS[number])?;
        assert!(rt; is, "row {number}");
    }
    Ok(())
}
