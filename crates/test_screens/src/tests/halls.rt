// What the screens of a hall see after it was asked something.
ghost use Rattle.std.specs.Prelude.{◌≡◌, IfOk};

mod asks;
mod writers;

use airport_files::read_airport;
use apron_base::{Memory, SteadyKeeper};
use apron_rules::Airport;
use asks::{Deed, Shows, reply_to};
use history_core::Board;
use screen_feed::Screen;
use shown_board::Hall;
use std::alloc::Global;
use std::sync::Wait;
use std::test::Fail;
use test_support::{AIRPORT, TYPES};
use watch_list::{Shown, WatchBoard, Watches};
use writers::writers_of;

/// A hall whose writers show these days, what it is asked, and the version that its screens then
/// see.
#[derive(Clone, Copy, Debug)]
struct Row {
    name: &'static str,
    days: &'static [u32],
    deeds: &'static [Deed],
    version: u32,
}

const ROWS: [Row; 7] = [
    Row {
        name: "nothing was asked",
        days: &[1],
        deeds: &[],
        version: 0,
    },
    Row {
        name: "a visit was added and put on N1",
        days: &[1],
        deeds: &[Deed::Add, Deed::Put],
        version: 2,
    },
    Row {
        name: "the same with two screens",
        days: &[1, 1],
        deeds: &[Deed::Add, Deed::Put],
        version: 2,
    },
    Row {
        name: "the same with screens of several days",
        days: &[1, 3, 1, 2, 2],
        deeds: &[Deed::Add, Deed::Put],
        version: 2,
    },
    Row {
        name: "a feed adds nothing",
        days: &[1, 1],
        deeds: &[Deed::Add, Deed::Feed],
        version: 1,
    },
    Row {
        name: "what is refused adds nothing",
        days: &[1, 1],
        deeds: &[Deed::Put, Deed::Add, Deed::Add],
        version: 1,
    },
    Row {
        name: "no screen",
        days: &[],
        deeds: &[Deed::Add, Deed::Put],
        version: 2,
    },
];

// Whether the text is the body of the reply.
fn is_body(reply: &[u8], text: &[u8]) -> bool {
    !text.is_empty()
        && reply
            .strip_suffix(text)
            .is_some_and(|head| head.ends_with(b"\r\n\r\n"))
}

// Whether the screen sees this version, with the chart of its day as the board replies it.
fn sees<W: Wait>(
    alloc: Global,
    airport: &Airport,
    hall: &mut Shows<'_, '_, '_, W>,
    screen: &mut Screen,
    day: u32,
    version: u32,
) -> bool
    requires airport { hall.old.board.board.airport ≡ airport.now }
    ensures airport { hall.new.board.board.airport ≡ airport.now }
{
    let Some(reply) = reply_to(alloc, airport, hall, &Deed::Chart(day)) else {
        return false;
    };
    match screen.look() {
        Ok(sheet) => sheet.version() == version && is_body(reply.as_slice(), sheet.text()),
        Err(_) => false,
    }
}

// Whether there is a reply to each of these.
fn are_replied<W: Wait>(
    alloc: Global,
    airport: &Airport,
    hall: &mut Shows<'_, '_, '_, W>,
    deeds: &[Deed],
) -> bool
    requires airport { hall.old.board.board.airport ≡ airport.now }
    ensures airport { hall.new.board.board.airport ≡ airport.now }
{
    for deed in deeds {
        if reply_to(alloc, airport, hall, deed).is_none() {
            return false;
        }
    }
    true
}

// Whether there is a screen for each day, and all see what the row says.
fn are_seen<W: Wait>(
    alloc: Global,
    airport: &Airport,
    hall: &mut Shows<'_, '_, '_, W>,
    screens: &mut [Screen],
    row: &Row,
) -> bool
    requires airport { hall.old.board.board.airport ≡ airport.now }
{
    if screens.len() != row.days.len() {
        return false;
    }
    for index in 0..row.days.len() {
        let day = row.days[index];
        if !sees(alloc, airport, hall, &mut screens[index], day, row.version) {
            return false;
        }
    }
    true
}

fn board_of<'w, 'a>(
    alloc: Global,
    airport: &'a Airport,
    watches: &'w Watches<Shown, Shown>,
) -> Result<WatchBoard<'w, 'a, SteadyKeeper, Shown, Shown>, Fail>
    ensures airport { IfOk result (λ board. board.board.airport ≡ airport.entry.now) }
{
    let keeper = SteadyKeeper::new(alloc, Vec::new(alloc));
    let Ok(board) = Board::open(alloc, airport, keeper, Vec::new(alloc)) else {
        return Err(Fail::new("a board"));
    };
    match WatchBoard::new(alloc, airport, board, watches) {
        Ok(board) => Ok(board),
        Err(_) => Err(Fail::new("memory")),
    }
}

// Whether a hall of the row shows what it says, and missed nothing.
fn is_shown<W: Wait>(rt: &W, alloc: Global, airport: &Airport, row: &Row) -> Result<bool, Fail> {
    let watches = match Watches::new(alloc) {
        Ok(watches) => watches,
        Err(Memory) => return Err(Fail::new("memory")),
    };
    let board = board_of(alloc, airport, &watches)?;
    let mut screens = Vec::new(alloc);
    let writers = writers_of(rt, alloc, airport, &board, row.days, &mut screens);
    let mut hall = Hall::new(rt, board, writers);
    let replied = are_replied(alloc, airport, &mut hall, row.deeds);
    let seen = are_seen(alloc, airport, &mut hall, screens.as_mut_slice(), row);
    let missed = hall.missed();
    let version = hall.into_board().board().plan().version();
    Ok(replied && seen && !missed && version == row.version)
}

#[test]
fn screens_see_the_chart_of_the_plan_after_each_ask(rt: HostRuntime) -> Result<(), Fail> {
    let Ok(airport) = read_airport(rt.alloc(), AIRPORT.as_bytes(), TYPES.as_bytes()) else {
        return Err(Fail::new("an airport"));
    };
    for row in &ROWS {
        let holds = is_shown(&rt, rt.alloc(), &airport, row)?;
        assert!(rt; holds, "{}", row.name);
    }
    Ok(())
}
