// Desks that take turns at one board, each with a seat of its own.
ghost use Rattle.std.specs.Prelude.{◌≡◌, ◌≤◌, IfOk};
ghost use Rattle.history_core.specs.History.{IsAskOf};

use apron_base::{Acted, Listed, Name, StandNo, SteadyKeeper, TypeNo, VisitNo};
use apron_rules::Airport;
use desk_asks::{Ask, Command, What};
use history_core::Board;
use std::alloc::Global;
use std::sync::Wait;
use std::test::Fail;
use test_airports::{on_one_frontage, stand_on_n, type_of_40};
use turn_board::TurnBoard;
use visit_book::{Draft, Edit, NewVisit, is_in_time};

mod threads;

const SECOND_ADDED: &[u8] =
    b"HTTP/1.1 200 OK\r\nContent-Type: application/json\r\nContent-Length: 23\r\nX-Version: 2\r\n\r\n{\"version\":2,\"visit\":2}";

const AT_SECOND: &[u8] =
    b"HTTP/1.1 200 OK\r\nContent-Type: application/json\r\nContent-Length: 13\r\nX-Version: 2\r\n\r\n{\"version\":2}";

const AT_THIRD: &[u8] =
    b"HTTP/1.1 200 OK\r\nContent-Type: application/json\r\nContent-Length: 13\r\nX-Version: 3\r\n\r\n{\"version\":3}";

const CLASH: &[u8] =
    b"HTTP/1.1 422 Unprocessable Entity\r\nContent-Type: application/json\r\nContent-Length: 106\r\nX-Version: 3\r\n\r\n{\"a\":{\"part\":1,\"visit\":1},\"b\":{\"part\":1,\"visit\":2},\"error\":\"clash\",\"minute\":600,\"rule\":\"same\",\"version\":3}";

// One stand, N1, and one type, A320.
fn airport(alloc: Global) -> Result<Airport, Fail> {
    on_one_frontage(
        alloc,
        Vec::from_array(alloc, [stand_on_n(Name::literal(b"N1"), 4_000)])?,
        Vec::from_array(alloc, [type_of_40(Name::literal(b"A320"))])?,
    )
}

// An ask to add an A320 of this name, from 600 to 660.
fn addition(airport: &Airport, name: Name) -> Result<Ask, Fail>
    ensures valid { IfOk result (IsAskOf airport.now) }
{
    let new = NewVisit {
        name,
        kind: TypeNo(0),
        class: 3,
        on: 600,
        off: 660,
        arr: None,
        dep: None,
    };
    if airport.parts().types.len() == 0 || !is_in_time(airport, &new) {
        return Err(Fail::new("a visit"));
    }
    Ok(asked(What::Change(Command::AddVisit(new))))
}

// The desk's first draft, over version 2, puts the part of this visit on the stand.
fn put(alloc: Global, airport: &Airport, desk: Name, visit: VisitNo) -> Result<Ask, Fail>
    ensures valid { IfOk result (IsAskOf airport.now) }
{
    if airport.parts().stands.len() == 0 {
        return Err(Fail::new("a stand"));
    }
    let edit = Edit::Put {
        visit,
        part: 1,
        stand: StandNo(0),
    };
    let edits = Vec::from_array(alloc, [edit])?;
    Ok(asked(What::Change(Command::Commit(Draft {
        desk,
        number: 1,
        base: 2,
        edits: Listed::from_vec(edits),
    }))))
}

fn asked(what: What) -> Ask
    ensures is { result ≡ record { seen = 0; what = what } }
{
    Ask { seen: 0, what }
}

// A board at which this was asked.
fn board_after<'a>(
    alloc: Global,
    airport: &'a Airport,
    ask: &Ask,
) -> Result<Board<'a, SteadyKeeper>, Fail>
    requires valid { IsAskOf airport.now ask.now }
    ensures airport { IfOk result (λ board. board.airport ≡ airport.entry.now) }
    ensures next { IfOk result (λ board. board.next ≡ 2) }
{
    let keeper = SteadyKeeper::new(alloc, Vec::new(alloc));
    let Ok(mut board) = Board::open(alloc, airport, keeper, Vec::new(alloc)) else {
        return Err(Fail::new("memory"));
    };
    board.ask(alloc, 1, ask);
    Ok(board)
}

fn is_told(answer: Acted, text: &[u8]) -> bool {
    match answer {
        Acted::Reply(bytes) => bytes.as_slice() == text,
        _ => false,
    }
}

// The replies to two seats, asked one after the other; then the reply about the version to one that
// has met the other; and how many entries the closed board has.
#[derive(Clone, Copy)]
struct Want<'t> {
    first: &'t [u8],
    second: &'t [u8],
    version: &'t [u8],
    entries: usize,
}

fn is_met<R: Wait>(
    rt: &R,
    alloc: Global,
    board: Board<SteadyKeeper>,
    first: &Ask,
    second: &Ask,
    want: &Want,
) -> bool
    requires next { board.next ≤ 3 }
    requires first { IsAskOf board.airport first.now }
    requires second { IsAskOf board.airport second.now }
{
    let Ok((turns, mut one)) = TurnBoard::new(alloc, board) else {
        return false;
    };
    let mut two = turns.split(&mut one);
    let first_is = is_told(turns.ask(rt, alloc, &mut one, first), want.first);
    let second_is = is_told(turns.ask(rt, alloc, &mut two, second), want.second);
    turns.meet(&mut one, two);
    let version_is = is_told(
        turns.ask(rt, alloc, &mut one, &asked(What::Version)),
        want.version,
    );
    let entries = turns.close(one).history().len();
    first_is && second_is && version_is && entries == want.entries
}

// A board of two visits, at which two desks want the one stand.
fn second_is_refused<R: Wait>(rt: &R, alloc: Global, airport: &Airport) -> Result<bool, Fail> {
    let first = put(alloc, airport, Name::literal(b"A"), VisitNo(1))?;
    let second = put(alloc, airport, Name::literal(b"B"), VisitNo(2))?;
    let more = addition(airport, Name::literal(b"V2"))?;
    let mut board = board_after(alloc, airport, &addition(airport, Name::literal(b"V1"))?)?;
    board.ask(alloc, 2, &more);
    let want = Want {
        first: AT_THIRD,
        second: CLASH,
        version: AT_THIRD,
        entries: 3,
    };
    Ok(is_met(rt, alloc, board, &first, &second, &want))
}

// A board of one visit, at which a desk adds another.
fn added_is_found<R: Wait>(rt: &R, alloc: Global, airport: &Airport) -> Result<bool, Fail> {
    let second = addition(airport, Name::literal(b"V2"))?;
    let board = board_after(alloc, airport, &addition(airport, Name::literal(b"V1"))?)?;
    let want = Want {
        first: SECOND_ADDED,
        second: AT_SECOND,
        version: AT_SECOND,
        entries: 2,
    };
    Ok(is_met(rt, alloc, board, &second, &asked(What::Version), &want))
}

#[test]
fn of_two_desks_the_second_is_refused_the_stand(rt: HostRuntime) -> Result<(), Fail> {
    let airport = airport(rt.alloc())?;
    let is = second_is_refused(&rt, rt.alloc(), &airport)?;
    assert!(rt; is);
    Ok(())
}

#[test]
fn a_desk_finds_the_visit_that_another_added(rt: HostRuntime) -> Result<(), Fail> {
    let airport = airport(rt.alloc())?;
    let is = added_is_found(&rt, rt.alloc(), &airport)?;
    assert!(rt; is);
    Ok(())
}
