// A board with two writers.
ghost use Rattle.std.specs.Prelude.{◌≡◌, IfOk, IfSome};
ghost use Rattle.history_core.specs.History.{IsAskOf};

use apron_base::{Acted, CALL_END, Listed, Minute, Name, StandNo, SteadyKeeper, TypeNo, VisitNo};
use apron_rules::Airport;
use desk_asks::{Ask, Command, What};
use history_core::Board;
use plan_core::Plan;
use screen_feed::{Screen, ScreenWriter, Told};
use std::alloc::Global;
use std::marker::Model;
use std::sync::Wait;
use std::test::Fail;
use visit_book::{Draft, Edit, NewVisit, is_in_time};

/// A board of the airport, and two writers for its first day. Contracts see which pairs the writers
/// are of.
pub(super) struct Stage<'a> {
    board: Board<'a, SteadyKeeper>,
    one: ScreenWriter,
    two: ScreenWriter,
}

impl<'a> Model for Stage<'a> {
    ghost use Rattle.std.specs.Prelude.{◌≡◌};
    ghost use Rattle.logbook.specs.Pages.{Book};
    ghost use Rattle.screen_feed.specs.Sheets.{ShownChart};

    ghost Value = { Book × Book };

    ghost view = { λ s. (s.one.pair, s.two.pair) };

    ghost invariant = { λ s. let shown : ShownChart = record { airport = s.board.airport; day = 1 } in (s.one.shown ≡ shown) × (s.two.shown ≡ shown) };
}

// Three digits.
fn name_of(number: u32) -> Option<Name> {
    let digit = |number: u32| b'0' + (number % 10) as u8;
    Name::new(&[b'V', digit(number / 100), digit(number / 10), digit(number)])
}

// An A320 that comes ten minutes later than the one of the number before, and stays for an hour.
fn addition(airport: &Airport, number: u32) -> Option<Ask>
    ensures valid { IfSome result (IsAskOf airport.now) }
{
    let on: Minute = number.checked_mul(10)?;
    let new = NewVisit {
        name: name_of(number)?,
        kind: TypeNo(0),
        class: 3,
        on,
        off: on.checked_add(60)?,
        arr: None,
        dep: None,
    };
    if airport.parts().types.len() == 0 || !is_in_time(airport, &new) {
        return None;
    }
    Some(Ask {
        seen: 0,
        what: What::Change(Command::AddVisit(new)),
    })
}

// The first part of the first visit is put on the first stand.
fn placing(alloc: Global, airport: &Airport) -> Option<Ask>
    ensures valid { IfSome result (IsAskOf airport.now) }
{
    if airport.parts().stands.len() == 0 {
        return None;
    }
    let edit = Edit::Put {
        visit: VisitNo(1),
        part: 1,
        stand: StandNo(0),
    };
    let edits = Vec::from_array(alloc, [edit]).ok()?;
    Some(Ask {
        seen: 0,
        what: What::Change(Command::Commit(Draft {
            desk: Name::literal(b"D"),
            number: 1,
            base: 1,
            edits: Listed::from_vec(edits),
        })),
    })
}

fn plan_of<'b>(airport: &Airport, board: &'b Board<'_, SteadyKeeper>) -> &'b Plan
    requires airport { board.now.airport ≡ airport.now }
    ensures airport { result.now.plan.airport ≡ airport.now }
{
    board.plan()
}

// The reply to an ask.
fn reply_to(
    alloc: Global,
    airport: &Airport,
    board: &mut Board<'_, SteadyKeeper>,
    ask: Option<Ask>,
) -> Option<Listed<u8>>
    requires airport { board.old.airport ≡ airport.now }
    requires valid { IfSome ask (IsAskOf airport.now) }
    ensures airport { board.new.airport ≡ board.old.airport }
{
    let ask = ask?;
    let call = board.next_call();
    if call == CALL_END {
        return None;
    }
    match board.ask(alloc, call, &ask) {
        Acted::Reply(bytes) => Some(bytes),
        _ => None,
    }
}

// Whether the plan is shown.
fn is_shown<R: Wait>(
    rt: &R,
    alloc: Global,
    airport: &Airport,
    plan: &Plan,
    writer: &mut ScreenWriter,
) -> bool
    requires airport { plan.now.plan.airport ≡ airport.now }
    requires writer { writer.old.shown ≡ record { airport = airport.now; day = 1 } }
    ensures pair { writer.new.pair ≡ writer.old.pair }
    ensures shown { writer.new.shown ≡ writer.old.shown }
{
    plan.version() >= writer.version() && writer.show(rt, alloc, airport, plan).is_ok()
}

impl<'a> Stage<'a> {
    /// An empty board, and the screens of both writers.
    pub(super) fn new<R: Wait>(
        rt: &R,
        alloc: Global,
        airport: &'a Airport,
    ) -> Result<(Stage<'a>, Screen, Screen), Fail>
        ensures one { IfOk result (λ made. made.1.pair ≡ made.0.0) }
        ensures two { IfOk result (λ made. made.2.pair ≡ made.0.1) }
    {
        let keeper = SteadyKeeper::new(alloc, Vec::new(alloc));
        let Ok(board) = Board::open(alloc, airport, keeper, Vec::new(alloc)) else {
            return Err(Fail::new("a board"));
        };
        if airport.parts().days == 0 {
            return Err(Fail::new("a day"));
        }
        let plan = plan_of(airport, &board);
        let (one, first) = ScreenWriter::new(rt, alloc, airport, plan, 1)?;
        let (two, second) = match ScreenWriter::new(rt, alloc, airport, plan, 1) {
            Ok(ends) => ends,
            Err(_) => {
                one.close(rt);
                return Err(Fail::new("memory"));
            }
        };
        Ok((Stage { board, one, two }, first, second))
    }

    /// Adds the visit of this number.
    pub(super) fn add(&mut self, alloc: Global, number: u32) -> bool
        ensures pairs { self.new ≡ self.old }
    {
        let airport = self.board.airport();
        let ask = addition(airport, number);
        reply_to(alloc, airport, &mut self.board, ask).is_some()
    }

    /// Puts the first visit on the first stand.
    pub(super) fn put(&mut self, alloc: Global) -> bool
        ensures pairs { self.new ≡ self.old }
    {
        let airport = self.board.airport();
        let ask = placing(alloc, airport);
        reply_to(alloc, airport, &mut self.board, ask).is_some()
    }

    /// The reply to who asks for the chart of the first day.
    pub(super) fn chart(&mut self, alloc: Global) -> Option<Listed<u8>>
        ensures pairs { self.new ≡ self.old }
    {
        let airport = self.board.airport();
        if airport.parts().days == 0 {
            return None;
        }
        let ask = Ask {
            seen: 0,
            what: What::Chart(1),
        };
        reply_to(alloc, airport, &mut self.board, Some(ask))
    }

    /// Shows the plan on both writers.
    pub(super) fn show<R: Wait>(&mut self, rt: &R, alloc: Global) -> bool
        ensures pairs { self.new ≡ self.old }
    {
        let airport = self.board.airport();
        let plan = plan_of(airport, &self.board);
        let one = is_shown(rt, alloc, airport, plan, &mut self.one);
        let two = is_shown(rt, alloc, airport, plan, &mut self.two);
        one && two
    }

    /// What the first writer tells.
    pub(super) fn told(&self) -> Told
        ensures pair { result.pair ≡ self.now.0 }
    {
        self.one.tell()
    }

    /// Ends both writers.
    pub(super) fn close<R: Wait>(self, rt: &R) {
        let Stage {
            board: _board,
            one,
            two,
        } = self;
        one.close(rt);
        two.close(rt);
    }
}
