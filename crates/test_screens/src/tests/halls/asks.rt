// What a hall is asked.
ghost use Rattle.std.specs.Prelude.{◌≡◌, IfSome};
ghost use Rattle.history_core.specs.History.{IsAskOf};
ghost use Rattle.watch_list.specs.WatchBoards.{IsWatchAskOf, watch_fixed};

use apron_base::{Acted, CALL_END, Listed, Machine, Name, StandNo, SteadyKeeper, TypeNo, VisitNo};
use apron_rules::Airport;
use desk_asks::{Ask, Command, What};
use shown_board::Hall;
use std::alloc::Global;
use std::sync::Wait;
use visit_book::{Draft, Edit, NewVisit, is_in_time};
use watch_list::{Shown, WatchAsk};

/// A hall over a list in memory.
pub(super) type Shows<'s, 'w, 'a, W> = Hall<'s, 'w, 'a, W, SteadyKeeper, Shown, Shown>;

/// What is asked.
#[derive(Clone, Copy, Debug)]
pub(super) enum Deed {
    /// The A320 V1 is added, on stand from 600 to 660.
    Add,
    /// The first part of the first visit is put on N1, from version 1.
    Put,
    /// A feed of a watch that is not there.
    Feed,
    /// The chart of this day.
    Chart(u32),
}

fn addition(airport: &Airport) -> Option<Ask>
    ensures valid { IfSome result (IsAskOf airport.now) }
{
    let new = NewVisit {
        name: Name::new(b"V1")?,
        kind: TypeNo(0),
        class: 3,
        on: 600,
        off: 660,
        arr: None,
        dep: None,
    };
    if airport.parts().types.len() == 0 || !is_in_time(airport, &new) {
        return None;
    }
    Some(Ask {
        seen: 0,
        what: What::Change(Command::AddVisit(new)),
    })
}

fn placing(alloc: Global, airport: &Airport) -> Option<Ask>
    ensures valid { IfSome result (IsAskOf airport.now) }
{
    if airport.parts().stands.len() == 0 {
        return None;
    }
    let edit = Edit::Put {
        visit: VisitNo(1),
        part: 1,
        stand: StandNo(0),
    };
    let edits = Vec::from_array(alloc, [edit]).ok()?;
    Some(Ask {
        seen: 0,
        what: What::Change(Command::Commit(Draft {
            desk: Name::literal(b"D"),
            number: 1,
            base: 1,
            edits: Listed::from_vec(edits),
        })),
    })
}

fn chart(airport: &Airport, day: u32) -> Option<Ask>
    ensures valid { IfSome result (IsAskOf airport.now) }
{
    if day < 1 || day > airport.parts().days {
        return None;
    }
    Some(Ask {
        seen: 0,
        what: What::Chart(day),
    })
}

fn asked<W: Wait>(
    alloc: Global,
    hall: &mut Shows<'_, '_, '_, W>,
    ask: &WatchAsk,
) -> Option<Listed<u8>>
    requires valid { IsWatchAskOf (watch_fixed hall.old.board) ask.now }
    ensures fixed { watch_fixed hall.new.board ≡ watch_fixed hall.old.board }
{
    let call = hall.next_call();
    if call >= CALL_END {
        return None;
    }
    match hall.act(alloc, call, ask) {
        Acted::Reply(bytes) => Some(bytes),
        _ => None,
    }
}

fn tried<W: Wait>(
    alloc: Global,
    airport: &Airport,
    hall: &mut Shows<'_, '_, '_, W>,
    deed: &Deed,
) -> Option<Listed<u8>>
    requires airport { hall.old.board.board.airport ≡ airport.now }
    ensures airport { hall.new.board.board.airport ≡ airport.now }
{
    let ask = match *deed {
        Deed::Add => WatchAsk::Plain(addition(airport)?),
        Deed::Put => WatchAsk::Plain(placing(alloc, airport)?),
        Deed::Chart(day) => WatchAsk::Plain(chart(airport, day)?),
        Deed::Feed => WatchAsk::Feed {
            seen: 0,
            watch: Name::literal(b"ALL"),
            after: 0,
        },
    };
    asked(alloc, hall, &ask)
}

/// The reply to what is asked, if one of two tries has memory.
pub(super) fn reply_to<W: Wait>(
    alloc: Global,
    airport: &Airport,
    hall: &mut Shows<'_, '_, '_, W>,
    deed: &Deed,
) -> Option<Listed<u8>>
    requires airport { hall.old.board.board.airport ≡ airport.now }
    ensures airport { hall.new.board.board.airport ≡ airport.now }
{
    match tried(alloc, airport, hall, deed) {
        Some(bytes) => Some(bytes),
        None => tried(alloc, airport, hall, deed),
    }
}
