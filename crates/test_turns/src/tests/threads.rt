// Two desks that ask at once, each in a thread.
ghost use Rattle.std.specs.Prelude.{◌≡◌, ◌≤◌};
ghost use Rattle.history_core.specs.History.{IsAskOf};

use super::{AT_THIRD, CLASH, addition, airport, asked, board_after, is_told, put};
use apron_base::{Acted, Name, SteadyKeeper, VisitNo};
use apron_rules::Airport;
use desk_asks::{Ask, What};
use desk_http::DeskPort;
use desk_workers::Served;
use history_core::Board;
use std::alloc::Global;
use std::sync::Wait;
use std::test::Fail;
use std::thread::{Threads, join_mut};
use turn_board::TurnBoard;

// How often the two desks are tried.
const ROUNDS: u32 = 50;

/// The reply to a desk's commit.
#[derive(Clone, Copy, Debug, Drop, PartialEq, Eq)]
enum Verdict {
    Accepted,
    Clash,
    Other,
}

fn verdict_of(answer: Acted) -> Verdict {
    match answer {
        Acted::Reply(bytes) if bytes.as_slice() == AT_THIRD => Verdict::Accepted,
        Acted::Reply(bytes) if bytes.as_slice() == CLASH => Verdict::Clash,
        _ => Verdict::Other,
    }
}

// Both desks ask, each in a thread.
fn ask_both<P: DeskPort + Send, R: Threads + Sync>(
    rt: &R,
    alloc: Global,
    one: &mut P,
    two: &mut P,
    asks: (&Ask, &Ask),
) -> (Verdict, Verdict)
    requires first { IsAskOf (P.airport_of one.old) asks.0.now }
    requires second { IsAskOf (P.airport_of two.old) asks.1.now }
    ensures one { P.fixed one.new ≡ P.fixed one.old }
    ensures two { P.fixed two.new ≡ P.fixed two.old }
{
    let (first, second) = asks;
    join_mut(
        rt,
        &mut ||
            requires { IsAskOf (P.airport_of one.now) first.now }
            ensures { P.fixed one.exit.now ≡ P.fixed one.entry.now }
        { verdict_of(one.ask(alloc, first)) },
        &mut ||
            requires { IsAskOf (P.airport_of two.now) second.now }
            ensures { P.fixed two.exit.now ≡ P.fixed two.entry.now }
        { verdict_of(two.ask(alloc, second)) },
    )
}

// Whether, of two desks that ask at once, one is accepted and the other gets the clash, and a desk
// that has met both gets the version of the accepted commit.
fn one_is_accepted<R: Threads + Wait + Sync>(
    rt: &R,
    alloc: Global,
    board: Board<SteadyKeeper>,
    asks: (&Ask, &Ask),
) -> bool
    requires next { board.next ≤ 3 }
    requires asks { IsAskOf board.airport asks.0.now × IsAskOf board.airport asks.1.now }
{
    let airport = board.airport();
    let Ok((turns, mut one)) = TurnBoard::new(alloc, board) else {
        return false;
    };
    let two = turns.split(&mut one);
    let mut first = Served::new(rt, &turns, airport, one);
    let mut second = Served::new(rt, &turns, airport, two);
    let verdicts = ask_both(rt, alloc, &mut first, &mut second, asks);
    let mut seat = first.into_seat();
    turns.meet(&mut seat, second.into_seat());
    let version = turns.ask(rt, alloc, &mut seat, &asked(What::Version));
    let entries = turns.close(seat).history().len();
    let is_one = match verdicts {
        (Verdict::Accepted, Verdict::Clash) => true,
        (Verdict::Clash, Verdict::Accepted) => true,
        _ => false,
    };
    is_one && is_told(version, AT_THIRD) && entries == 3
}

// A board of two visits, at which two desks want the one stand at once.
fn one_gets_the_stand<R: Threads + Wait + Sync>(
    rt: &R,
    alloc: Global,
    airport: &Airport,
) -> Result<bool, Fail> {
    let first = put(alloc, airport, Name::literal(b"A"), VisitNo(1))?;
    let second = put(alloc, airport, Name::literal(b"B"), VisitNo(2))?;
    let more = addition(airport, Name::literal(b"V2"))?;
    let mut board = board_after(alloc, airport, &addition(airport, Name::literal(b"V1"))?)?;
    board.ask(alloc, 2, &more);
    Ok(one_is_accepted(rt, alloc, board, (&first, &second)))
}

#[test]
fn of_two_desks_at_once_one_gets_the_stand(rt: HostRuntime) -> Result<(), Fail> {
    let airport = airport(rt.alloc())?;
    for round in 0..ROUNDS {
        let is = one_gets_the_stand(&rt, rt.alloc(), &airport)?;
        assert!(rt; is, "round {round}");
    }
    Ok(())
}
