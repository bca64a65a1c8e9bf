// The steps by which a day is made, each of which asks something of its board.
ghost use Rattle.std.specs.Prelude.{◌≡◌, ◌≤◌, ◌<◌, IfOk, OnOk};
ghost use Rattle.desk_asks.specs.Commands.{IsCommandOf};
ghost use Rattle.desk_words.specs.declared.replies.Reply.{Reply};
ghost use Rattle.generated_day.specs.Asked.{scheduled_on};
ghost use Rattle.generated_day.specs.DayAirport.{day_airport};
ghost use Rattle.generated_day.specs.Days.{IsAsked, IsDelayed, IsPutTried, IsVisitAdded, first_day, is_accepted, most_made, plan_of};
ghost use Rattle.generated_day.specs.Makings.{day_so_far};

use crate::airport::STANDS;
use crate::asks::{drawn_visit, estimate, put_first};
use crate::counts::more;
use crate::draws::{draw_below, next_seed};
use crate::making::Making;
use apron_base::{Acted, CALL_END, Memory, Name, SteadyKeeper, VisitNo};
use apron_rules::Airport;
use bump_core::bumped_by;
use desk_asks::{Ask, Command, DeskMessage, What};
use history_core::{Board, OpenFault};
use std::alloc::Global;

impl<'a> Making<'a> {
    /// A day for which nothing was made yet.
    pub(crate) fn new(alloc: Global, airport: &'a Airport) -> Result<Making<'a>, Memory>
        requires airport { airport.now ≡ day_airport }
        ensures first { IfOk result (λ making. day_so_far making ≡ first_day) }
    {
        let keeper = SteadyKeeper::new(alloc, Vec::new(alloc));
        match Board::open(alloc, airport, keeper, Vec::new(alloc)) {
            Ok(board) => Ok(Making {
                board,
                seed: 1,
                draft: 1,
                refused: 0,
                bumped: 0,
            }),
            Err((fault, _)) => Err(memory_of(fault)),
        }
    }

    // Asks this with the next call number.
    fn ask(&mut self, alloc: Global, command: Command) -> Result<(), Memory>
        requires valid { IsCommandOf day_airport command }
        ensures asked { OnOk result
            ((reply : Reply) × IsAsked command (day_so_far self.old) reply (day_so_far self.new)) }
    {
        let call = self.board.next_call();
        // No day makes this many calls. The test spares a proof that counts them.
        if call >= CALL_END {
            return Err(Memory);
        }
        let ask = Ask {
            seen: 0,
            what: What::Change(command),
        };
        match self.board.ask(alloc, call, &ask) {
            Acted::Reply(_) => Ok(()),
            Acted::Memory => Err(Memory),
            Acted::Fault | Acted::Spent => unreachable!(),
        }
    }

    /// Draws the visit of this number and asks to add it.
    pub(crate) fn add(&mut self, alloc: Global, number: u32) -> Result<(), Memory>
        requires few { number ≤ most_made }
        ensures added { OnOk result
            (IsVisitAdded number (day_so_far self.old) (day_so_far self.new)) }
    {
        let new = drawn_visit(alloc, number, self.seed)?;
        self.ask(alloc, Command::AddVisit(new))?;
        self.seed = next_seed(next_seed(next_seed(next_seed(self.seed))));
        Ok(())
    }

    /// Asks to put the visit on the stand with the next draft, and says whether that was accepted.
    pub(crate) fn put(&mut self, alloc: Global, number: u32, stand: u32) -> Result<bool, Memory>
        requires stand { stand < STANDS }
        ensures put { IfOk result
            (λ accepted. IsPutTried number stand (day_so_far self.old) (day_so_far self.new)) }
        ensures accepted { IfOk result
            (λ accepted. accepted ≡ is_accepted (day_so_far self.old) (day_so_far self.new)) }
    {
        let version = self.board.plan().version();
        let before = self.board.history().len();
        let command = put_first(alloc, self.draft, version, number, stand)?;
        self.ask(alloc, command)?;
        self.draft = more(self.draft, 1)?;
        Ok(before < self.board.history().len())
    }

    /// Draws a delay, and sends the message that the visit of this number is late by this delay and
    /// 20 minutes.
    pub(crate) fn delay(&mut self, alloc: Global, number: u32) -> Result<(), Memory>
        requires few { number ≤ most_made }
        ensures delayed { OnOk result
            (IsDelayed number (day_so_far self.old) (day_so_far self.new)) }
    {
        let seed = next_seed(self.seed);
        let on = self.scheduled_on(number);
        let message = estimate(number, on, 20 + draw_below(60, seed));
        let before = self.board.history().len();
        self.ask(
            alloc,
            Command::Message(DeskMessage {
                desk: Name::literal(b"MAKE"),
                message,
            }),
        )?;
        self.seed = seed;
        if before < self.board.history().len() {
            let plan = self.board.plan();
            let parts = bumped_by(alloc, plan.version(), plan.visits())?;
            self.bumped = more(self.bumped, parts.len())?;
        }
        Ok(())
    }

    // The scheduled minute on block of the visit of this number.
    fn scheduled_on(&self, number: u32) -> u32
        ensures is { result ≡ scheduled_on (plan_of (day_so_far self.now)).visits number }
    {
        match self.board.plan().visit(VisitNo(number)) {
            Some(visit) => visit.on,
            None => 0,
        }
    }
}

// Why opening a board without entries can fail.
fn memory_of(fault: OpenFault) -> Memory
    requires memory { fault ≡ OpenFault.Memory }
{
    match fault {
        OpenFault::Memory => Memory,
        _ => unreachable!(),
    }
}
