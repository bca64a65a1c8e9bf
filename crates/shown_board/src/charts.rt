// The charts of one plan.
ghost use Rattle.std.specs.Prelude.{◌≡◌, ◌≤◌, ◌<◌, IfErr, IfOk, OnErr, OnOk};
ghost use Rattle.plan_core.specs.PlanState.{IsPlan};
ghost use Rattle.screen_feed.specs.Sheets.{IsSheet, last_version, sheet_of};
ghost use Rattle.shown_board.specs.Halls.{CanShow, IsShown, ShowsVersion};

use apron_base::Memory;
use apron_rules::Airport;
use plan_core::Plan;
use screen_feed::{ScreenWriter, Sheet, Unmade};
use std::alloc::Global;
use std::marker::Model;
use std::sync::Wait;

/// A plan of an airport, with the chart of it that was worked out last. Contracts see the plan.
#[derive(Drop)]
pub(crate) struct Charts<'p> {
    airport: &'p Airport,
    plan: &'p Plan,
    last: Option<Sheet>,
}

impl<'p> Model for Charts<'p> {
    ghost use Rattle.std.specs.Prelude.{◌≡◌, IfSome};
    ghost use Rattle.plan_core.specs.PlanState.{PlanState};
    ghost use Rattle.screen_feed.specs.Sheets.{sheet_of};

    ghost Value = { PlanState };

    ghost view = { λ c. c.plan.now.plan };

    ghost invariant = { λ c. (c.airport.now ≡ c.plan.now.plan.airport)
        × IfSome c.last (λ sheet. sheet ≡ sheet_of c.plan.now.plan sheet.shown.day) };
}

impl<'p> Charts<'p> {
    /// The plan, of which no chart has been worked out.
    pub(crate) fn of(airport: &'p Airport, plan: &'p Plan) -> Charts<'p>
        requires airport { airport.now ≡ plan.now.plan.airport }
        ensures plan { result ≡ plan.entry.now.plan }
    {
        Charts {
            airport,
            plan,
            last: None,
        }
    }

    // The chart of this day: the last one, if it is of this day. The only error is a lack of
    // memory.
    fn take(&mut self, alloc: Global, day: u32) -> Result<Sheet, Unmade>
        requires first { 1 ≤ day }
        requires last { day ≤ self.old.airport.days }
        ensures plan { self.new ≡ self.old }
        ensures is { IfOk result (λ sheet. sheet ≡ sheet_of self.old day) }
        ensures unmade { IfErr result (λ sheet. sheet ≡ sheet_of self.old day) }
        ensures sound { IsPlan self.old }
    {
        let _sound = self.plan.visits();
        match self.last.take() {
            Some(sheet) if sheet.day() == day => Ok(sheet),
            _ => Sheet::of(alloc, self.airport, self.plan, day),
        }
    }

    /// Shows the plan on a writer, if it does not show this version. At `Err` there is no memory,
    /// for the chart or to show it. It may wait for a screen that is looking.
    pub(crate) fn show_on<W: Wait>(
        &mut self,
        rt: &W,
        alloc: Global,
        writer: &mut ScreenWriter,
    ) -> Result<(), Memory>
        requires writer { CanShow self.old writer.old }
        ensures plan { self.new ≡ self.old }
        ensures shown { IsShown self.old writer.old writer.new }
        ensures ok { OnOk result (ShowsVersion self.old.version writer.new) }
        ensures err { OnErr result (last_version writer.new.sheets < self.old.version) }
    {
        if writer.version() >= self.plan.version() {
            return Ok(());
        }
        match self.take(alloc, writer.day()) {
            Ok(sheet) => {
                let shown = writer.show_sheet(rt, &sheet);
                self.last = Some(sheet);
                shown
            }
            Err(sheet) => {
                writer.miss(sheet);
                Err(Memory)
            }
        }
    }
}
