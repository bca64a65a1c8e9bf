// What is shown.
ghost use Rattle.std.specs.Prelude.{◌≡◌, ◌≤◌, IfErr, IfOk};
ghost use Rattle.screen_feed.specs.Sheets.{IsSheet, sheet_of};

use apron_base::{Listed, Memory};
use apron_rules::Airport;
use plan_core::Plan;
use std::alloc::Global;
use std::marker::Model;
use std::snapshot::Snapshot;
use std::sync::Arc;
use wall_chart::chart;

/// The chart of one day of a plan, with the plan's version. A sheet may have several owners, which
/// share its text.
#[derive(Drop)]
pub struct Sheet {
    kept: Arc<SheetFields, Global>,
}

#[derive(Drop)]
struct SheetFields {
    airport: Snapshot<Airport>,
    day: u32,
    version: u32,
    text: Listed<u8>,
}

impl Model for Sheet {
    ghost use Rattle.std.specs.Arc.{arc_value};
    ghost use Rattle.screen_feed.specs.Sheets.{SheetState};

    ghost Value = { SheetState };

    ghost view = { λ s. let kept = arc_value s.kept in record {
      shown = record { airport = kept.airport.value; day = kept.day };
      version = kept.version;
      text = kept.text;
    } };
}

/// A sheet for which there was no memory. Contracts see the sheet. Only `Sheet::of` makes one.
#[derive(Drop)]
pub struct Unmade {
    plan: Snapshot<Plan>,
    day: u32,
}

impl Model for Unmade {
    ghost use Rattle.screen_feed.specs.Sheets.{SheetState, sheet_of};

    ghost Value = { SheetState };

    ghost view = { λ u. sheet_of u.plan.value.plan u.day };
}

impl From<Unmade> for Memory {
    fn from(_unmade: Unmade) -> Memory {
        Memory
    }
}

/// That a sheet can have no more owners. Contracts see the sheet. Only `Sheet::another` makes one.
#[derive(Drop)]
pub(crate) struct NoOwner {
    sheet: Snapshot<Sheet>,
}

impl Model for NoOwner {
    ghost use Rattle.screen_feed.specs.Sheets.{SheetState};

    ghost Value = { SheetState };

    ghost view = { λ n. n.sheet.value };
}

impl From<NoOwner> for Memory {
    fn from(_none: NoOwner) -> Memory {
        Memory
    }
}

impl Sheet {
    /// The sheet of this plan for a day, counted from 1. The only error is a lack of memory.
    pub fn of(alloc: Global, airport: &Airport, plan: &Plan, day: u32) -> Result<Sheet, Unmade>
        requires airport { airport.now ≡ plan.now.plan.airport }
        requires first { 1 ≤ day }
        requires last { day ≤ airport.now.days }
        ensures is { IfOk result (λ sheet. sheet ≡ sheet_of plan.now.plan day) }
        ensures sheet { IfOk result (IsSheet (record { airport = airport.now; day = day })) }
        ensures unmade { IfErr result (λ sheet. sheet ≡ sheet_of plan.now.plan day) }
    {
        let _sound = plan.visits();
        let Ok(text) = chart(alloc, airport, plan, day) else {
            return Err(Unmade::of(plan, day));
        };
        let kept = SheetFields {
            airport: Snapshot::of(airport),
            day,
            version: plan.version(),
            text,
        };
        match Arc::new(alloc, kept) {
            Ok(kept) => Ok(Sheet { kept }),
            Err(_) => Err(Unmade::of(plan, day)),
        }
    }

    /// The day, counted from 1.
    pub fn day(&self) -> u32
        ensures value { result ≡ self.now.shown.day }
    {
        self.kept.day
    }

    /// The version of the plan.
    pub fn version(&self) -> u32
        ensures value { result ≡ self.now.version }
    {
        self.kept.version
    }

    /// The chart, whose lines all end with a line feed.
    pub fn text(&self) -> &[u8]
        ensures value { result.now ≡ self.now.text }
    {
        self.kept.text.as_slice()
    }

    /// Another owner of the same sheet. At `Err` there can be no more of them.
    pub(crate) fn another(&self) -> Result<Sheet, NoOwner>
        ensures same { IfOk result (λ sheet. sheet ≡ self.now) }
        ensures none { IfErr result (λ sheet. sheet ≡ self.now) }
    {
        match Arc::try_clone(&self.kept) {
            Ok(kept) => Ok(Sheet { kept }),
            Err(_) => Err(NoOwner {
                sheet: Snapshot::of(self),
            }),
        }
    }
}

impl Unmade {
    fn of(plan: &Plan, day: u32) -> Unmade
        ensures is { result ≡ sheet_of plan.now.plan day }
    {
        Unmade {
            plan: Snapshot::of(plan),
            day,
        }
    }
}
