// The writer, its screen, and what the writer tells its screen.
ghost use Rattle.std.specs.Prelude.{◌≡◌, ◌≤◌, ◌<◌, [], ◌∷◌, IfOk, OnErr, OnOk, Some};
ghost use Rattle.std.specs.Result.{result_ok};
ghost use Rattle.screen_feed.specs.Screens.{HasLearned, HasLooked, HasMissed, HasTried, after_lack, after_show, screen_of, told_of};
ghost use Rattle.screen_feed.specs.Sheets.{AreAmong, AreSheets, Begins, IsLast, IsSheet, last_version, sheet_of};

use crate::appender::Appender;
use crate::book::Log;
use crate::sheet::{Sheet, Unmade};
use crate::steps::{Sight, WriterSide, look_at, page_of, pair_of, publish};
use apron_base::Memory;
use apron_rules::Airport;
use core::mem::replace_with;
use plan_core::Plan;
use std::alloc::Global;
use std::marker::Model;
use std::snapshot::Snapshot;
use std::sync::Wait;

// After this many entries of its book, two a show, a writer shows no more: at a thousand million
// entries a second, after 36 years.
const MOST_ENTRIES: u64 = 1 << 60;

/// What shows the chart of one day to one screen. Contracts see its pair, the airport and the day,
/// the list of the sheets that it has shown, those that it tried to show, and how many were not
/// made. It is not `Drop`: end it by `close`.
pub struct ScreenWriter {
    side: WriterSide,
    appender: Appender,
    airport: Snapshot<Airport>,
    day: u32,
    version: u32,
    unmade: u64,
}

impl Model for ScreenWriter {
    ghost use Rattle.screen_feed.specs.Ends.{IsWriter};
    ghost use Rattle.screen_feed.specs.Logs.{begun_in, shown_in};
    ghost use Rattle.screen_feed.specs.Screens.{WriterState};

    ghost Value = { WriterState };

    ghost view = { λ w. record {
      pair = w.appender.book;
      shown = record { airport = w.airport.value; day = w.day };
      sheets = shown_in w.appender.log;
      tried = begun_in w.appender.log;
      unmade = w.unmade;
    } };

    ghost invariant = { λ w. IsWriter w.side.desk.shown.value w.appender
        (record { airport = w.airport.value; day = w.day }) w.version };
}

/// What looks at the sheet that was shown last. Contracts see its pair, the airport and the day,
/// the list of the sheets that it has seen, of which it takes the last, the longest list that it was
/// told, and what its last look gave.
#[derive(Drop)]
pub struct Screen {
    sight: Sight,
    told: Log,
    round: u64,
    airport: Snapshot<Airport>,
    day: u32,
}

impl Model for Screen {
    ghost use Rattle.std.specs.Prelude.{◌≡◌, length};
    ghost use Rattle.std.specs.Option.{option_map};
    ghost use Rattle.std.specs.Result.{result_ok};
    ghost use Rattle.left_right.specs.Sides.{view as view_of};
    ghost use Rattle.screen_feed.specs.Ends.{IsScreenAt};
    ghost use Rattle.screen_feed.specs.Logs.{shown_in};
    ghost use Rattle.screen_feed.specs.Pages.{sheets_seen};
    ghost use Rattle.screen_feed.specs.Screens.{ScreenState};

    ghost Value = { ScreenState };

    ghost view = { λ s. record {
      pair = s.told.book;
      shown = record { airport = s.airport.value; day = s.day };
      seen = sheets_seen (view_of s.sight.side.place);
      told = shown_in s.told.log;
      given = option_map (λ given. result_ok given.value) s.sight.given;
    } };

    ghost invariant = { λ s. IsScreenAt (view_of s.sight.side.place)
        (record { airport = s.airport.value; day = s.day }) s.told.book s.sight.seen.log
        × (s.sight.seen.book ≡ s.told.book) × (s.round ≡ length s.told.log) };
}

/// What a writer tells. Contracts see the writer's pair, and the list that it had.
#[derive(Drop)]
pub struct Told {
    seen: Log,
    round: u64,
}

impl Model for Told {
    ghost use Rattle.std.specs.Prelude.{◌≡◌, length};
    ghost use Rattle.screen_feed.specs.Logs.{shown_in};
    ghost use Rattle.screen_feed.specs.Screens.{ToldState};

    ghost Value = { ToldState };

    ghost view = { λ t. record { pair = t.seen.book; sheets = shown_in t.seen.log } };

    ghost invariant = { λ t. t.round ≡ length t.seen.log };
}

impl ScreenWriter {
    /// A writer for a day, counted from 1, with its one screen. It shows this plan, and the screen
    /// knows it. The only error is a lack of memory.
    pub fn new<R: Wait>(
        rt: &R,
        alloc: Global,
        airport: &Airport,
        plan: &Plan,
        day: u32,
    ) -> Result<(ScreenWriter, Screen), Memory>
        requires airport { airport.now ≡ plan.now.plan.airport }
        requires first { 1 ≤ day }
        requires last { day ≤ airport.now.days }
        ensures shown { IfOk result
            (λ ends. ends.0.shown ≡ record { airport = airport.now; day = day }) }
        ensures sheets { IfOk result (λ ends. ends.0.sheets ≡ sheet_of plan.now.plan day ∷ []) }
        ensures tried { IfOk result (λ ends. ends.0.tried ≡ sheet_of plan.now.plan day ∷ []) }
        ensures screen { IfOk result (λ ends. ends.1 ≡ screen_of ends.0) }
    {
        let sheet = Sheet::of(alloc, airport, plan, day)?;
        let mut appender = Appender::open(&sheet).ok_or(Memory)?;
        let page = page_of(&appender, sheet.another()?);
        let seen = appender.seen();
        let (writer_side, side) = pair_of(rt, alloc, page)?;
        appender.confirm(&sheet);
        let screen = Screen {
            sight: Sight::new(side, seen),
            told: appender.seen(),
            round: appender.round(),
            airport: Snapshot::of(airport),
            day,
        };
        let writer = ScreenWriter {
            side: writer_side,
            appender,
            airport: Snapshot::of(airport),
            day,
            version: plan.version(),
            unmade: 0,
        };
        Ok((writer, screen))
    }

    /// The version of the sheet that was shown last.
    pub fn version(&self) -> u32
        ensures value { result ≡ last_version self.now.sheets }
        ensures sheets { AreSheets self.now.shown self.now.sheets }
    {
        self.version
    }

    /// The day that it shows, counted from 1.
    pub fn day(&self) -> u32
        ensures value { result ≡ self.now.shown.day }
        ensures first { 1 ≤ result }
        ensures last { result ≤ self.now.shown.airport.days }
    {
        self.day
    }

    /// Shows a plan whose version is greater than the last one. One of the same version changes
    /// nothing. At `Err` there is no memory, and the list of the sheets that were shown is as it
    /// was. It may wait for a screen that is looking.
    pub fn show<R: Wait>(
        &mut self,
        rt: &R,
        alloc: Global,
        airport: &Airport,
        plan: &Plan,
    ) -> Result<(), Memory>
        requires airport { airport.now ≡ self.old.shown.airport }
        requires plan { plan.now.plan.airport ≡ self.old.shown.airport }
        requires version { last_version self.old.sheets ≤ plan.now.plan.version }
        ensures ok { let sheet = sheet_of plan.now.plan self.old.shown.day in
            OnOk result (self.new ≡ after_show self.old sheet) }
        ensures err { let sheet = sheet_of plan.now.plan self.old.shown.day in
            OnErr result (HasMissed self.old sheet self.new) }
    {
        if plan.version() <= self.version {
            return Ok(());
        }
        match Sheet::of(alloc, airport, plan, self.day) {
            Ok(sheet) => self.show_sheet(rt, &sheet),
            Err(sheet) => {
                self.miss(sheet);
                Err(Memory)
            }
        }
    }

    /// The same with a sheet that was made already, as for several writers of the same day.
    pub fn show_sheet<R: Wait>(&mut self, rt: &R, sheet: &Sheet) -> Result<(), Memory>
        requires sheet { IsSheet self.old.shown sheet.now }
        requires version { last_version self.old.sheets ≤ sheet.now.version }
        ensures ok { OnOk result (self.new ≡ after_show self.old sheet.now) }
        ensures err { OnErr result (HasTried self.old sheet.now self.new) }
        ensures later { OnErr result (last_version self.old.sheets < sheet.now.version) }
    {
        if sheet.version() <= self.version {
            return Ok(());
        }
        if self.appender.round() >= MOST_ENTRIES {
            return Err(Memory);
        }
        self.appender.begin(sheet);
        let page = page_of(&self.appender, sheet.another()?);
        publish(rt, &mut self.side, page)?;
        self.appender.confirm(sheet);
        self.version = sheet.version();
        Ok(())
    }

    /// Takes note that there was no memory for a sheet that was to be shown.
    pub fn miss(&mut self, sheet: Unmade)
        requires of { sheet.shown ≡ self.old.shown }
        requires version { last_version self.old.sheets < sheet.version }
        ensures counted { self.new ≡ after_lack self.old }
    {
        self.unmade = self.unmade.saturating_add(1);
    }

    /// What it has shown, for its screen to learn. It takes no memory.
    pub fn tell(&self) -> Told
        ensures told { result ≡ told_of self.now }
    {
        Told {
            seen: self.appender.seen(),
            round: self.appender.round(),
        }
    }

    /// Nothing is done: it shows that each sheet which its screen has seen is one that the writer
    /// has shown or tried to show.
    pub fn knows(&mut self, screen: &Screen)
        requires pair { screen.now.pair ≡ self.old.pair }
        ensures same { self.new ≡ self.old }
        ensures seen { AreAmong screen.now.seen self.old.tried }
    {
        self.appender.knows(screen.sight.seen());
    }

    /// Ends the writer, and takes what its screen looks at. It may wait for a screen that is
    /// looking, and takes no memory.
    pub fn close<R: Wait>(self, rt: &R) {
        let ScreenWriter {
            side,
            appender: _appender,
            airport: _,
            day: _,
            version: _,
            unmade: _,
        } = self;
        side.take(rt);
    }
}

impl Screen {
    /// Takes in what its own writer told. It takes no memory.
    pub fn learn(&mut self, told: Told)
        requires pair { told.pair ≡ self.old.pair }
        ensures learned { HasLearned self.old told.sheets self.new }
    {
        let Told { seen, round } = told;
        let mut both = self.told.again();
        both.learn(&seen);
        if round > self.round {
            self.told = seen;
            self.round = round;
        }
    }

    /// The sheet that was shown last: the last one of a list that begins with all that this screen
    /// has seen and was told. It waits for nobody and copies no text. At `Err` the writer is
    /// closed, or the sheet can have no more owners.
    pub fn look(&mut self) -> Result<Sheet, Memory>
        ensures looked { HasLooked self.old self.new }
        ensures last { IfOk result (IsLast self.new.seen) }
        ensures told { IfOk result (λ sheet. Begins self.new.seen self.old.told) }
        ensures given { self.new.given ≡ Some (result_ok result) }
    {
        let told = &self.told;
        let round = self.round;
        let looked = replace_with(&mut self.sight, (), |sight, ()| look_at(sight, told, round));
        looked.ok().ok_or(Memory)
    }
}
