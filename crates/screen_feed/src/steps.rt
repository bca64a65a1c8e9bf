// What a writer and its screen do with their two copies of a page.
ghost use Rattle.std.specs.Prelude.{◌≡◌, ◌≤◌, ◌+◌, ◌↔◌, ◌∷◌, ◌++◌, [], length, IfErr, IfOk, IsSome, IsTrue, None, OnErr, OnOk, Some};
ghost use Rattle.std.specs.Option.{ForSome, option_map};
ghost use Rattle.left_right.specs.Sides.{view};
ghost use Rattle.screen_feed.specs.Ends.{HasLookedAt};
ghost use Rattle.screen_feed.specs.Looks.{HasNoSheet, IsNoSheetOf};
ghost use Rattle.screen_feed.specs.Logs.{begun_after, shown_in};
ghost use Rattle.screen_feed.specs.Pages.{Follows, sheets_seen, sheets_with};
ghost use Rattle.screen_feed.specs.Sheets.{AreSheets, Begins, IsLast};

use crate::appender::Appender;
use crate::book::Log;
use crate::page::{LookAtPage, Page, PairRule, Tell};
use crate::sheet::{NoOwner, Sheet};
use apron_base::Memory;
use core::mem::replace_with;
use left_right::reader::Reader;
use left_right::writer::Writer;
use std::alloc::Global;
use std::snapshot::Snapshot;
use std::sync::Wait;

/// The writer's side of a pair of copies.
pub(crate) type WriterSide = Writer<Page, Page, Option<Page>, PairRule>;

/// The screen's side.
pub(crate) type ScreenSide = Reader<Page, Option<Page>, PairRule>;

/// The screen's side, with what was known of the book as the page was begun that it has seen last,
/// and, in proofs alone, what the last look gave. Only `look_at` sets this.
#[derive(Drop)]
pub(crate) struct Sight {
    side: ScreenSide,
    seen: Log,
    given: Option<Snapshot<Result<Sheet, NoSheet>>>,
}

/// Why a look gives no sheet.
#[derive(Drop)]
pub(crate) enum NoSheet {
    /// The writer is closed.
    Closed,
    /// The page is older than what was told. This never comes, since a writer publishes a page
    /// before it tells of it. But no clause of `left_right` says so of a reader that has looked
    /// before.
    Older,
    /// The page's sheet can have no more owners.
    Owned(NoOwner),
}

impl Sight {
    /// A side that has seen a page, at which nobody has looked.
    pub fn new(side: ScreenSide, seen: Log) -> Sight
        ensures side { result.side ≡ side }
        ensures seen { result.seen ≡ seen }
        ensures given { result.given ≡ None }
    {
        Sight {
            side,
            seen,
            given: None,
        }
    }

    /// What was known of the book as the page was begun that it has seen last.
    pub fn seen(&self) -> &Log
        ensures seen { result.now ≡ self.now.seen }
    {
        &self.seen
    }
}

/// The page of the sheet that was begun last.
pub(crate) fn page_of(appender: &Appender, sheet: Sheet) -> Page
    requires begun { begun_after None appender.now.log ≡ Some sheet }
    requires sheets { AreSheets sheet.shown (shown_in appender.now.log ++ sheet ∷ []) }
    ensures page { result
        ≡ record { sheet = sheet; book = appender.now.book; log = appender.now.log } }
{
    Page {
        sheet,
        round: appender.round(),
        seen: appender.seen(),
    }
}

/// A pair of copies of this page. The screen's side has seen it. The only error is a lack of
/// memory.
pub(crate) fn pair_of<R: Wait>(
    rt: &R,
    alloc: Global,
    page: Page,
) -> Result<(WriterSide, ScreenSide), Memory>
    ensures desk { IfOk result (λ ends. ends.0.desk.shown.value ≡ page) }
    ensures side { IfOk result (λ ends. view ends.1.place ≡ Some page) }
{
    let second = page.again()?;
    let end = WriterSide::new(alloc, page, second, 1)?;
    let (mut end, published) = end.publish_as::<LookAtPage, R>(rt);
    let Ok(()) = published else {
        end.take(rt);
        return Err(Memory);
    };
    let Ok(mut side) = end.factory().reader() else {
        end.take(rt);
        return Err(Memory);
    };
    side.learn::<Tell>(end.tell::<Tell>());
    Ok((end, side))
}

// The writer's side once the page is published.
fn publish_page<R: Wait>(rt: &R, end: WriterSide, page: Page) -> (WriterSide, Result<(), Memory>)
    requires follows { Follows end.desk.shown.value page }
    ensures ok { OnOk result.1 (result.0.desk.shown.value ≡ page) }
    ensures err { OnErr result.1 (result.0.desk.shown.value ≡ end.desk.shown.value) }
{
    let mut end = end;
    let Ok(()) = end.append(page) else {
        return (end, Err(Memory));
    };
    let (end, published) = end.publish_as::<LookAtPage, R>(rt);
    match published {
        Ok(()) => (end, Ok(())),
        Err(_) => (end, Err(Memory)),
    }
}

/// Puts the page before the screen. At `Err` there is no memory, and the screen sees what it saw.
/// It may wait for a screen that is looking.
pub(crate) fn publish<R: Wait>(rt: &R, end: &mut WriterSide, page: Page) -> Result<(), Memory>
    requires follows { Follows end.old.desk.shown.value page }
    ensures ok { OnOk result (end.new.desk.shown.value ≡ page) }
    ensures err { OnErr result (end.new.desk.shown.value ≡ end.old.desk.shown.value) }
{
    replace_with(end, page, |end, page| publish_page(rt, end, page))
}

// Whether the page is late enough to show all that was told.
fn covers(page: &Page, told: &Log, round: u64) -> bool
    requires book { page.now.book ≡ told.now.book }
    requires round { round ≡ length told.now.log }
    ensures sheets { AreSheets page.now.sheet.shown (sheets_with page.now) }
    ensures begun { begun_after None page.now.log ≡ Some page.now.sheet }
    ensures late { IsTrue result ↔ length told.now.log ≤ length page.now.log + 1 }
    ensures told { IsTrue result → Begins (sheets_with page.now) (shown_in told.now.log) }
{
    let mut both = page.seen.again();
    both.learn(told);
    round.saturating_sub(1) <= page.round
}

// The sheet of a page.
fn sheet_at(page: &Page, told: &Log, round: u64) -> Result<Sheet, NoSheet>
    requires book { page.now.book ≡ told.now.book }
    requires round { round ≡ length told.now.log }
    ensures sheets { AreSheets page.now.sheet.shown (sheets_with page.now) }
    ensures begun { begun_after None page.now.log ≡ Some page.now.sheet }
    ensures is { IfOk result (λ sheet. sheet ≡ page.now.sheet) }
    ensures told { IfOk result
        (λ sheet. Begins (sheets_with page.now) (shown_in told.now.log)) }
    ensures none { IfErr result (IsNoSheetOf page.now told.now.log) }
{
    if !covers(page, told, round) {
        return Err(NoSheet::Older);
    }
    match page.sheet.another() {
        Ok(sheet) => Ok(sheet),
        Err(none) => Err(NoSheet::Owned(none)),
    }
}

/// The sheet that is shown, or why there is none.
pub(crate) fn look_at(sight: Sight, told: &Log, round: u64) -> (Sight, Result<Sheet, NoSheet>)
    requires there { IsSome (view sight.side.place) }
    requires book { ForSome (view sight.side.place) (λ page. page.book ≡ told.now.book) }
    requires log { ForSome (view sight.side.place)
        (λ page. (page.book ≡ sight.seen.book) × (page.log ≡ sight.seen.log)) }
    requires round { round ≡ length told.now.log }
    ensures seen { HasLookedAt (view sight.side.place) (view result.0.side.place) }
    ensures log { ForSome (view result.0.side.place)
        (λ page. (page.book ≡ result.0.seen.book) × (page.log ≡ result.0.seen.log)) }
    ensures last { IfOk result.1 (IsLast (sheets_seen (view result.0.side.place))) }
    ensures told { IfOk result.1
        (λ sheet. Begins (sheets_seen (view result.0.side.place)) (shown_in told.now.log)) }
    ensures given { option_map (λ given. given.value) result.0.given ≡ Some result.1 }
    ensures none { IfErr result.1 (HasNoSheet told.now.log (view sight.side.place)
        (view result.0.side.place)) }
{
    let Sight {
        side,
        seen,
        given: _given,
    } = sight;
    match side.enter_as::<LookAtPage>() {
        Ok(reading) => {
            let page = reading.get();
            let seen = page.seen.again();
            let answer = sheet_at(page, told, round);
            let given = Some(Snapshot::of(&answer));
            let side = reading.leave();
            (Sight { side, seen, given }, answer)
        }
        Err(side) => {
            let answer = Err(NoSheet::Closed);
            let given = Some(Snapshot::of(&answer));
            (Sight { side, seen, given }, answer)
        }
    }
}
