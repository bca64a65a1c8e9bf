// One plan on several writers.
ghost use Rattle.std.specs.Prelude.{◌≡◌, ◌↔◌, false, map};
ghost use Rattle.std.specs.List.{AllZip};
ghost use Rattle.apron_base.specs.Histories.{Every};
ghost use Rattle.screen_feed.specs.Sheets.{AreAmong};
ghost use Rattle.shown_board.specs.Halls.{CanShow, IsShown, ShowsVersion, pairs_of};

use crate::charts::Charts;
use screen_feed::{Screen, ScreenWriter};
use std::alloc::Global;
use std::sync::Wait;

/// Shows a plan on each of these. It gives whether some writer does not show the plan's version,
/// since a show had no memory. Writers of one day that follow each other share a chart. It may wait
/// for screens that are looking.
pub(crate) fn show_on_all<W: Wait>(
    rt: &W,
    alloc: Global,
    charts: &mut Charts<'_>,
    writers: &mut [ScreenWriter],
) -> bool
    requires writers { Every (CanShow charts.old) writers.old }
    ensures shown { AllZip (IsShown charts.old) writers.old writers.new }
    ensures missed { result ≡ false ↔ Every (ShowsVersion charts.old.version) writers.new }
{
    if writers.is_empty() {
        return false;
    }
    let (first, rest) = writers.split_at_mut(1);
    let missed = charts.show_on(rt, alloc, &mut first[0]).is_err();
    let others = show_on_all(rt, alloc, charts, rest);
    missed || others
}

/// Nothing is done: it shows that each of these writers has shown, or tried to show, each sheet
/// that its screen has seen.
pub(crate) fn know_all(writers: &mut [ScreenWriter], screens: &[Screen])
    requires pairs { pairs_of writers.old ≡ map (λ screen. screen.pair) screens.now }
    ensures same { writers.new ≡ writers.old }
    ensures tried { AllZip (λ writer screen. AreAmong screen.seen writer.tried)
        writers.old screens.now }
{
    if writers.is_empty() {
        return;
    }
    let (first, rest) = writers.split_at_mut(1);
    first[0].knows(&screens[0]);
    know_all(rest, &screens[1..]);
}

/// Ends each of these. It may wait for screens that are looking, and takes no memory.
pub(crate) fn close_all<W: Wait>(rt: &W, writers: Vec<ScreenWriter>) {
    let mut writers = writers;
    while let Some(writer) = writers.pop() {
        writer.close(rt);
    }
    writers.destroy_empty();
}
