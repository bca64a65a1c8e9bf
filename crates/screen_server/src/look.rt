// One look of a screen, for one connection.
ghost use Rattle.screen_server.specs.Looks.{LooksOnce};

use apron_base::{Failed, Outcome, Sink, Source};
use desk_workers::ConnectionHandler;
use screen_feed::Screen;
use std::alloc::Global;

/// Each connection has one look of a screen. Nothing is read from it.
pub(crate) struct Looks;

impl ConnectionHandler<Screen> for Looks {
    ghost use Rattle.screen_feed.specs.Screens.{ScreenState};
    ghost use Rattle.screen_server.specs.Looks.{HasLook};

    type Fixed = ();

    ghost State = { ScreenState };

    ghost fixed = { λ screen. tt };

    ghost state = { λ screen. screen };

    ghost serves = { λ {In} {Out} states fixed. HasLook states };

    fn serve<In: Source, Out: Sink>(
        &self,
        _alloc: Global,
        own: &mut Screen,
        _source: &mut In,
        sink: &mut Out,
    ) -> Outcome {
        look_once(own, sink)
    }
}

/// Looks once, and puts the text of the sheet. If there is no memory for a sheet, nothing is put.
fn look_once<W: Sink>(screen: &mut Screen, sink: &mut W) -> Outcome
    ensures looks { LooksOnce (record { screen = screen.old; sink = W.state sink.old })
        (record { screen = screen.new; sink = W.state sink.new }) result }
{
    let Ok(sheet) = screen.look() else {
        return Outcome::Memory;
    };
    match sink.put(sheet.text()) {
        Ok(()) => Outcome::Ended,
        Err(Failed) => Outcome::WriteFault,
    }
}
