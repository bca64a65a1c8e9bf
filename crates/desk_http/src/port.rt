// What a session asks of the plan.
ghost use Rattle.std.specs.Prelude.{◌≡◌};
ghost use Rattle.history_core.specs.History.{IsAskOf};
ghost use Rattle.desk_http.specs.Ports.{ShowsAsk, Turn};

use apron_base::{Acted, Name};
use apron_rules::Airport;
use desk_asks::Ask;
use std::alloc::Global;

/// A way to one board: for one desk alone, or for one of several desks that take turns.
pub trait DeskPort {
    ghost use Rattle.apron_rules.specs.declared.parts.AirportParts.{AirportParts};
    ghost use Rattle.desk_asks.specs.declared.asks.Ask.{Ask};
    ghost use Rattle.history_core.specs.Answer.{Given};
    ghost use Rattle.desk_http.specs.Ports.{PortState, Turn, ShowsAsk};

    /// What no call changes beside the airport.
    type Fixed;

    /// The airport of the board's plan. No call changes it.
    ghost airport_of: { Self → AirportParts };

    /// What is fixed of the port: for a seat its board and its share. No call changes it.
    ghost fixed: { Self → Self.Fixed };

    /// What the port tells of itself.
    ghost port: { Self → PortState };

    /// What it gives for an ask at that airport, and what it becomes.
    ghost asks: { AirportParts → PortState → Ask → Given → PortState → Type 0 };

    /// The airport of the plan.
    fn airport(&self) -> &Airport
        ensures value { result.now ≡ airport_of self.now };

    /// Answers an ask. Spent comes if the port's call numbers have run out, and then no call was
    /// made.
    fn ask(&mut self, alloc: Global, ask: &Ask) -> Acted
        requires valid { IsAskOf (airport_of self.old) ask.now }
        ensures airport { airport_of self.new ≡ airport_of self.old }
        ensures fixed { fixed self.new ≡ fixed self.old }
        ensures shows { ShowsAsk asks (airport_of self.old) (port self.old) ask.now
            result (port self.new) };

    /// Whatever a port gives, it gives at the whole history as the ask's turn found it.
    ghost takes_turns: { (airport : AirportParts) (before after : PortState)
        (ask : Ask) (given : Given) → asks airport before ask given after
        → Turn airport before ask given after };
}

/// A feed: the bumps that a watch picks of those after a version.
#[derive(Clone, Copy, Debug)]
pub struct Feed {
    /// The name of the watch.
    pub watch: Name,
    /// The version after which the bumps are.
    pub after: u32,
}

/// A feed that is asked for.
#[derive(Clone, Copy, Debug)]
pub struct FeedAsk {
    /// The version that the desk has seen.
    pub seen: u32,
    pub feed: Feed,
}

/// A port that answers feeds too. The port says what their replies are, so that a session knows of
/// no watches.
pub trait FeedPort: DeskPort {
    ghost use Rattle.std.specs.Prelude.{◌≡◌, ℕ, List};
    ghost use Rattle.apron_rules.specs.declared.parts.AirportParts.{AirportParts};
    ghost use Rattle.desk_asks.specs.declared.asks.Entry.{Entry};
    ghost use Rattle.desk_http.specs.Ports.{PortState};
    ghost use Rattle.desk_http.specs.FeedPorts.{FeedGiven, FeedTurn, ShowsFeed};
    ghost use Rattle.desk_http.specs.declared.port.FeedAsk.{FeedAsk};

    /// The text of the reply to each feed at each history of the airport.
    ghost feed_text: { Self.Fixed → AirportParts → FeedAsk → List Entry → List ℕ };

    /// What it gives for a feed at what is fixed and that airport, and what it becomes.
    ghost feeds: { Self.Fixed → AirportParts → PortState → FeedAsk → FeedGiven → PortState
        → Type 0 };

    /// Answers a feed: the bumps that the watch of this name picks, of those after the version
    /// `after`, to a desk that has seen the version `seen`. It adds no entry, and answers no Fault.
    /// Spent comes if the port's call numbers have run out, and then no call was made.
    fn feed(&mut self, alloc: Global, seen: u32, watch: &Name, after: u32) -> Acted
        ensures airport { Self.airport_of self.new ≡ Self.airport_of self.old }
        ensures fixed { Self.fixed self.new ≡ Self.fixed self.old }
        ensures shows { ShowsFeed (feeds (Self.fixed self.old) (Self.airport_of self.old))
            (Self.port self.old)
            (record { seen = seen; feed = record { watch = watch.now; after = after } }) result
            (Self.port self.new) };

    /// Whatever a port gives for a feed, it gives at the whole history as the feed's turn found it.
    ghost feeds_take_turns: { (fixed : Self.Fixed) (airport : AirportParts)
        (before after : PortState) (ask : FeedAsk) (given : FeedGiven)
        → feeds fixed airport before ask given after
        → FeedTurn airport (feed_text fixed airport ask) before given after };
}
