// A board at which desks take turns.
use apron_base::Machine;
use apron_rules::AirportParts;
use desk_asks::{Ask, Entry};
use desk_http::FeedAsk;
use watch_list::WatchAsk;

/// A board with watches, alone or with something around it. Its history is the board's. What a desk
/// asks is answered as by the board, and a feed as by its watches.
pub trait DeskMachine: Machine<Ask = WatchAsk, Entry = Entry> {
    ghost use Rattle.std.specs.Prelude.{◌≡◌, ◌≤◌, ℕ, List};
    ghost use Rattle.apron_base.specs.declared.outside.Acted.{Acted};
    ghost use Rattle.apron_rules.specs.declared.parts.AirportParts.{AirportParts};
    ghost use Rattle.desk_asks.specs.declared.asks.Ask.{Ask};
    ghost use Rattle.desk_asks.specs.declared.asks.Entry.{Entry};
    ghost use Rattle.history_core.specs.Answer.{ActsLegally};
    ghost use Rattle.history_core.specs.History.{IsAskOf, IsLegal, call_limit, call_of};
    ghost use Rattle.watch_list.specs.declared.watch_asks.WatchAsk.TheVariants.{Plain};
    ghost use Rattle.desk_http.specs.declared.port.FeedAsk.{FeedAsk};
    ghost use Rattle.desk_workers.specs.Feeds.{IsLegalFeed};
    ghost use Rattle.desk_workers.specs.Machines.{AddsAsked, asks_feed};

    /// The airport of its plan.
    ghost airport: { Self.Fixed → AirportParts };

    /// The text of the reply to each feed at each history.
    ghost feed_text: { Self.Fixed → FeedAsk → List Entry → List ℕ };

    /// Nothing is done: it shows that the history is legal, and that the number of the next call is
    /// within the limit.
    fn is_board(&self)
        ensures next { (Self.state self.now).next ≤ call_limit }
        ensures legal { IsLegal (airport (Self.state self.now).fixed)
            (Self.state self.now).history };

    /// The number of an entry is that of the call which added it.
    ghost numbers: { Self.number ≡ call_of };

    /// Each ask of a desk at the airport may be asked.
    ghost can_ask: { (fixed : Self.Fixed) (ask : Ask) → IsAskOf (airport fixed) ask
        → Self.valid fixed (Plain ask) };

    /// Each feed may be asked for.
    ghost can_feed: { (fixed : Self.Fixed) (ask : FeedAsk) → Self.valid fixed (asks_feed ask) };

    /// The only entry that it can add is that of the command which a desk asks.
    ghost adds_asked: { (ask : Ask) (entry : Entry) → Self.adds (Plain ask) entry
        → AddsAsked ask entry };

    /// A feed adds no entry.
    ghost adds_none: { (ask : FeedAsk) (entry : Entry) → Self.adds (asks_feed ask) entry → ⊥ };

    /// It answers a desk's ask as the board does.
    ghost answers_as: { (fixed : Self.Fixed) (before : List Entry) (call : ℕ) (ask : Ask)
        (answer : Acted) (after : List Entry)
        → Self.answers fixed before call (Plain ask) answer after
        → ActsLegally (airport fixed) before call ask answer after };

    /// A feed gets its reply at the history that it finds, or there is no memory. It leaves that
    /// history.
    ghost feeds_as: { (fixed : Self.Fixed) (before : List Entry) (call : ℕ) (ask : FeedAsk)
        (answer : Acted) (after : List Entry)
        → Self.answers fixed before call (asks_feed ask) answer after
        → IsLegalFeed (airport fixed) (feed_text fixed ask) before answer after };
}
