// A movement message comes.
ghost use Rattle.std.specs.Prelude.{◌≡◌, IfOk, IfSome, option_map};
ghost use Rattle.std.specs.Option.{option_copied};
ghost use Rattle.mvt_grammar.specs.Readable.{IsReadable};
ghost use Rattle.visit_book.specs.Numbers.{IsNumbered};
ghost use Rattle.visit_effects.specs.Effects.{live_of};
ghost use Rattle.desk_asks.specs.declared.asks.Command.TheVariants.{Message};
ghost use Rattle.bump_core.specs.Settled.{IsChanged};
ghost use Rattle.history_core.specs.Acceptance.{visit_after_message};
ghost use Rattle.history_core.specs.Taking.{ComesTo};

use super::settling::settle_changed;
use super::{Taken, answer_unchanged, taken_with_body, takes_entry};
use apron_base::{Memory, VisitNo};
use apron_rules::Airport;
use desk_asks::DeskMessage;
use desk_words::replies::ReplyBody;
use mvt_grammar::Mvt;
use plan_core::Plan;
use std::alloc::Global;
use visit_book::Visit;
use visit_effects::{Movement, effect_of, movement_meant};

/// What a message comes to, at a plan whose history has this many entries.
pub(super) fn take_message(
    alloc: Global,
    airport: &Airport,
    plan: &Plan,
    entries: usize,
    passed: &DeskMessage,
) -> Result<Taken, Memory>
    requires airport { airport.now ≡ plan.now.plan.airport }
    requires readable { IsReadable passed.now.message }
    requires numbered { IsNumbered plan.now.plan.visits }
    requires entries { plan.now.plan.version ≡ entries }
    ensures finds { IfOk result (ComesTo plan.now.plan entries (Message passed.now)) }
{
    let changed = visit_after_message(airport, plan, &passed.message);
    if !takes_entry(entries) {
        return Ok(answer_unchanged(plan, ReplyBody::Full));
    }
    let (change, bumped) = settle_changed(alloc, airport, plan, changed.as_ref())?;
    let visit = number_of_visit(changed.as_ref());
    Ok(taken_with_body(change, ReplyBody::Message { bumped, visit }))
}

// The visit that the message is about, as the message changes it; `None` if it does nothing.
fn visit_after_message(airport: &Airport, plan: &Plan, message: &Mvt) -> Option<Visit>
    requires airport { airport.now ≡ plan.now.plan.airport }
    requires readable { IsReadable message.now }
    requires numbered { IsNumbered plan.now.plan.visits }
    ensures is { result ≡ visit_after_message plan.now.plan message.now }
    ensures changed { IfSome result (IsChanged plan.now.plan) }
{
    // What holds of every plan shows that its visits are well formed.
    let _known = plan.visits();
    let movement = movement_meant(airport, message)?;
    let visit = live_of(plan, &movement)?;
    effect_of(airport, &[*visit], message)
}

// The first live visit of a flight.
fn live_of<'p>(plan: &'p Plan, movement: &Movement) -> Option<&'p Visit>
    ensures is { option_copied result ≡ live_of plan.now.plan.visits movement.now }
{
    match movement {
        Movement::Arrival(key) => plan.live_arriving(key),
        Movement::Departure(key) => plan.live_departing(key),
    }
}

fn number_of_visit(visit: Option<&Visit>) -> Option<VisitNo>
    ensures is { result ≡ option_map (λ visit. visit.number) (option_copied visit.entry) }
{
    match visit {
        Some(visit) => Some(visit.number),
        None => None,
    }
}
