// A visit comes on block, is expected off block, and goes.
ghost use Rattle.std.specs.Prelude.{◌≡◌, ◌≤◌, ◌<◌, ◌++◌, IfErr, IfOk, IfSome, drop, filter, length, map, take, true, None, Some};
ghost use Rattle.apron_rules.specs.declared.parts.AirportParts.{AirportParts};
ghost use Rattle.apron_rules.specs.Rules.{IsAirport};
ghost use Rattle.visit_book.specs.Movements.{arrive_of, depart_of, estimate_off_of, first_starts_before, has_time_to_tow, in_fact, last_ended, made_actual, on_given, starts_before};
ghost use Rattle.visit_book.specs.WellFormed.{IsWellFormed, plan_end};
ghost use Rattle.visit_book.specs.declared.visits.End.TheVariants.{Live};

use crate::changes::{has_actual_behind, least_of, part_from, push_behind, with_parts};
use crate::{End, Part, Parts, Place, Visit};
use apron_base::{Minute, StandNo};
use apron_rules::Airport;

/// A later part is actual, or the minute is too early: the part before it needs at least one minute
/// and then the tow minutes, and a visit goes after the start of its first part.
#[derive(Clone, Copy, Debug, PartialEq, Eq)]
pub struct BadTime;

/// The visit on block at this minute with its part of this number, counted from 1, on this stand
/// or, if none is given, on the one that the part has. The part before ends the airport's tow
/// minutes earlier, the parts up to this one are on their stands in fact, and the later ones are
/// delayed as far as needed. It takes no memory.
pub fn arrive(
    visit: &Visit,
    airport: &Airport,
    part: u8,
    at: Minute,
    stand: Option<StandNo>,
) -> Result<Visit, BadTime>
    requires well_formed { IsWellFormed airport.now visit.now }
    requires live { visit.now.end ≡ Live }
    requires least { 1 ≤ part }
    requires most { part ≤ length visit.now.parts }
    requires at { at < plan_end airport.now }
    requires stand { IfSome stand (λ stand. stand.0 < length airport.now.stands) }
    ensures ok { IfOk result (λ new. arrive_of airport.now part at stand visit.now ≡ Some new) }
    ensures well_formed { IfOk result (IsWellFormed airport.now) }
    ensures err { IfErr result (λ _. arrive_of airport.now part at stand visit.now ≡ None) }
{
    match arrive_of(visit, airport, part, at, stand) {
        Some(new) => Ok(new),
        None => Err(BadTime),
    }
}

/// The visit with its last part ending at this minute, or as much later as needed to have the least
/// minutes of the type. It takes no memory.
pub fn estimate_off(visit: &Visit, airport: &Airport, at: Minute) -> Visit
    requires well_formed { IsWellFormed airport.now visit.now }
    requires at { at < plan_end airport.now }
    ensures is { result ≡ estimate_off_of airport.now at visit.now }
    ensures well_formed { IsWellFormed airport.now result }
{
    let least = least_of(airport, visit.kind);
    let parts = visit.parts.as_slice();
    let last = parts[parts.len() - 1];
    let end = at.max(last.from + least);
    with_parts(visit, parts_ended(visit.parts, parts.len(), end))
}

/// The visit gone at this minute: its parts that start earlier are on their stands in fact, the
/// last of them ends at this minute, and the later parts are removed. It takes no memory.
pub fn depart(visit: &Visit, at: Minute) -> Result<Visit, BadTime>
    ensures ok { IfOk result (λ new. depart_of at visit.now ≡ Some new) }
    ensures well_formed { (airport : AirportParts)
        → IsWellFormed airport visit.now
        → at < plan_end airport
        → IfOk result (IsWellFormed airport) }
    ensures err { IfErr result (λ _. depart_of at visit.now ≡ None) }
{
    match depart_of(visit, at) {
        Some(new) => Ok(new),
        None => Err(BadTime),
    }
}

fn arrive_of(
    visit: &Visit,
    airport: &Airport,
    part: u8,
    at: Minute,
    stand: Option<StandNo>,
) -> Option<Visit>
    requires well_formed { IsWellFormed airport.now visit.now }
    requires least { 1 ≤ part }
    requires most { part ≤ length visit.now.parts }
    requires at { at < plan_end airport.now }
    ensures is { result ≡ arrive_of airport.now part at stand visit.now }
    ensures airport { IsAirport airport.now }
{
    let tow = airport.parts().tow;
    if has_actual_behind(visit, part) || !has_time_to_tow(tow, part, at, &visit.parts) {
        return None;
    }
    let old = visit.parts.as_slice()[part as usize - 1];
    let own = made_actual(on_given(stand, old));
    let first = part_from(least_of(airport, visit.kind), at, own);
    let pushed = push_behind(visit, airport, part as usize, first.to + tow).with(part, first);
    let before = part as usize - 1;
    Some(Visit {
        parts: parts_left(pushed, before, at.saturating_sub(tow)),
        on_block: true,
        ..*visit
    })
}

fn depart_of(visit: &Visit, at: Minute) -> Option<Visit>
    ensures is { result ≡ depart_of at visit.now }
{
    if visit.parts.as_slice()[0].from >= at {
        return None;
    }
    let started = started_before(&visit.parts, at);
    Some(Visit {
        parts: parts_left(started, started.len(), at),
        on_block: true,
        end: End::Gone,
        ..*visit
    })
}

// Whether the part before the one of this number, if there is one, starts at least one minute plus
// the tow minutes before this minute.
fn has_time_to_tow(tow: u32, number: u8, at: Minute, parts: &Parts) -> bool
    requires least { 1 ≤ number }
    ensures is { result ≡ has_time_to_tow tow number at parts.now }
{
    match parts.get(number - 1) {
        Some(before) => before.from <= at && tow < at - before.from,
        None => true,
    }
}

fn on_given(given: Option<StandNo>, part: Part) -> Part
    ensures is { result ≡ on_given given part }
{
    match given {
        Some(stand) => Part {
            place: Place::Planned(stand),
            ..part
        },
        None => part,
    }
}

fn made_actual(part: Part) -> Part
    ensures is { result ≡ made_actual part }
{
    Part {
        place: in_fact(part.place),
        ..part
    }
}

fn in_fact(place: Place) -> Place
    ensures is { result ≡ in_fact place }
{
    match place {
        Place::Planned(stand) => Place::Actual(stand),
        Place::Unplaced(_) | Place::Actual(_) => place,
    }
}

// The parts, with the first `count` of them on their stands in fact, and the last of these ending
// at this minute.
fn parts_left(parts: Parts, count: usize, end: Minute) -> Parts
    requires count { count ≤ length parts }
    ensures is { result ≡ map made_actual (last_ended end (take count parts)) ++ drop count parts }
{
    with_actual(parts_ended(parts, count, end), count)
}

// The parts, with the first `count` of them on their stands in fact.
fn with_actual(parts: Parts, count: usize) -> Parts
    requires count { count ≤ length parts }
    ensures is { result ≡ map made_actual (take count parts) ++ drop count parts }
{
    let mut made = parts;
    for index in 0..count {
        let part = parts.as_slice()[index];
        made = made.with(index as u8 + 1, made_actual(part));
    }
    made
}

// The parts, with the last of the first `count` ending at this minute.
fn parts_ended(parts: Parts, count: usize, end: Minute) -> Parts
    requires count { count ≤ length parts }
    ensures is { result ≡ last_ended end (take count parts) ++ drop count parts }
{
    if count == 0 {
        return parts;
    }
    let last = parts.as_slice()[count - 1];
    parts.with(count as u8, Part { to: end, ..last })
}

// The parts that start before this minute. The first part does.
fn started_before(parts: &Parts, at: Minute) -> Parts
    requires first { first_starts_before at parts.now ≡ true }
    ensures is { result ≡ filter (starts_before at) parts.now }
{
    let all = parts.as_slice();
    let mut started = Parts::one(all[0]);
    for index in 1..all.len() {
        if all[index].from < at {
            started = started.with_behind(started.len() as u8, all[index]);
        }
    }
    started
}
