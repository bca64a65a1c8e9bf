// Changes of the parts of one visit.
ghost use Rattle.std.specs.Prelude.{◌≡◌, ◌≤◌, ◌<◌, ◌+◌, ◌++◌, ◌^◌, false, IfErr, IfOk, length, nat_le, take, drop, None, Some};
ghost use Rattle.apron_rules.specs.declared.parts.AirportParts.{AirportParts};
ghost use Rattle.std.specs.List.{list_any};
ghost use Rattle.apron_rules.specs.Rules.{IsAirport, least_of};
ghost use Rattle.visit_book.specs.Changes.{IsTowedBy, cut_of, has_actual_behind, has_few, is_long_enough, join_of, part_from, push_of, pushed_behind, with_parts};
ghost use Rattle.visit_book.specs.Places.{is_actual};
ghost use Rattle.visit_book.specs.WellFormed.{IsWellFormed, plan_end};

use crate::parts::MOST_PARTS;
use crate::slots::is_actual;
use crate::{Part, Parts, Place, Visit};
use apron_base::{Minute, TypeNo};
use apron_rules::{Airport, MAX_LEAST, MAX_TOW};

/// The visit has three parts already, or one of the two pieces would be shorter than the least
/// minutes of its type.
#[derive(Clone, Copy, Debug, PartialEq, Eq)]
pub struct BadCut;

/// No part comes after this one.
#[derive(Clone, Copy, Debug, PartialEq, Eq)]
pub struct BadJoin;

/// The visit with its part of this number, counted from 1, starting at this minute. The later parts
/// are delayed as far as needed: each lasts at least the least minutes of the type, and starts at
/// least the airport's tow minutes after the one before ends. It takes no memory.
pub fn push(visit: &Visit, airport: &Airport, part: u8, from: Minute) -> Visit
    requires well_formed { IsWellFormed airport.now visit.now }
    requires least { 1 ≤ part }
    requires most { part ≤ length visit.now.parts }
    requires planned { has_actual_behind part visit.now ≡ false }
    requires from { from < plan_end airport.now }
    requires towed { IsTowedBy airport.now part from visit.now }
    ensures is { result ≡ push_of airport.now part from visit.now }
    ensures well_formed { IsWellFormed airport.now result }
{
    let tow = airport.parts().tow;
    let old = visit.parts.as_slice()[part as usize - 1];
    let first = part_from(least_of(airport, visit.kind), from, old);
    let pushed = push_behind(visit, airport, part as usize, first.to + tow);
    with_parts(visit, pushed.with(part, first))
}

/// The visit with its part of this number, counted from 1, ending at this minute in its old place,
/// and an unplaced part after it, which starts the airport's tow minutes later and ends at the old
/// end. It takes no memory.
pub fn cut(visit: &Visit, airport: &Airport, part: u8, at: Minute) -> Result<Visit, BadCut>
    requires well_formed { IsWellFormed airport.now visit.now }
    requires least { 1 ≤ part }
    requires most { part ≤ length visit.now.parts }
    ensures ok { IfOk result (λ cut. cut_of airport.now part at visit.now ≡ Some cut) }
    ensures well_formed { IfOk result (IsWellFormed airport.now) }
    ensures err { IfErr result (λ _. cut_of airport.now part at visit.now ≡ None) }
{
    match cut_of(visit, airport, part, at) {
        Some(cut) => Ok(cut),
        None => Err(BadCut),
    }
}

/// The visit with its part of this number, counted from 1, and the next one joined into one part,
/// which keeps the place of the first and the end of the second. It takes no memory.
pub fn join(visit: &Visit, part: u8) -> Result<Visit, BadJoin>
    requires least { 1 ≤ part }
    requires most { part ≤ length visit.now.parts }
    ensures ok { IfOk result (λ joined. join_of part visit.now ≡ Some joined) }
    ensures well_formed { (airport : AirportParts)
        → IsWellFormed airport visit.now
        → IfOk result (IsWellFormed airport) }
    ensures err { IfErr result (λ _. join_of part visit.now ≡ None) }
{
    match join_of(visit, part) {
        Some(joined) => Ok(joined),
        None => Err(BadJoin),
    }
}

/// Whether a part after the one of this number, counted from 1, is actual.
pub fn has_actual_behind(visit: &Visit, part: u8) -> bool
    ensures is { result ≡ has_actual_behind part visit.now }
{
    let parts = visit.parts.as_slice();
    let count = part as usize;
    count < parts.len() && has_actual(&parts[count..])
}

fn has_actual(parts: &[Part]) -> bool
    ensures is { result ≡ list_any (λ part. is_actual part.place) parts.now }
{
    parts.iter().any(|part| is_actual(&part.place))
}

fn cut_of(visit: &Visit, airport: &Airport, part: u8, at: Minute) -> Option<Visit>
    requires kind { visit.now.kind.0 < length airport.now.types }
    requires least { 1 ≤ part }
    requires most { part ≤ length visit.now.parts }
    ensures is { result ≡ cut_of airport.now part at visit.now }
    ensures airport { IsAirport airport.now }
{
    let tow = airport.parts().tow;
    let least = least_of(airport, visit.kind);
    let old = visit.parts.get(part)?;
    if !(has_few(&visit.parts) && is_long_enough(tow, least, at, &old)) {
        return None;
    }
    let first = Part { to: at, ..old };
    let second = Part {
        from: at + tow,
        to: old.to,
        place: Place::Unplaced(None),
    };
    let parts = visit.parts.with(part, first).with_behind(part, second);
    Some(with_parts(visit, parts))
}

fn join_of(visit: &Visit, part: u8) -> Option<Visit>
    requires least { 1 ≤ part }
    requires most { part ≤ length visit.now.parts }
    ensures is { result ≡ join_of part visit.now }
{
    let old = visit.parts.as_slice()[part as usize - 1];
    let next = visit.parts.get(part + 1)?;
    let joined = Part { to: next.to, ..old };
    let parts = visit.parts.with(part, joined).without(part + 1);
    Some(with_parts(visit, parts))
}

// Delays all parts after the first `kept`: the next one starts at this minute at the earliest, and
// each later one at least the airport's tow minutes after the one before ends.
pub(crate) fn push_behind(visit: &Visit, airport: &Airport, kept: usize, earliest: Minute) -> Parts
    requires well_formed { IsWellFormed airport.now visit.now }
    requires kept { kept ≤ length visit.now.parts }
    requires earliest { earliest < 2 ^ 16 }
    ensures is { result
        ≡ take kept visit.now.parts
        ++ pushed_behind airport.now.tow (least_of airport.now visit.now.kind) earliest
        (drop kept visit.now.parts) }
    ensures count { length result ≡ length visit.now.parts }
{
    let tow = airport.parts().tow;
    let least = least_of(airport, visit.kind);
    let mut parts = visit.parts;
    let mut earliest = earliest;
    for index in kept..visit.parts.len() {
        let old = visit.parts.as_slice()[index];
        let pushed = part_from(least, earliest.max(old.from), old);
        parts = parts.with(index as u8 + 1, pushed);
        earliest = pushed.to + tow;
    }
    parts
}

// The part starting at this minute, with an end at least the least minutes later.
pub(crate) fn part_from(least: u32, from: Minute, part: Part) -> Part
    requires room { from + least < 2 ^ 32 }
    ensures is { result ≡ part_from least from part }
{
    Part {
        from,
        to: part.to.max(from + least),
        ..part
    }
}

// Whether there is room for one more part.
fn has_few(parts: &Parts) -> bool
    ensures is { result ≡ has_few parts.now }
{
    parts.len() < MOST_PARTS
}

// Whether both pieces of the part have at least the least minutes, with the tow minutes between
// them.
fn is_long_enough(tow: u32, least: u32, at: Minute, part: &Part) -> bool
    requires tow { tow ≤ MAX_TOW }
    requires least { least ≤ MAX_LEAST }
    ensures is { result ≡ is_long_enough tow least at part.now }
{
    are_apart(least, part.from, at) && are_apart(tow + least, at, part.to)
}

// Whether the second minute is at least this many minutes after the first.
pub(crate) fn are_apart(minutes: u32, from: Minute, to: Minute) -> bool
    ensures is { result ≡ nat_le (from + minutes) to }
{
    from <= to && to - from >= minutes
}

// The least minutes of the type.
pub(crate) fn least_of(airport: &Airport, kind: TypeNo) -> u32
    requires kind { kind.0 < length airport.now.types }
    ensures is { result ≡ least_of airport.now kind }
    ensures some { 1 ≤ result }
    ensures few { result ≤ MAX_LEAST }
    ensures airport { IsAirport airport.now }
{
    airport.parts().types.as_slice()[kind.0 as usize].least
}

pub(crate) fn with_parts(visit: &Visit, parts: Parts) -> Visit
    ensures is { result ≡ with_parts visit.now parts }
{
    Visit { parts, ..*visit }
}
