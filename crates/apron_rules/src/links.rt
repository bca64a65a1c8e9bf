// The links of stands, with places counted from 0 instead of names.
ghost use Rattle.std.specs.Prelude.{◌≡◌, ◌<◌, ◌||◌, ◌&&◌, ◌==◌, ◌^◌, [], ℕ, Bool, List, length, map, replicate, IfOk, IfErr, OnOk};
ghost use Rattle.std.specs.List.{list_any};
ghost use Rattle.apron_rules.specs.declared.links.StandPair.{StandPair};
ghost use Rattle.apron_rules.specs.Links.{is_place, is_one_place, links_of, whole_of, pairs_at, is_split_at, is_near_at, is_barred, first_rule, is_restricted_at, ArePairs};
ghost use Rattle.apron_base.specs.Letter.{clearance_of_span};
ghost use Rattle.apron_rules.specs.Kept.{IsLinked};
ghost use Rattle.apron_rules.specs.Rules.{breaks_with_wings, has_letter, span_of};

use crate::names::NameTable;
use crate::{AirportFault, AirportParts, PairRow, Rule, StandRow, TypeRow, Wing};
use apron_base::{Letter, Listed, StandNo, TypeNo, clearance, letter_of};
use std::alloc::Global;

/// Where a stand lies, and which stand it is a half of.
#[derive(Clone, Copy, Debug)]
pub(crate) struct StandLinks {
    /// The place of its frontage.
    pub(crate) frontage: Option<usize>,
    /// The place of its centreline in centimetres along the frontage.
    pub(crate) centre: u32,
    /// The place of the stand that it is a half of, if it is one.
    pub(crate) whole: Option<usize>,
}

/// A pair restriction, as one of its two stands sees it.
#[derive(Clone, Copy, Debug)]
pub(crate) struct StandPair {
    /// The place of the other stand.
    pub(crate) other: usize,
    /// The least letter of a span on this stand.
    pub(crate) own: Letter,
    /// The least letter of a span on the other stand.
    pub(crate) least: Letter,
}

/// The links of each stand.
pub(crate) fn stand_links(
    alloc: Global,
    rows: &[StandRow],
    frontages: &NameTable,
    stands: &NameTable,
) -> Result<Vec<StandLinks>, AirportFault>
    ensures links { IfOk result
        (λ links. links.items ≡ map (links_of frontages.now stands.now) rows.now) }
    ensures memory { IfErr result (λ fault. fault ≡ AirportFault.Memory) }
{
    match rows
        .iter()
        .map(|row| links_of(row, frontages, stands))
        .collect::<Vec<StandLinks>>(alloc)
    {
        Ok(links) => Ok(links),
        Err(_) => Err(AirportFault::Memory),
    }
}

fn links_of(row: &StandRow, frontages: &NameTable, stands: &NameTable) -> StandLinks
    ensures is { result ≡ links_of frontages.now stands.now row.now }
{
    StandLinks {
        frontage: frontages.place(&row.frontage),
        centre: row.centre,
        whole: whole_of(row, stands),
    }
}

fn whole_of(row: &StandRow, stands: &NameTable) -> Option<usize>
    ensures is { result ≡ whole_of stands.now row.now }
{
    stands.place(&row.half_of?)
}

/// The pair restrictions of each stand.
pub(crate) fn stand_pairs(
    alloc: Global,
    rows: &[PairRow],
    stands: &NameTable,
    count: usize,
) -> Result<Vec<Listed<StandPair>>, AirportFault>
    requires count { count ≡ length stands.now }
    ensures pairs { IfOk result (λ pairs. ArePairs stands.now rows.now pairs.items) }
    ensures count { IfOk result (λ pairs. length pairs.items ≡ count) }
    ensures memory { IfErr result (λ fault. fault ≡ AirportFault.Memory) }
{
    let mut pairs = no_pairs(alloc, count)?;
    for place in 0..rows.len() {
        add_row(&mut pairs, &rows[place], stands)?;
    }
    Ok(pairs)
}

fn no_pairs(alloc: Global, count: usize) -> Result<Vec<Listed<StandPair>>, AirportFault>
    ensures empty { IfOk result (λ pairs. pairs.items ≡ replicate count []) }
    ensures memory { IfErr result (λ fault. fault ≡ AirportFault.Memory) }
{
    let mut pairs = Vec::new(alloc);
    for _stand in 0..count {
        if pairs.push(Listed::new(alloc)).is_err() {
            return Err(AirportFault::Memory);
        }
    }
    Ok(pairs)
}

// Adds a restriction to the lists of its two stands.
fn add_row(
    pairs: &mut Vec<Listed<StandPair>>,
    row: &PairRow,
    stands: &NameTable,
) -> Result<(), AirportFault>
    requires length { length pairs.old.items ≡ length stands.now }
    ensures length { OnOk result (length pairs.new.items ≡ length pairs.old.items) }
    ensures added { OnOk result
        ((s s2 k l : ℕ)
        → list_any (is_barred s2 k l) (pairs_at pairs.new.items s)
        ≡ (list_any (is_barred s2 k l) (pairs_at pairs.old.items s)
        || is_restricted_at stands.now s k s2 l row.now)) }
    ensures memory { IfErr result (λ fault. fault ≡ AirportFault.Memory) }
{
    let Some(a) = stands.place(&row.a) else {
        return Ok(());
    };
    let Some(b) = stands.place(&row.b) else {
        return Ok(());
    };
    let of_a = StandPair {
        other: b,
        own: row.la,
        least: row.lb,
    };
    let of_b = StandPair {
        other: a,
        own: row.lb,
        least: row.la,
    };
    add_pair(pairs, a, of_a)?;
    add_pair(pairs, b, of_b)
}

fn add_pair(
    pairs: &mut Vec<Listed<StandPair>>,
    place: usize,
    pair: StandPair,
) -> Result<(), AirportFault>
    requires inside { place < length pairs.old.items }
    ensures length { OnOk result (length pairs.new.items ≡ length pairs.old.items) }
    ensures added { OnOk result ((test : StandPair → Bool) (s : ℕ)
        → list_any test (pairs_at pairs.new.items s)
        ≡ (list_any test (pairs_at pairs.old.items s) || (s == place && test pair))) }
    ensures memory { IfErr result (λ fault. fault ≡ AirportFault.Memory) }
{
    match pairs[place].push(pair) {
        Ok(()) => Ok(()),
        Err(_) => Err(AirportFault::Memory),
    }
}

/// The first rule by which two stands exclude each other with these types on them, each with its
/// wing tips as given.
pub(crate) fn breaks_by_place(
    parts: &AirportParts,
    links: &[StandLinks],
    pairs: &[Listed<StandPair>],
    s: StandNo,
    t: TypeNo,
    w: Wing,
    s2: StandNo,
    t2: TypeNo,
    w2: Wing,
) -> Option<Rule>
    requires linked { IsLinked parts.now links.now pairs.now }
    requires s { s.0 < length parts.now.stands }
    requires t { t.0 < length parts.now.types }
    requires s2 { s2.0 < length parts.now.stands }
    requires t2 { t2.0 < length parts.now.types }
    ensures is { result ≡ breaks_with_wings parts.now s t w s2 t2 w2 }
{
    let types = parts.types.as_slice();
    let x = &links[s.0 as usize];
    let k = span_of(w, &types[t.0 as usize]);
    let y = &links[s2.0 as usize];
    let l = span_of(w2, &types[t2.0 as usize]);
    first_rule(s, x, k, s2, y, l, pairs[s.0 as usize].as_slice())
}

// The span of a type in centimetres, with its wing tips unfolded or folded.
fn span_of(wing: Wing, row: &TypeRow) -> u32
    ensures is { result ≡ span_of wing row.now }
{
    match wing {
        Wing::Full => row.span,
        Wing::Parked => row.parked,
    }
}

// The first rule by which two stands exclude each other with aircraft of the spans k and l on them:
// by the links of both, and the pair restrictions of the first.
fn first_rule(
    s: StandNo,
    x: &StandLinks,
    k: u32,
    s2: StandNo,
    y: &StandLinks,
    l: u32,
    pairs: &[StandPair],
) -> Option<Rule>
    ensures is { result
        ≡ first_rule (s.0 == s2.0) (is_split_at s.0 x.now s2.0 y.now) (is_near_at x.now k y.now l)
        (list_any (is_barred s2.0 k l) pairs.now) }
{
    if s == s2 {
        Some(Rule::Same)
    } else if is_split(s, x, s2, y) {
        Some(Rule::Split)
    } else if is_near(x, k, y, l) {
        Some(Rule::Clearance)
    } else if is_barred_by_any(pairs, s2, k, l) {
        Some(Rule::Pair)
    } else {
        None
    }
}

// Whether one of two stands is a half of the other.
fn is_split(s: StandNo, x: &StandLinks, s2: StandNo, y: &StandLinks) -> bool
    ensures is { result ≡ is_split_at s.0 x.now s2.0 y.now }
{
    is_place(s2.0 as usize, x.whole) || is_place(s.0 as usize, y.whole)
}

// Whether two stands are on the same frontage, and aircraft of the two spans come too near to each
// other.
fn is_near(x: &StandLinks, k: u32, y: &StandLinks, l: u32) -> bool
    ensures is { result ≡ is_near_at x.now k y.now l }
{
    let apart = x.centre.abs_diff(y.centre) as u64;
    let clear = clearance_of(k).max(clearance_of(l));
    is_one_place(x.frontage, y.frontage) && 2 * apart < k as u64 + l as u64 + 2 * clear
}

// Whether one of a stand's restrictions bars the two spans from it and from the other stand at
// once.
fn is_barred_by_any(pairs: &[StandPair], other: StandNo, k: u32, l: u32) -> bool
    ensures is { result ≡ list_any (is_barred other.0 k l) pairs.now }
{
    pairs.iter().any(|pair| is_barred_by(pair, other, k, l))
}

fn is_barred_by(pair: &StandPair, other: StandNo, k: u32, l: u32) -> bool
    ensures is { result ≡ is_barred other.0 k l pair.now }
{
    other.0 as usize == pair.other && has_letter_of(pair.own, k) && has_letter_of(pair.least, l)
}

fn has_letter_of(least: Letter, span: u32) -> bool
    ensures is { result ≡ has_letter least span }
{
    match letter_of(span) {
        Some(letter) => least <= letter,
        None => false,
    }
}

/// The clearance of a wing span in centimetres, 0 if it has no letter.
pub(crate) fn clearance_of(span: u32) -> u64
    ensures is { result ≡ clearance_of_span span }
    ensures small { result < 2 ^ 32 }
{
    match letter_of(span) {
        Some(letter) => clearance(letter) as u64,
        None => 0,
    }
}

// Whether both were found, at the same place.
fn is_one_place(found: Option<usize>, other: Option<usize>) -> bool
    ensures is { result ≡ is_one_place found other }
{
    match found {
        Some(place) => is_place(place, other),
        None => false,
    }
}

// Whether this is the place that was found.
fn is_place(place: usize, found: Option<usize>) -> bool
    ensures is { result ≡ is_place place found }
{
    match found {
        Some(at) => place == at,
        None => false,
    }
}
