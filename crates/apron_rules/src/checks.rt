// Whether the data of an airport are valid: each refusal in its order.
ghost use Rattle.std.specs.Prelude.{◌≡◌, ◌&&◌, ◌||◌, not, map, IfOk, IfErr, find, option_copied, is_some, is_none, OnOk, ℕ, ◌+◌, ◌<◌, ◌^◌, List, if◌then◌else◌, option_and_then, nat_le, nat_lt};
ghost use Rattle.std.specs.Option.{option_map};
ghost use Rattle.std.specs.List.{list_all};
ghost use Rattle.std.specs.Str.{bytes_eq};
ghost use Rattle.apron_base.specs.Letter.{letter_for};
ghost use Rattle.apron_rules.specs.Limits.{most_buffer, most_halves, most_least};
ghost use Rattle.apron_rules.specs.Names.{frontage_names, stand_names, type_names, is_named};
ghost use Rattle.apron_rules.specs.Refusals.{duplicate_of, unknown_of, unknown_of_stand, unknown_of_pair, first_found, are_objects_kept, is_bad_half, stand_row_named, first_some, is_place_kept, is_between, limit_of, unless_kept, is_fold_kept, later_fault_of};
ghost use Rattle.apron_rules.specs.Tables.{Checks, AreHalves, half_count};
ghost use Rattle.apron_rules.specs.declared.refusals.AirportFault.TheVariants.{DuplicateName};

use crate::limits::{
    MAX_BUFFER, MAX_DAYS, MAX_FOLD, MAX_FRONTAGES, MAX_HALVES, MAX_LEAST, MAX_OBJECTS, MAX_PAIRS,
    MAX_PLACE, MAX_STANDS, MAX_TAXI_IN, MAX_TOW, MAX_TYPES,
};
use crate::names::NameTable;
use crate::{AirportFault, AirportParts, Frontage, Limit, PairRow, StandRow, TypeRow};
use apron_base::{Name, letter_of};
use std::alloc::Global;
use std::collections::BTreeMap;

/// The names of an airport, each once among its kind.
#[derive(Debug, Drop)]
pub(crate) struct Names {
    pub(crate) frontages: NameTable,
    pub(crate) stands: NameTable,
    pub(crate) types: NameTable,
}

impl Names {
    /// The names of these parts. `Err` if a name occurs twice, or there is no memory.
    pub(crate) fn of(alloc: Global, parts: &AirportParts) -> Result<Names, AirportFault>
        ensures frontages { IfOk result (λ names. names.frontages ≡ frontage_names parts.now) }
        ensures stands { IfOk result (λ names. names.stands ≡ stand_names parts.now) }
        ensures types { IfOk result (λ names. names.types ≡ type_names parts.now) }
        ensures fault { Checks result (option_map DuplicateName (duplicate_of parts.now)) }
    {
        let frontages = NameTable::of(alloc, frontage_names(alloc, parts.frontages.as_slice())?)?;
        let stands = NameTable::of(alloc, stand_names(alloc, parts.stands.as_slice())?)?;
        let types = NameTable::of(alloc, type_names(alloc, parts.types.as_slice())?)?;
        Ok(Names {
            frontages,
            stands,
            types,
        })
    }
}

fn frontage_names(alloc: Global, rows: &[Frontage]) -> Result<Vec<Name>, AirportFault>
    ensures names { IfOk result (λ names. names.items ≡ map (λ row. row.name) rows.now) }
    ensures memory { IfErr result (λ fault. fault ≡ AirportFault.Memory) }
{
    match rows.iter().map(|row| row.name).collect::<Vec<Name>>(alloc) {
        Ok(names) => Ok(names),
        Err(_) => Err(AirportFault::Memory),
    }
}

fn stand_names(alloc: Global, rows: &[StandRow]) -> Result<Vec<Name>, AirportFault>
    ensures names { IfOk result (λ names. names.items ≡ map (λ row. row.name) rows.now) }
    ensures memory { IfErr result (λ fault. fault ≡ AirportFault.Memory) }
{
    match rows.iter().map(|row| row.name).collect::<Vec<Name>>(alloc) {
        Ok(names) => Ok(names),
        Err(_) => Err(AirportFault::Memory),
    }
}

fn type_names(alloc: Global, rows: &[TypeRow]) -> Result<Vec<Name>, AirportFault>
    ensures names { IfOk result (λ names. names.items ≡ map (λ row. row.name) rows.now) }
    ensures memory { IfErr result (λ fault. fault ≡ AirportFault.Memory) }
{
    match rows.iter().map(|row| row.name).collect::<Vec<Name>>(alloc) {
        Ok(names) => Ok(names),
        Err(_) => Err(AirportFault::Memory),
    }
}

/// Whether parts with these names are an airport: `Err` gives the reason why not, or says that
/// there is no memory.
pub(crate) fn check_parts(
    alloc: Global,
    parts: &AirportParts,
    frontages: &NameTable,
    stands: &NameTable,
) -> Result<(), AirportFault>
    requires frontages { frontages.now ≡ frontage_names parts.now }
    requires stands { stands.now ≡ stand_names parts.now }
    ensures fault { Checks result (later_fault_of parts.now) }
{
    let halves = halves(alloc, parts.stands.as_slice())?;
    match later_fault(parts, frontages, stands, &halves) {
        Some(fault) => Err(fault),
        None => Ok(()),
    }
}

fn later_fault(
    parts: &AirportParts,
    frontages: &NameTable,
    stands: &NameTable,
    halves: &BTreeMap<Name, u64>,
) -> Option<AirportFault>
    requires frontages { frontages.now ≡ frontage_names parts.now }
    requires stands { stands.now ≡ stand_names parts.now }
    requires halves { AreHalves halves.now parts.now.stands }
    ensures is { result ≡ later_fault_of parts.now }
{
    if let Some(name) = unknown_name(parts, frontages, stands) {
        return Some(AirportFault::UnknownName(name));
    }
    if let Some(name) = bad_half(parts.stands.as_slice(), stands, halves) {
        return Some(AirportFault::BadHalf(name));
    }
    if let Some(limit) = passed_limit(parts) {
        return Some(AirportFault::LimitPassed(limit));
    }
    if let Some(name) = bad_span(parts.types.as_slice()) {
        return Some(AirportFault::BadSpan(name));
    }
    match bad_fold(parts.types.as_slice()) {
        Some(name) => Some(AirportFault::BadFold(name)),
        None => None,
    }
}

fn unknown_name(parts: &AirportParts, frontages: &NameTable, stands: &NameTable) -> Option<Name>
    requires frontages { frontages.now ≡ frontage_names parts.now }
    requires stands { stands.now ≡ stand_names parts.now }
    ensures is { result ≡ unknown_of parts.now }
{
    match unknown_of_stands(parts.stands.as_slice(), frontages, stands) {
        Some(name) => Some(name),
        None => unknown_of_pairs(parts.pairs.as_slice(), stands),
    }
}

fn unknown_of_stands(rows: &[StandRow], frontages: &NameTable, stands: &NameTable) -> Option<Name>
    ensures is { result ≡ first_found (unknown_of_stand frontages.now stands.now) rows.now }
{
    match first_unknown_stand(rows, frontages, stands) {
        Some(row) => unknown_of_stand(row, frontages, stands),
        None => None,
    }
}

fn first_unknown_stand<'a>(
    rows: &'a [StandRow],
    frontages: &NameTable,
    stands: &NameTable,
) -> Option<&'a StandRow>
    ensures is { option_copied result
        ≡ find (λ row. is_some (unknown_of_stand frontages.now stands.now row)) rows.now }
{
    rows.iter()
        .find(|row| unknown_of_stand(row, frontages, stands).is_some())
}

fn unknown_of_stand(row: &StandRow, frontages: &NameTable, stands: &NameTable) -> Option<Name>
    ensures is { result ≡ unknown_of_stand frontages.now stands.now row.now }
{
    match frontages.unless_known(&row.frontage) {
        Some(name) => Some(name),
        None => stands.unless_known(&row.half_of?),
    }
}

fn unknown_of_pairs(rows: &[PairRow], stands: &NameTable) -> Option<Name>
    ensures is { result ≡ first_found (unknown_of_pair stands.now) rows.now }
{
    match first_unknown_pair(rows, stands) {
        Some(pair) => unknown_of_pair(pair, stands),
        None => None,
    }
}

fn first_unknown_pair<'a>(rows: &'a [PairRow], stands: &NameTable) -> Option<&'a PairRow>
    ensures is { option_copied result
        ≡ find (λ pair. is_some (unknown_of_pair stands.now pair)) rows.now }
{
    rows.iter()
        .find(|pair| unknown_of_pair(pair, stands).is_some())
}

fn unknown_of_pair(pair: &PairRow, stands: &NameTable) -> Option<Name>
    ensures is { result ≡ unknown_of_pair stands.now pair.now }
{
    match stands.unless_known(&pair.a) {
        Some(name) => Some(name),
        None => stands.unless_known(&pair.b),
    }
}

// How many halves each stand has, by its name.
fn halves(alloc: Global, rows: &[StandRow]) -> Result<BTreeMap<Name, u64>, AirportFault>
    ensures halves { IfOk result (λ halves. AreHalves halves rows.now) }
    ensures memory { IfErr result (λ fault. fault ≡ AirportFault.Memory) }
{
    let mut halves = BTreeMap::new(alloc);
    for place in 0..rows.len() {
        count_half(&mut halves, &rows[place])?;
    }
    Ok(halves)
}

fn count_half(halves: &mut BTreeMap<Name, u64>, row: &StandRow) -> Result<(), AirportFault>
    requires few { (name : List ℕ) → half_count halves.old name + 1 < 2 ^ 64 }
    ensures counted { OnOk result
        ((name : List ℕ)
        → half_count halves.new name
        ≡ half_count halves.old name + (if is_named row.now.half_of name then 1 else 0)) }
    ensures memory { IfErr result (λ fault. fault ≡ AirportFault.Memory) }
{
    let Some(whole) = row.half_of else {
        return Ok(());
    };
    let before = halves_of(halves, &whole);
    match halves.insert(whole, before + 1) {
        Ok(_) => Ok(()),
        Err(_) => Err(AirportFault::Memory),
    }
}

fn bad_half(rows: &[StandRow], stands: &NameTable, halves: &BTreeMap<Name, u64>) -> Option<Name>
    requires stands { stands.now ≡ map (λ row. row.name) rows.now }
    requires halves { AreHalves halves.now rows.now }
    ensures is { result ≡ option_map (λ row. row.name) (find (is_bad_half rows.now) rows.now) }
{
    match first_bad_half(rows, stands, halves) {
        Some(row) => Some(row.name),
        None => None,
    }
}

fn first_bad_half<'a>(
    rows: &'a [StandRow],
    stands: &NameTable,
    halves: &BTreeMap<Name, u64>,
) -> Option<&'a StandRow>
    requires stands { stands.now ≡ map (λ row. row.name) rows.now }
    requires halves { AreHalves halves.now rows.now }
    ensures is { option_copied result ≡ find (is_bad_half rows.now) rows.now }
{
    rows.iter()
        .find(|row| is_bad_half(rows, stands, halves, row))
}

fn is_bad_half(
    rows: &[StandRow],
    stands: &NameTable,
    halves: &BTreeMap<Name, u64>,
    half: &StandRow,
) -> bool
    requires stands { stands.now ≡ map (λ row. row.name) rows.now }
    requires halves { AreHalves halves.now rows.now }
    ensures is { result ≡ is_bad_half rows.now half.now }
{
    match whole_of(rows, stands, half) {
        Some(whole) => is_bad_whole(half, whole, halves_of(halves, &whole.name)),
        None => false,
    }
}

fn whole_of<'a>(rows: &'a [StandRow], stands: &NameTable, half: &StandRow) -> Option<&'a StandRow>
    requires stands { stands.now ≡ map (λ row. row.name) rows.now }
    ensures is { option_copied result
        ≡ option_and_then (stand_row_named rows.now) half.now.half_of }
{
    match half.half_of {
        Some(name) => row_named(rows, stands, &name),
        None => None,
    }
}

fn row_named<'a>(rows: &'a [StandRow], stands: &NameTable, name: &Name) -> Option<&'a StandRow>
    requires stands { stands.now ≡ map (λ row. row.name) rows.now }
    ensures is { option_copied result ≡ stand_row_named rows.now name.now }
{
    match stands.place(name) {
        Some(place) => Some(&rows[place]),
        None => None,
    }
}

fn halves_of(halves: &BTreeMap<Name, u64>, name: &Name) -> u64
    ensures is { result ≡ half_count halves.now name.now }
{
    halves.get(name).copied().unwrap_or(0)
}

fn is_bad_whole(half: &StandRow, whole: &StandRow, halves: u64) -> bool
    ensures is { result
        ≡ (is_some whole.now.half_of
        || not (bytes_eq half.now.frontage whole.now.frontage)
        || nat_lt most_halves halves) }
{
    whole.half_of.is_some() || !half.frontage.is_same(&whole.frontage) || halves > MAX_HALVES
}

fn passed_limit(parts: &AirportParts) -> Option<Limit>
    ensures is { result ≡ limit_of parts.now }
{
    let frontages = parts.frontages.as_slice();
    let stands = parts.stands.as_slice();
    let types = parts.types.as_slice();
    first_some(&[
        unless_kept(Limit::Days, is_within(1, MAX_DAYS, parts.days)),
        unless_kept(Limit::TaxiIn, parts.taxi_in <= MAX_TAXI_IN),
        unless_kept(Limit::Tow, is_within(1, MAX_TOW, parts.tow)),
        unless_kept(Limit::Frontages, frontages.len() <= MAX_FRONTAGES),
        unless_kept(Limit::Objects, are_all_objects_kept(frontages)),
        unless_kept(Limit::Stands, is_number_within(MAX_STANDS, stands.len())),
        unless_kept(Limit::Centre, are_centres_kept(stands)),
        unless_kept(Limit::Buffer, are_buffers_kept(stands)),
        unless_kept(Limit::Pairs, parts.pairs.len() <= MAX_PAIRS),
        unless_kept(Limit::Types, is_number_within(MAX_TYPES, types.len())),
        unless_kept(Limit::Least, are_least_kept(types)),
    ])
}

// The first limit that is there.
fn first_some(limits: &[Option<Limit>]) -> Option<Limit>
    ensures is { result ≡ first_some limits.now }
{
    for limit in limits {
        if limit.is_some() {
            return *limit;
        }
    }
    None
}

fn unless_kept(which: Limit, kept: bool) -> Option<Limit>
    ensures is { result ≡ unless_kept which kept }
{
    if kept { None } else { Some(which) }
}

fn is_within(low: u32, high: u32, number: u32) -> bool
    ensures is { result ≡ is_between low high number }
{
    low <= number && number <= high
}

fn is_number_within(high: usize, number: usize) -> bool
    ensures is { result ≡ is_between 1 high number }
{
    1 <= number && number <= high
}

fn are_all_objects_kept(rows: &[Frontage]) -> bool
    ensures is { result ≡ list_all are_objects_kept rows.now }
{
    rows.iter().all(are_objects_kept)
}

fn are_objects_kept(row: &Frontage) -> bool
    ensures is { result ≡ are_objects_kept row.now }
{
    row.objects.len() <= MAX_OBJECTS && are_places_kept(row.objects.as_slice())
}

fn are_places_kept(places: &[u32]) -> bool
    ensures is { result ≡ list_all is_place_kept places.now }
{
    places.iter().all(|place| *place <= MAX_PLACE)
}

fn are_centres_kept(rows: &[StandRow]) -> bool
    ensures is { result ≡ list_all (λ row. is_place_kept row.centre) rows.now }
{
    rows.iter().all(|row| row.centre <= MAX_PLACE)
}

fn are_buffers_kept(rows: &[StandRow]) -> bool
    ensures is { result ≡ list_all (λ row. nat_le row.buffer most_buffer) rows.now }
{
    rows.iter().all(|row| row.buffer <= MAX_BUFFER)
}

fn are_least_kept(rows: &[TypeRow]) -> bool
    ensures is { result ≡ list_all (λ row. is_between 1 most_least row.least) rows.now }
{
    rows.iter().all(|row| is_within(1, MAX_LEAST, row.least))
}

fn bad_span(rows: &[TypeRow]) -> Option<Name>
    ensures is { result
        ≡ option_map (λ row. row.name) (find (λ row. is_none (letter_for row.span)) rows.now) }
{
    match first_without_letter(rows) {
        Some(row) => Some(row.name),
        None => None,
    }
}

fn first_without_letter(rows: &[TypeRow]) -> Option<&TypeRow>
    ensures is { option_copied result ≡ find (λ row. is_none (letter_for row.span)) rows.now }
{
    rows.iter().find(|row| letter_of(row.span).is_none())
}

fn bad_fold(rows: &[TypeRow]) -> Option<Name>
    ensures is { result
        ≡ option_map (λ row. row.name) (find (λ row. not (is_fold_kept row)) rows.now) }
{
    match first_bad_fold(rows) {
        Some(row) => Some(row.name),
        None => None,
    }
}

fn first_bad_fold(rows: &[TypeRow]) -> Option<&TypeRow>
    ensures is { option_copied result ≡ find (λ row. not (is_fold_kept row)) rows.now }
{
    rows.iter().find(|row| !is_fold_kept(row))
}

fn is_fold_kept(row: &TypeRow) -> bool
    ensures is { result ≡ is_fold_kept row.now }
{
    is_within(1, row.span, row.parked) && row.fold <= MAX_FOLD
}
