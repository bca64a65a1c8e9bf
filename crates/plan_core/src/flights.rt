// Where the live visits of each flight are in a list of visits.
ghost use Rattle.std.specs.Prelude.{◌≡◌, ◌≤◌, ◌<◌, ◌+◌, ◌++◌, ◌∷◌, [], IfNone, IfSome, OnOk, drop, length, option_map, position, slice_set};
ghost use Rattle.visit_book.specs.Flights.{is_by};
ghost use Rattle.plan_core.specs.FlightPlaces.{AreFlightPlaces, HasNoPlace, IsFirstPlace, KeepsKey, flight_day, flight_place, put_key};

use apron_base::{Memory, Name};
use std::alloc::Global;
use std::collections::BTreeSet;
use std::marker::Model;
use visit_book::Key;

/// A flight and its day.
#[derive(Clone, Copy, Debug, PartialEq, Eq, PartialOrd, Ord)]
struct FlightDay {
    airline: Name,
    number: u16,
    suffix: Option<u8>,
    day: u8,
}

/// A place of a flight, ordered by the flight and the day first. Places count from 0.
#[derive(Clone, Copy, Debug, PartialEq, Eq, PartialOrd, Ord)]
struct FlightPlace {
    flight: FlightDay,
    place: usize,
}

/// Where the live visits of each flight are in a list of visits: of the flights that they come by,
/// or of those that they leave by. The set lacks those that were added since the last `reserve`,
/// since it takes memory: these are looked through. Contracts see the keys of the live visits in
/// the places of all visits, and how many more can be added without taking memory.
#[derive(Drop)]
pub(crate) struct FlightPlaces {
    keys: Vec<Option<Key>>,
    live: BTreeSet<FlightPlace>,
    indexed: usize,
}

impl Model for FlightPlaces {
    ghost use Rattle.std.specs.Prelude.{◌-◌, vec_capacity, vec_len};
    ghost use Rattle.plan_core.specs.FlightPlaces.{AreFlightPlaces, KeysHeld};

    ghost Value = { KeysHeld };

    ghost view = { λ f. record {
      keys = f.keys.items;
      room = vec_capacity f.keys - vec_len f.keys;
    } };

    ghost invariant = { λ f. AreFlightPlaces f.live f.indexed f.keys.items };
}

impl FlightPlaces {
    /// The places of no visits. It takes no memory.
    pub(crate) fn none(alloc: Global) -> FlightPlaces
        ensures none { result.keys ≡ [] }
    {
        FlightPlaces {
            keys: Vec::new(alloc),
            live: BTreeSet::new(alloc),
            indexed: 0,
        }
    }

    /// Makes room for this many more, and indexes all. `Err` if there is no memory; no room is lost
    /// then.
    pub(crate) fn reserve(&mut self, count: usize) -> Result<(), Memory>
        ensures keys { self.new.keys ≡ self.old.keys }
        ensures ok { OnOk result (count ≤ self.new.room) }
        ensures room { self.old.room ≤ self.new.room }
    {
        self.indexed = index_from(self.indexed, self.keys.as_slice(), &mut self.live);
        if self.indexed < self.keys.len() {
            return Err(Memory);
        }
        self.keys.reserve(count)?;
        Ok(())
    }

    /// Puts the key of the visit at this place there, or last: `None` if the visit is not live or
    /// has no such flight. It takes no memory.
    pub(crate) fn put(&mut self, place: usize, key: Option<Key>)
        requires place { place ≤ length self.old.keys }
        requires same { KeepsKey self.old.keys place key }
        requires room { length self.old.keys ≤ place → 1 ≤ self.old.room }
        ensures keys { self.new.keys ≡ put_key self.old.keys place key }
        ensures room { place < length self.old.keys → self.old.room ≤ self.new.room }
        ensures left { self.old.room ≤ self.new.room + 1 }
    {
        if place < self.keys.len() {
            self.set(place, key);
        } else {
            self.push(key);
        }
    }

    fn set(&mut self, place: usize, key: Option<Key>)
        requires place { place < length self.old.keys }
        requires same { KeepsKey self.old.keys place key }
        ensures keys { self.new.keys ≡ slice_set self.old.keys place key }
        ensures room { self.old.room ≤ self.new.room }
    {
        self.indexed = set_key(
            self.keys.as_mut_slice(),
            &mut self.live,
            self.indexed,
            place,
            key,
        );
    }

    fn push(&mut self, key: Option<Key>)
        requires room { 1 ≤ self.old.room }
        ensures keys { self.new.keys ≡ self.old.keys ++ key ∷ [] }
        ensures left { self.old.room ≤ self.new.room + 1 }
    {
        self.keys.push_reserved(key);
    }

    /// The place of the first live visit of a flight. It looks at no other visit but those that
    /// were added since the last `reserve`.
    pub(crate) fn first(&self, key: &Key) -> Option<usize>
        ensures place { result ≡ position (is_by key.now) self.now.keys }
    {
        match first_place(&self.live, key, self.indexed) {
            Some(place) => Some(place),
            None => first_from(self.indexed, self.keys.as_slice(), key),
        }
    }
}

// Sets the key at this place. Gives how many first keys are in the set then: fewer than before if a
// visit is live that was not, since this would take memory.
fn set_key(
    keys: &mut [Option<Key>],
    live: &mut BTreeSet<FlightPlace>,
    indexed: usize,
    place: usize,
    key: Option<Key>,
) -> usize
    requires places { AreFlightPlaces live.old indexed keys.old }
    requires place { place < length keys.old }
    requires same { KeepsKey keys.old place key }
    ensures places { AreFlightPlaces live.new result keys.new }
    ensures keys { keys.new ≡ slice_set keys.old place key }
{
    let old = keys[place];
    keys[place] = key;
    let Some(old) = &old else {
        return if key.is_some() {
            indexed.min(place)
        } else {
            indexed
        };
    };
    if key.is_none() {
        live.remove(&place_of(old, place));
    }
    indexed
}

// Puts the places of the keys from this one on into the set, while there is memory. Gives the place
// of the first key that the set lacks, or the number of keys if it has all.
fn index_from(from: usize, keys: &[Option<Key>], live: &mut BTreeSet<FlightPlace>) -> usize
    requires places { AreFlightPlaces live.old from keys.now }
    ensures places { AreFlightPlaces live.new result keys.now }
{
    for place in from..keys.len() {
        if let Some(key) = &keys[place] {
            if live.insert(place_of(key, place)).is_err() {
                return place;
            }
        }
    }
    keys.len()
}

// The first place of the key's flight in the set that is below this one.
fn first_place(live: &BTreeSet<FlightPlace>, key: &Key, end: usize) -> Option<usize>
    ensures first { IfSome result (IsFirstPlace live.now key.now end) }
    ensures none { IfNone result (HasNoPlace live.now key.now end) }
{
    match live.range(place_of(key, 0)..place_of(key, end)).next() {
        Some(first) => Some(first.place),
        None => None,
    }
}

// The first place from this one on whose key is of the flight of this key.
fn first_from(from: usize, keys: &[Option<Key>], key: &Key) -> Option<usize>
    requires from { from ≤ length keys.now }
    ensures place { result
        ≡ option_map (λ place. from + place) (position (is_by key.now) (drop from keys.now)) }
{
    match first_by(&keys[from..], key) {
        Some(place) => Some(from + place),
        None => None,
    }
}

// The first place among these keys of one that is of the flight of this key.
fn first_by(keys: &[Option<Key>], key: &Key) -> Option<usize>
    ensures place { result ≡ position (is_by key.now) keys.now }
{
    keys.iter().position(|found| is_by(key, found))
}

fn is_by(key: &Key, found: &Option<Key>) -> bool
    ensures is { result ≡ is_by key.now found.now }
{
    match found {
        Some(found) => flight_day(found) == flight_day(key),
        None => false,
    }
}

fn place_of(key: &Key, place: usize) -> FlightPlace
    ensures is { result ≡ flight_place key.now place }
{
    FlightPlace {
        flight: flight_day(key),
        place,
    }
}

fn flight_day(key: &Key) -> FlightDay
    ensures is { result ≡ flight_day key.now }
{
    FlightDay {
        airline: key.flight.airline,
        number: key.flight.number,
        suffix: key.flight.suffix,
        day: key.day,
    }
}
