// How fast an airport is read, and how fast its stand rules, its neighbours and the slots of a stand
// are looked up.
mod limits;
mod looks;
mod rules;

use self::limits::{airport_file, type_file};
use self::looks::{Looks, SLOTS, full_stand, looks_at_neighbours, looks_at_slots};
use self::rules::{Count, count_of};
use airport_files::read_airport;
use apron_check::MAX_FILE;
use apron_rules::Airport;
use std::io;
use std::marker::Brand;
use std::sync::ledger::Blank;
use std::time::{Duration, Instant};
use system_files::FileShelf;

// A duration in microseconds, at least 1.
fn micros(duration: Duration) -> u64 {
    u64::try_from(duration.as_micros())
        .unwrap_or(u64::MAX)
        .max(1)
}

// Reads the airport at every limit this many times.
fn measure_reading(rt: &HostRuntime, times: u64) -> io::Result<()> {
    let airport = airport_file(rt.alloc())?;
    let types = type_file(rt.alloc())?;
    if types.len() > MAX_FILE as usize {
        return Err(io::Error::from(io::ErrorKind::InvalidData));
    }
    let start = Instant::now(rt)?;
    let mut read: u64 = 0;
    for _ in 0..times {
        if read_airport(rt.alloc(), airport.as_bytes(), types.as_bytes()).is_ok() {
            read = read.saturating_add(1);
        }
    }
    let micros = micros(start.elapsed(rt)?) / times.max(1);
    println!(rt; "an airport at every limit: {read} read, {micros} microseconds each")
}

// Looks up the rules of all pairs.
fn measure_rules(rt: &HostRuntime, airport: &Airport) -> io::Result<()> {
    let start = Instant::now(rt)?;
    let Count { pairs, excluded } = count_of(airport);
    let nanos = nanos_of(start.elapsed(rt)?, pairs);
    println!(rt;
        "{pairs} pairs of stands with types: {excluded} exclude each other, {nanos} nanoseconds each"
    )
}

// The nanoseconds of each of this many looks.
fn nanos_of(duration: Duration, looks: u64) -> u64 {
    micros(duration).saturating_mul(1000) / looks.max(1)
}

// Looks up the neighbours of each stand, a thousand times this often.
fn measure_neighbours(rt: &HostRuntime, airport: &Airport, times: u64) -> io::Result<()> {
    let start = Instant::now(rt)?;
    let Looks { looks, found } = looks_at_neighbours(airport, times.saturating_mul(1000));
    let nanos = nanos_of(start.elapsed(rt)?, looks);
    println!(rt;
        "{looks} looks at the neighbours of a stand: {found} found, {nanos} nanoseconds each"
    )
}

// Looks up the slots at each minute of a full stand, this often.
fn measure_slots(rt: &HostRuntime, times: u64) -> io::Result<()> {
    let alloc = rt.alloc();
    let Ok(index) = full_stand(alloc) else {
        return Err(io::Error::from(io::ErrorKind::OutOfMemory));
    };
    let start = Instant::now(rt)?;
    let Ok(Looks { looks, found }) = looks_at_slots::<Brand>(alloc, &index, times, Blank::new(1))
    else {
        return Err(io::Error::from(io::ErrorKind::OutOfMemory));
    };
    let nanos = nanos_of(start.elapsed(rt)?, looks);
    println!(rt;
        "{looks} looks at the slots of a stand with {SLOTS}: {found} found, {nanos} nanoseconds each"
    )
}

// The airport of the two files of these names.
fn airport_of(rt: &HostRuntime, airport: &str, types: &str) -> io::Result<Airport> {
    let mut shelf = FileShelf::new(rt);
    match apron_check::airport_of(rt.alloc(), airport, types, &mut shelf) {
        Ok(files) => Ok(files.airport),
        Err(_) => Err(io::Error::from(io::ErrorKind::InvalidData)),
    }
}

/// Reads an airport at every limit this many times; looks up, for all pairs of stands of these files
/// with all pairs of types on them, which exclude each other; and then looks up the neighbours of
/// each stand a thousand times this often, and the slots at each minute of a full stand this often.
pub fn measure_airports(
    rt: &HostRuntime,
    times: u64,
    airport: &str,
    types: &str,
) -> io::Result<()> {
    measure_reading(rt, times)?;
    let airport = airport_of(rt, airport, types)?;
    measure_rules(rt, &airport)?;
    measure_neighbours(rt, &airport, times)?;
    measure_slots(rt, times)
}
