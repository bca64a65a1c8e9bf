// Writing the canonical text of a message.
ghost use Rattle.std.specs.Prelude.{◌≡◌, ◌≤◌, ◌<◌, ◌++◌, ◌∷◌, [], length, OnOk, IfOk, IfSome};
ghost use Rattle.mvt_grammar.specs.Canonical.{two_text, number_text, flight_text, clock_text, times_text, times_words, ea_words, ed_words, element_words, heading_text, canonical};
ghost use Rattle.mvt_grammar.specs.Led.{words_after, gap_after};
ghost use Rattle.mvt_grammar.specs.Readable.{IsClock, IsFlight, AreTimes, IsEstimate, IsReadable};

use crate::{Clock, Flight, Mvt};
use apron_base::{Listed, Memory, Name};
use std::alloc::Global;

// Two digits.
fn push_two(out: &mut Vec<u8>, number: u16) -> Result<(), Memory>
    requires small { number < 100 }
    ensures text { OnOk result (out.new.items ≡ out.old.items ++ two_text number) }
{
    let tens = b'0' + (number / 10) as u8;
    let ones = b'0' + (number % 10) as u8;
    out.extend_from_slice(&[tens, ones])?;
    Ok(())
}

// A number without leading zeros.
fn push_number(out: &mut Vec<u8>, number: u16) -> Result<(), Memory>
    requires small { number < 10000 }
    ensures text { OnOk result (out.new.items ≡ out.old.items ++ number_text number) }
{
    if number < 10 {
        out.push(b'0' + number as u8)?;
        Ok(())
    } else if number < 100 {
        push_two(out, number)
    } else if number < 1000 {
        out.push(b'0' + (number / 100) as u8)?;
        push_two(out, number % 100)
    } else {
        push_two(out, number / 100)?;
        push_two(out, number % 100)
    }
}

/// Writes a flight at the end, its number without leading zeros. If memory runs out a part of it
/// may be there.
pub fn push_flight(out: &mut Vec<u8>, flight: &Flight) -> Result<(), Memory>
    requires valid { IsFlight flight.now }
    ensures text { OnOk result (out.new.items ≡ out.old.items ++ flight_text flight.now) }
{
    out.extend_from_slice(flight.airline.bytes())?;
    push_number(out, flight.number)?;
    if let Some(suffix) = flight.suffix {
        out.push(suffix)?;
    }
    Ok(())
}

fn push_clock(out: &mut Vec<u8>, clock: &Clock) -> Result<(), Memory>
    requires valid { IsClock clock.now }
    ensures text { OnOk result (out.new.items ≡ out.old.items ++ clock_text clock.now) }
{
    if let Some(day) = clock.day {
        push_two(out, u16::from(day))?;
    }
    push_two(out, clock.minute / 60)?;
    push_two(out, clock.minute % 60)
}

fn push_times(out: &mut Vec<u8>, times: &(Clock, Option<Clock>)) -> Result<(), Memory>
    requires valid { AreTimes times.now }
    ensures text { OnOk result (out.new.items ≡ out.old.items ++ times_text times.now) }
{
    push_clock(out, &times.0)?;
    if let Some(second) = &times.1 {
        out.push(b'/')?;
        push_clock(out, second)?;
    }
    Ok(())
}

// The words of an element, the first after this byte, and the byte that goes before the next word.
fn push_times_words(
    out: &mut Vec<u8>,
    gap: u8,
    pair: &[u8],
    times: &Option<(Clock, Option<Clock>)>,
) -> Result<u8, Memory>
    requires valid { IfSome times.now AreTimes }
    ensures text { OnOk result
        (out.new.items ≡ out.old.items ++ words_after gap (times_words pair.now times.now)) }
    ensures next { IfOk result (λ next. next ≡ gap_after gap (times_words pair.now times.now)) }
{
    match times {
        Some(times) => {
            out.push(gap)?;
            out.extend_from_slice(pair)?;
            push_times(out, times)?;
            Ok(b' ')
        }
        None => Ok(gap),
    }
}

fn push_ea_words(out: &mut Vec<u8>, gap: u8, estimate: &Option<(Clock, Name)>) -> Result<u8, Memory>
    requires valid { IfSome estimate.now IsEstimate }
    ensures text { OnOk result
        (out.new.items ≡ out.old.items ++ words_after gap (ea_words estimate.now)) }
    ensures next { IfOk result (λ next. next ≡ gap_after gap (ea_words estimate.now)) }
{
    match estimate {
        Some((clock, station)) => {
            out.push(gap)?;
            out.extend_from_slice(b"EA")?;
            push_clock(out, clock)?;
            out.push(b' ')?;
            out.extend_from_slice(station.bytes())?;
            Ok(b' ')
        }
        None => Ok(gap),
    }
}

fn push_ed_words(out: &mut Vec<u8>, gap: u8, clock: &Option<Clock>) -> Result<(), Memory>
    requires valid { IfSome clock.now IsClock }
    ensures text { OnOk result
        (out.new.items ≡ out.old.items ++ words_after gap (ed_words clock.now)) }
{
    if let Some(clock) = clock {
        out.push(gap)?;
        out.extend_from_slice(b"ED")?;
        push_clock(out, clock)?;
    }
    Ok(())
}

// The words of all elements, the first after a line feed.
fn push_elements(out: &mut Vec<u8>, message: &Mvt) -> Result<(), Memory>
    requires valid { IsReadable message.now }
    ensures text { OnOk result
        (out.new.items ≡ out.old.items ++ words_after 10 (element_words message.now)) }
{
    let gap = push_times_words(out, b'\n', b"AD", &message.ad)?;
    let gap = push_times_words(out, gap, b"AA", &message.aa)?;
    let gap = push_ea_words(out, gap, &message.ea)?;
    push_ed_words(out, gap, &message.ed)
}

// The flight line.
fn push_heading(out: &mut Vec<u8>, message: &Mvt) -> Result<(), Memory>
    requires valid { IsReadable message.now }
    ensures text { OnOk result (out.new.items ≡ out.old.items ++ heading_text message.now) }
{
    push_flight(out, &message.flight)?;
    out.push(b'/')?;
    push_two(out, u16::from(message.day))?;
    out.push(b'.')?;
    out.extend_from_slice(message.registration.bytes())?;
    out.push(b'.')?;
    out.extend_from_slice(message.station.bytes())?;
    Ok(())
}

/// The canonical text of a message: the line `MVT`, the flight line and, if there is an element, a
/// line with the elements in the order AD, AA, EA, ED, each line with LF. It is read as the
/// message.
pub fn write_mvt(alloc: Global, message: &Mvt) -> Result<Listed<u8>, Memory>
    requires valid { IsReadable message.now }
    ensures text { IfOk result (λ text. text ≡ canonical message.now) }
    ensures length { IfOk result (λ text. length text ≤ 85) }
{
    let mut out = Vec::new(alloc);
    out.extend_from_slice(b"MVT\n")?;
    push_heading(&mut out, message)?;
    push_elements(&mut out, message)?;
    out.push(b'\n')?;
    Ok(Listed::from_vec(out))
}
