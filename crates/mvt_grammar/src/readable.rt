// Which messages can be read from a text.
ghost use Rattle.std.specs.Prelude.{◌↔◌, IsTrue, IfSome};
ghost use Rattle.mvt_grammar.specs.Readable.{IsDayOfMonth, IsClock, IsFlight, AreTimes, IsEstimate, IsReadable};
ghost use Rattle.mvt_grammar.specs.Reading.{is_registration};

use crate::bytes::{is_capital, is_station};
use crate::flights::is_airline;
use crate::{Clock, Flight, Mvt};
use apron_base::Name;

fn is_day_of_month(day: u8) -> bool
    ensures is { IsTrue result ↔ IsDayOfMonth day }
{
    (1..=31).contains(&day)
}

fn is_clock(clock: &Clock) -> bool
    ensures is { IsTrue result ↔ IsClock clock.now }
{
    let day = match clock.day {
        Some(day) => is_day_of_month(day),
        None => true,
    };
    day && clock.minute < 1440
}

/// Whether some text is read as the flight: the airline is three capitals, or two capitals or
/// digits of which at least one is a capital; the number is below 10,000; and the suffix is a
/// capital.
pub fn is_flight(flight: &Flight) -> bool
    ensures is { IsTrue result ↔ IsFlight flight.now }
{
    let suffix = match flight.suffix {
        Some(suffix) => is_capital(suffix),
        None => true,
    };
    suffix && flight.number < 10000 && is_airline(flight.airline.bytes())
}

fn are_times(times: &(Clock, Option<Clock>)) -> bool
    ensures is { IsTrue result ↔ AreTimes times.now }
{
    let second = match &times.1 {
        Some(second) => is_clock(second),
        None => true,
    };
    second && is_clock(&times.0)
}

fn is_estimate(estimate: &(Clock, Name)) -> bool
    ensures is { IsTrue result ↔ IsEstimate estimate.now }
{
    is_clock(&estimate.0) && is_station(estimate.1.bytes())
}

fn is_registration(name: &Name) -> bool
    ensures is { IsTrue result ↔ IsTrue (is_registration name.now) }
{
    name.bytes().len() <= 10
}

fn are_times_or_none(times: &Option<(Clock, Option<Clock>)>) -> bool
    ensures is { IsTrue result ↔ IfSome times.now AreTimes }
{
    match times {
        Some(times) => are_times(times),
        None => true,
    }
}

fn are_estimates(message: &Mvt) -> bool
    ensures is { IsTrue result
        ↔ (IfSome message.now.ea IsEstimate × IfSome message.now.ed IsClock) }
{
    let ea = match &message.ea {
        Some(estimate) => is_estimate(estimate),
        None => true,
    };
    let ed = match &message.ed {
        Some(clock) => is_clock(clock),
        None => true,
    };
    ea && ed
}

/// Whether some text is read as the message: days of the month are 1 to 31, minutes of the day are
/// below 1440, the number of the flight is below 10,000, and each name has its form.
pub fn is_readable(message: &Mvt) -> bool
    ensures is { IsTrue result ↔ IsReadable message.now }
{
    is_flight(&message.flight)
        && is_day_of_month(message.day)
        && is_registration(&message.registration)
        && is_station(message.station.bytes())
        && are_times_or_none(&message.ad)
        && are_times_or_none(&message.aa)
        && are_estimates(message)
}
