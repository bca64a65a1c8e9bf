// The times of an element: HHMM or DDHHMM, one or two of them.
ghost use Rattle.std.specs.Prelude.{◌≡◌};
ghost use Rattle.mvt_grammar.specs.Clocks.{read_day, read_minute, clock_of, times_of};

use crate::Clock;
use crate::bytes::{split_once, two_digits};

// DD, the day of a month.
pub(crate) fn read_day(text: &[u8]) -> Option<u8>
    ensures value { result ≡ read_day text.now }
{
    let day = two_digits(text)?;
    if (1..=31).contains(&day) {
        Some(day)
    } else {
        None
    }
}

// HHMM, as the minute of the day.
fn read_minute(text: &[u8]) -> Option<u16>
    ensures value { result ≡ read_minute text.now }
{
    if text.len() < 2 {
        return None;
    }
    let hours = two_digits(&text[..2])?;
    let minutes = two_digits(&text[2..])?;
    if hours < 24 && minutes < 60 {
        Some(60 * u16::from(hours) + u16::from(minutes))
    } else {
        None
    }
}

// A time in either form.
pub(crate) fn clock_of(text: &[u8]) -> Option<Clock>
    ensures value { result ≡ clock_of text.now }
{
    if text.len() == 6 {
        let day = read_day(&text[..2])?;
        let minute = read_minute(&text[2..])?;
        Some(Clock {
            day: Some(day),
            minute,
        })
    } else {
        let minute = read_minute(text)?;
        Some(Clock { day: None, minute })
    }
}

// A time, or two with a slash between them.
pub(crate) fn times_of(text: &[u8]) -> Option<(Clock, Option<Clock>)>
    ensures value { result ≡ times_of text.now }
{
    match split_once(text, b'/') {
        None => Some((clock_of(text)?, None)),
        Some((first, second)) => {
            let first = clock_of(first)?;
            let second = clock_of(second)?;
            Some((first, Some(second)))
        }
    }
}
