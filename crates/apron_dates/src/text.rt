// A date as a text.
ghost use Rattle.std.specs.Prelude.{◌+◌, ◌≡◌, ◌≤◌, pos, IfSome};
ghost use Rattle.apron_dates.specs.Dates.{IsFirstDay, digit_of, two_of, is_shape, of_digits, read_date, date_if};

use crate::Date;
use crate::day::to_i8;
use jiff::civil;

/// The date of a text YYYY-MM-DD, of the years 2000 to 2099. `None` for any other text, or if the
/// calendar doesn't have the day.
pub fn date_in(text: &[u8]) -> Option<Date>
    ensures date { result ≡ read_date text.now }
    ensures first { IfSome result IsFirstDay }
{
    if is_shape(text) {
        of_digits(text[2], text[3], text[5], text[6], text[8], text[9])
    } else {
        None
    }
}

fn is_shape(text: &[u8]) -> bool
    ensures is { result ≡ is_shape text.now }
{
    text.len() == 10 && text[0] == b'2' && text[1] == b'0' && text[4] == b'-' && text[7] == b'-'
}

fn of_digits(a: u8, b: u8, c: u8, d: u8, e: u8, f: u8) -> Option<Date>
    ensures date { result ≡ of_digits a b c d e f }
    ensures first { IfSome result IsFirstDay }
{
    let year = two(a, b)?;
    let month = two(c, d)?;
    let day = two(e, f)?;
    date_of_century(year, month, day)
}

fn two(a: u8, b: u8) -> Option<u8>
    ensures value { result ≡ two_of a b }
    ensures small { IfSome result (λ n. n ≤ 99) }
{
    let tens = digit(a)?;
    let ones = digit(b)?;
    Some(10 * tens + ones)
}

fn digit(b: u8) -> Option<u8>
    ensures value { result ≡ digit_of b }
{
    if b >= b'0' && b <= b'9' {
        Some(b - b'0')
    } else {
        None
    }
}

// The date in the century from 2000 on, if the calendar has it.
fn date_of_century(year: u8, month: u8, day: u8) -> Option<Date>
    requires years { year ≤ 99 }
    requires months { month ≤ 99 }
    requires days { day ≤ 99 }
    ensures date { result ≡ date_if (2000 + year) month day }
    ensures first { IfSome result IsFirstDay }
{
    match civil::Date::new(year_number(year), to_i8(month), to_i8(day)) {
        Ok(_) => Some(Date {
            year: 2000 + year as u16,
            month,
            day,
        }),
        Err(_) => None,
    }
}

fn year_number(n: u8) -> i16
    requires small { n ≤ 99 }
    ensures value { result ≡ pos (2000 + n) }
{
    2000 + n as i16
}
