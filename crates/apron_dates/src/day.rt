// The days of a plan in the calendar.
ghost use Rattle.std.specs.Prelude.{◌≡◌, ◌≤◌, pos, ◌-ℤ◌};
ghost use Rattle.jiff.specs.Words.{IsBetween};
ghost use Rattle.apron_dates.specs.Dates.{IsFirstDay, IsPlanDay, civil_ymd, ymd_of, plan_ymd};

use jiff::{ToSpan, civil};

/// A day of the calendar. The type does not say which months and days exist.
#[derive(Clone, Copy, Debug, PartialEq, Eq)]
pub struct Date {
    pub year: u16,
    pub month: u8,
    pub day: u8,
}

/// The day of the month of a day of the plan: day 1 is the first, and day 0 the one before. 1 to
/// 31.
pub fn month_day(first: Date, day: u32) -> u32
    requires first { IsFirstDay first }
    requires day { day ≤ 28 }
    ensures value { result ≡ (plan_ymd (ymd_of first) day).2 }
{
    month_day_of(plan_date(first, day))
}

/// The date of a day of the plan: day 1 is the first, and day 0 the one before.
pub fn plan_date(first: Date, day: u32) -> civil::Date
    requires first { IsFirstDay first }
    requires day { day ≤ 28 }
    ensures date { civil_ymd result ≡ plan_ymd (ymd_of first) day }
{
    day_of_plan(civil_of(first), day)
}

fn month_day_of(date: civil::Date) -> u32
    ensures value { result ≡ date.day }
{
    date.day() as u32
}

// The same day as a date of the calendar.
fn civil_of(first: Date) -> civil::Date
    requires first { IsFirstDay first }
    ensures year { IsBetween (pos 2000) (pos 2099) result.year }
    ensures date { civil_ymd result ≡ ymd_of first }
{
    match civil::Date::new(
        year_number(first.year),
        to_i8(first.month),
        to_i8(first.day),
    ) {
        Ok(date) => date,
        Err(_) => unreachable!(),
    }
}

fn year_number(year: u16) -> i16
    requires year { year ≤ 2099 }
    ensures value { result ≡ pos year }
{
    year as i16
}

pub(crate) fn to_i8(n: u8) -> i8
    requires small { n ≤ 99 }
    ensures value { result ≡ pos n }
{
    n as i8
}

// How many days a day of the plan lies after the first.
fn days_after(day: u32) -> i64
    requires day { day ≤ 28 }
    ensures value { result ≡ pos day -ℤ pos 1 }
{
    day as i64 - 1
}

fn day_of_plan(first: civil::Date, day: u32) -> civil::Date
    requires year { IsBetween (pos 2000) (pos 2099) first.year }
    requires day { day ≤ 28 }
    ensures number { IsPlanDay first day result }
    ensures date { civil_ymd result ≡ plan_ymd (civil_ymd first) day }
{
    match first.checked_add(days_after(day).days()) {
        Ok(date) => date,
        Err(_) => first,
    }
}
