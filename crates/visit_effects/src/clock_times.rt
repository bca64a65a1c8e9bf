// Which days the days of a month mean, and which minutes the clock times mean.
ghost use Rattle.std.specs.Prelude.{◌≡◌, ◌≤◌, ◌<◌, ◌+◌, ◌^◌, IfSome};
ghost use Rattle.apron_rules.specs.Rules.{IsAirport};
ghost use Rattle.visit_effects.specs.ClockTimes.{is_nearest, is_of_month, latest_day, minute_on, nearest_day, plan_day_of, plan_minute_of};
ghost use Rattle.visit_book.specs.WellFormed.{plan_end};

use apron_base::Minute;
use apron_rules::Airport;
use mvt_grammar::Clock;

const MINUTES_OF_DAY: u32 = 1_440;

const MINUTES_OF_HALF_DAY: u32 = 720;

/// The minute of the plan that a clock time names: on the day of the month that it has, or
/// otherwise on the day that brings it nearest to the scheduled minute, the later of two. `None` if
/// that is not a minute of the plan.
pub(crate) fn plan_minute_of(airport: &Airport, scheduled: Minute, clock: &Clock) -> Option<Minute>
    requires minute { clock.now.minute < 1440 }
    ensures is { result ≡ plan_minute_of airport.now scheduled clock.now }
    ensures in_plan { IfSome result (λ minute. minute < plan_end airport.now) }
{
    let day = plan_day_of(airport, scheduled, clock)?;
    Some(minute_on(clock.minute, day))
}

fn plan_day_of(airport: &Airport, scheduled: Minute, clock: &Clock) -> Option<u32>
    ensures is { result ≡ plan_day_of airport.now scheduled clock.now }
    ensures some { IfSome result (λ day. 1 ≤ day) }
    ensures few { IfSome result (λ day. day ≤ airport.now.days) }
    ensures airport { IsAirport airport.now }
{
    let days = airport.parts().days;
    match clock.day {
        Some(number) => day_of_month(airport, number, 1, days),
        None => nearest_day(airport, scheduled, clock.minute),
    }
}

/// The latest of this many days, from this one on, that has this day of the month. Day 1 is the
/// first of the plan, and 0 the one before.
pub(crate) fn day_of_month(airport: &Airport, number: u8, first: u32, count: u32) -> Option<u32>
    requires few { first + count ≤ airport.now.days + 1 }
    requires room { first + count < 2 ^ 32 }
    ensures is { result ≡ latest_day (is_of_month airport.now number) first count }
    ensures some { IfSome result (λ day. first ≤ day) }
    ensures few { IfSome result (λ day. day < first + count) }
{
    let mut latest = None;
    for passed in 0..count {
        if airport.month_day(first + passed) == number as u32 {
            latest = Some(first + passed);
        }
    }
    latest
}

fn nearest_day(airport: &Airport, scheduled: Minute, minute: u16) -> Option<u32>
    ensures is { result ≡ nearest_day airport.now scheduled minute }
    ensures some { IfSome result (λ day. 1 ≤ day) }
    ensures few { IfSome result (λ day. day ≤ airport.now.days) }
{
    let mut nearest = None;
    for passed in 0..airport.parts().days {
        if is_nearest(scheduled, minute_on(minute, passed + 1)) {
            nearest = Some(passed + 1);
        }
    }
    nearest
}

fn is_nearest(scheduled: Minute, minute: Minute) -> bool
    ensures is { result ≡ is_nearest scheduled minute }
{
    if minute <= scheduled {
        scheduled - minute < MINUTES_OF_HALF_DAY
    } else {
        minute - scheduled <= MINUTES_OF_HALF_DAY
    }
}

fn minute_on(minute: u16, day: u32) -> Minute
    requires some { 1 ≤ day }
    requires few { day ≤ 2 ^ 16 }
    ensures is { result ≡ minute_on minute day }
{
    MINUTES_OF_DAY * (day - 1) + minute as u32
}
