// Minutes and days as a chart writes them.
ghost use Rattle.std.specs.Prelude.{◌≡◌, ◌≤◌, ◌<◌, ◌*◌, ◌++◌, OnOk, decimal};
ghost use Rattle.apron_rules.specs.declared.limits.TheConstants.{MAX_DAYS};
ghost use Rattle.mvt_grammar.specs.Canonical.{two_text};
ghost use Rattle.plan_lists.specs.Days.{day_start};
ghost use Rattle.wall_chart.specs.Times.{hour_and_minute, span_text, time_text};

use apron_base::{Memory, Minute};
use itoa::Buffer;
use plan_lists::DAY_LENGTH;

/// The first minute of a day of a plan.
pub(crate) fn day_start(day: u32) -> Minute
    requires first { 1 ≤ day }
    requires last { day ≤ MAX_DAYS }
    ensures is { result ≡ day_start day }
    ensures early { result < 1440 * MAX_DAYS }
{
    DAY_LENGTH * (day - 1)
}

/// Writes a number at the end, in decimal digits. At `Err` memory has run out.
pub fn push_number(text: &mut Vec<u8>, number: u32) -> Result<(), Memory>
    ensures text { OnOk result (text.new.items ≡ text.old.items ++ decimal number) }
{
    if number < 10 {
        return push_digit(text, number);
    }
    text.extend_from_slice(Buffer::new().format(number).as_bytes())?;
    Ok(())
}

// Days and parts are numbers of one digit, nearly all of them.
fn push_digit(text: &mut Vec<u8>, number: u32) -> Result<(), Memory>
    requires small { number < 10 }
    ensures text { OnOk result (text.new.items ≡ text.old.items ++ decimal number) }
{
    text.push(b'0' + number as u8)?;
    Ok(())
}

/// Writes a number below 100 at the end, in two digits.
pub(crate) fn push_two(text: &mut Vec<u8>, number: u32) -> Result<(), Memory>
    requires small { number < 100 }
    ensures text { OnOk result (text.new.items ≡ text.old.items ++ two_text number) }
{
    text.push(b'0' + (number / 10) as u8)?;
    text.push(b'0' + (number % 10) as u8)?;
    Ok(())
}

fn push_hour_and_minute(text: &mut Vec<u8>, minute: u32) -> Result<(), Memory>
    requires small { minute < 1440 }
    ensures text { OnOk result (text.new.items ≡ text.old.items ++ hour_and_minute minute) }
{
    push_two(text, minute / 60)?;
    push_two(text, minute % 60)
}

/// Writes the day, counted from 1, and the clock time of a minute at the end, as `DAY/HHMM`. The
/// minute counts from 00:00 UTC of the plan's first day. At `Err` memory has run out.
pub fn push_time(text: &mut Vec<u8>, minute: Minute) -> Result<(), Memory>
    ensures text { OnOk result (text.new.items ≡ text.old.items ++ time_text minute) }
{
    push_number(text, minute / DAY_LENGTH + 1)?;
    text.push(b'/')?;
    push_hour_and_minute(text, minute % DAY_LENGTH)
}

/// Writes two minutes at the end, the first to the second.
pub(crate) fn push_span(text: &mut Vec<u8>, from: Minute, to: Minute) -> Result<(), Memory>
    ensures text { OnOk result (text.new.items ≡ text.old.items ++ span_text from to) }
{
    push_time(text, from)?;
    text.push(b'-')?;
    push_time(text, to)
}
