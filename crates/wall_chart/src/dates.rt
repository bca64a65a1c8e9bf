// The date of a day of a plan.
ghost use Rattle.std.specs.Prelude.{◌≡◌, ◌≤◌, ◌++◌, OnOk};
ghost use Rattle.apron_dates.specs.Dates.{IsFirstDay, civil_ymd, plan_ymd, ymd_of};
ghost use Rattle.wall_chart.specs.Times.{ymd_text};

use crate::times::{push_number, push_two};
use apron_base::Memory;
use apron_dates::{Date, plan_date};
use jiff::civil;

/// Writes the date of a day of a plan at the end. Day 1 is the first.
pub(crate) fn push_date(text: &mut Vec<u8>, first: Date, day: u32) -> Result<(), Memory>
    requires first { IsFirstDay first }
    requires day { day ≤ 28 }
    ensures text { OnOk result
        (text.new.items ≡ text.old.items ++ ymd_text (plan_ymd (ymd_of first) day)) }
{
    push_ymd(text, plan_date(first, day))
}

fn push_ymd(text: &mut Vec<u8>, date: civil::Date) -> Result<(), Memory>
    ensures text { OnOk result (text.new.items ≡ text.old.items ++ ymd_text (civil_ymd date)) }
{
    push_number(text, date.year().unsigned_abs() as u32)?;
    text.push(b'-')?;
    push_two(text, date.month() as u32)?;
    text.push(b'-')?;
    push_two(text, date.day() as u32)
}
