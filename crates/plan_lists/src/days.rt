// The minutes of a day.
ghost use Rattle.std.specs.Prelude.{◌≡◌, ◌≤◌, ◌&&◌, ℕ, nat_le, nat_lt};
ghost use Rattle.std.specs.List.{list_any};
ghost use Rattle.plan_lists.specs.Days.{minutes_of_day};

use apron_base::Minute;

/// How many minutes a day has.
pub const DAY_LENGTH: u32 = 1440;

// Whether a minute of the day, counted from 1, is `from` or later and before `end`.
pub(crate) fn overlaps_day(day: u32, from: Minute, end: Minute) -> bool
    requires first { 1 ≤ day }
    ensures is { result ≡ list_any (λ (m : ℕ). nat_le from m && nat_lt m end) (minutes_of_day day) }
{
    let start = DAY_LENGTH as u64 * (day as u64 - 1);
    (from as u64).max(start) < (end as u64).min(start + DAY_LENGTH as u64)
}
