// Dates of the calendar.
use apron_dates::{date_in, month_day};
use std::test::Fail;

#[test]
fn days_of_a_plan_follow_the_calendar(rt: HostRuntime) -> Result<(), Fail> {
    for (first, day, want) in [
        ("2026-03-27", 0, 26),
        ("2026-03-27", 1, 27),
        ("2026-03-27", 6, 1),
        ("2024-02-28", 2, 29),
        ("2023-02-28", 2, 1),
        ("2000-01-01", 0, 31),
        ("2099-12-31", 28, 27),
        ("2026-02-02", 0, 1),
        ("2026-02-02", 28, 1),
    ] {
        match date_in(first.as_bytes()) {
            Some(first) if day <= 28 => assert_eq!(rt; month_day(first, day), want),
            _ => assert!(rt; false, "no date"),
        }
    }
    Ok(())
}

#[test]
fn only_dates_of_the_form_are_read(rt: HostRuntime) -> Result<(), Fail> {
    for (text, want) in [
        ("2026-03-27", true),
        ("2024-02-29", true),
        ("2023-02-29", false),
        ("2026-00-01", false),
        ("2026-13-01", false),
        ("2026-04-31", false),
        ("1999-12-31", false),
        ("2100-01-01", false),
        ("2026-3-27", false),
        ("2026/03/27", false),
        (" 2026-03-27", false),
        ("2026-03-2x", false),
        ("", false),
    ] {
        assert_eq!(rt; date_in(text.as_bytes()).is_some(), want, "{text}");
    }
    Ok(())
}
