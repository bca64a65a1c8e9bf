// The alarms: actual parts that clash on a day.
ghost use Rattle.std.specs.Prelude.{◌≡◌, ◌≤◌, ◌++◌, true, Contains, IfOk, IfSome, OnOk, map};
ghost use Rattle.std.specs.List.{flat_map};
ghost use Rattle.apron_rules.specs.declared.limits.TheConstants.{MAX_DAYS};
ghost use Rattle.visit_book.specs.Slots.{slots_of};
ghost use Rattle.wall_chart.specs.Alarms.{alarm_head, alarms, alarms_with, is_in_order};
ghost use Rattle.wall_chart.specs.KeptAlarms.{alarms_in, clash_of, kept_line};
ghost use Rattle.wall_chart.specs.Chart.{alarm_lines};

use crate::rows::{push_part, push_rule};
use crate::slots::actual_slots;
use crate::times::{day_start, push_time};
use apron_base::{Memory, Minute, PartId, Slot, Steps, VisitNo};
use apron_rules::{Airport, Clash, Rule};
use clash_check::clashes_within;
use plan_core::Plan;
use plan_lists::DAY_LENGTH;
use std::alloc::Global;
use std::sync::ledger::Ledger;

// The most bytes of a line, in a plan of 28 days and 20,000 visits.
const LINE_LENGTH: usize = b"28/2359 20000.3 20000.3 clearance\n".len();

// A clash in 16 bytes in place of 24: thousands of aircraft on one stand make millions of alarms.
#[derive(Clone, Copy)]
struct Alarm {
    minute: Minute,
    a: VisitNo,
    b: VisitNo,
    a_part: u8,
    b_part: u8,
    rule: Rule,
}

/// Writes the lines of the day's alarms at the end.
pub(crate) fn push_alarm_lines<L: Ledger>(
    alloc: Global,
    text: &mut Vec<u8>,
    airport: &Airport,
    plan: &Plan,
    day: u32,
    steps: &mut Steps<L>,
) -> Result<(), Memory>
    requires airport { airport.now ≡ plan.now.plan.airport }
    requires first { 1 ≤ day }
    requires last { day ≤ MAX_DAYS }
    ensures text { OnOk result
        (text.new.items
        ≡ text.old.items
        ++ alarm_lines airport.now (slots_of airport.now plan.now.plan.visits) day) }
{
    text.extend_from_slice(b"ALARMS\n")?;
    let found = alarms(alloc, airport, plan, day, steps)?;
    push_lines(alloc, text, &found)
}

// Writes the lines of alarms at the end. The alarms of one part at one minute follow each other, so
// the text with which their lines begin is made once.
fn push_lines(alloc: Global, text: &mut Vec<u8>, found: &[Alarm]) -> Result<(), Memory>
    ensures text { OnOk result (text.new.items ≡ text.old.items ++ flat_map kept_line found.now) }
{
    text.reserve(found.len().saturating_mul(LINE_LENGTH))?;
    let mut head = Vec::new(alloc);
    let mut last = None;
    for alarm in found {
        set_head(&mut head, last, alarm)?;
        push_line(text, &head, alarm)?;
        last = Some(alarm);
    }
    Ok(())
}

// Changes the head of the last alarm's line into that of this one. Mostly they are the same.
fn set_head(head: &mut Vec<u8>, last: Option<&Alarm>, alarm: &Alarm) -> Result<(), Memory>
    requires last { IfSome last (λ last. head.old.items ≡ alarm_head (clash_of last.now)) }
    ensures head { OnOk result (head.new.items ≡ alarm_head (clash_of alarm.now)) }
{
    if let Some(last) = last {
        if last.minute == alarm.minute && last.a == alarm.a && last.a_part == alarm.a_part {
            return Ok(());
        }
    }
    head.clear();
    push_head(head, alarm)
}

fn push_head(text: &mut Vec<u8>, alarm: &Alarm) -> Result<(), Memory>
    ensures text { OnOk result
        (text.new.items ≡ text.old.items ++ alarm_head (clash_of alarm.now)) }
{
    push_time(text, alarm.minute)?;
    text.push(b' ')?;
    push_part(
        text,
        PartId {
            visit: alarm.a,
            part: alarm.a_part,
        },
    )?;
    text.push(b' ')?;
    Ok(())
}

fn push_line(text: &mut Vec<u8>, head: &[u8], alarm: &Alarm) -> Result<(), Memory>
    requires head { head.now ≡ alarm_head (clash_of alarm.now) }
    ensures text { OnOk result (text.new.items ≡ text.old.items ++ kept_line alarm.now) }
{
    text.extend_from_slice(head)?;
    push_part(
        text,
        PartId {
            visit: alarm.b,
            part: alarm.b_part,
        },
    )?;
    text.push(b' ')?;
    push_rule(text, alarm.rule)?;
    text.push(b'\n')?;
    Ok(())
}

// The actual slots come in order of the visits. The slots that clash with each are looked for near
// it in the index.
fn alarms<L: Ledger>(
    alloc: Global,
    airport: &Airport,
    plan: &Plan,
    day: u32,
    steps: &mut Steps<L>,
) -> Result<Vec<Alarm>, Memory>
    requires airport { airport.now ≡ plan.now.plan.airport }
    requires first { 1 ≤ day }
    requires last { day ≤ MAX_DAYS }
    ensures are { IfOk result (λ found. map clash_of found.items
        ≡ alarms airport.now day (slots_of airport.now plan.now.plan.visits)) }
{
    let slots = actual_slots(alloc, airport, plan.visits(), day)?;
    let mut found = Vec::new(alloc);
    for slot in &slots {
        push_alarms_with(alloc, &mut found, airport, plan, day, slot, steps)?;
    }
    found.sort_by_key(|alarm| {
        let a = PartId {
            visit: alarm.a,
            part: alarm.a_part,
        };
        let b = PartId {
            visit: alarm.b,
            part: alarm.b_part,
        };
        (alarm.minute, a, b)
    })?;
    Ok(found)
}

// Of two slots that clash, the one of the smaller part gives the alarm. Neither is planned, since
// the plan is sound.
fn push_alarms_with<L: Ledger>(
    alloc: Global,
    found: &mut Vec<Alarm>,
    airport: &Airport,
    plan: &Plan,
    day: u32,
    slot: &Slot,
    steps: &mut Steps<L>,
) -> Result<(), Memory>
    requires airport { airport.now ≡ plan.now.plan.airport }
    requires slot { Contains (slots_of airport.now plan.now.plan.visits) slot.now }
    requires actual { slot.now.actual ≡ true }
    requires first { 1 ≤ day }
    requires last { day ≤ MAX_DAYS }
    ensures ok { OnOk result
        (map clash_of found.new.items
        ≡ map clash_of found.old.items
        ++ alarms_with airport.now day (slots_of airport.now plan.now.plan.visits) slot.now) }
{
    let start = day_start(day);
    let end = start + DAY_LENGTH;
    let clashes = clashes_within(alloc, airport, plan.index(), slot, start, end, steps)?;
    push_in_order(found, clashes.as_slice())
}

// Adds those of which the first part is the smaller one at the end.
fn push_in_order(found: &mut Vec<Alarm>, clashes: &[Clash]) -> Result<(), Memory>
    ensures ok { OnOk result (map clash_of found.new.items
        ≡ map clash_of found.old.items ++ flat_map alarms_in clashes.now) }
{
    for clash in clashes {
        push_if_in_order(found, clash)?;
    }
    Ok(())
}

fn push_if_in_order(found: &mut Vec<Alarm>, clash: &Clash) -> Result<(), Memory>
    ensures ok { OnOk result
        (map clash_of found.new.items ≡ map clash_of found.old.items ++ alarms_in clash.now) }
{
    if is_in_order(clash) {
        found.push(alarm_of(clash))?;
    }
    Ok(())
}

fn alarm_of(clash: &Clash) -> Alarm
    ensures is { clash_of result ≡ clash.now }
{
    Alarm {
        minute: clash.minute,
        a: clash.a.visit,
        b: clash.b.visit,
        a_part: clash.a.part,
        b_part: clash.b.part,
        rule: clash.rule,
    }
}

fn is_in_order(clash: &Clash) -> bool
    ensures is { result ≡ is_in_order clash.now }
{
    clash.a < clash.b
}
