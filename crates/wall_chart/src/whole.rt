// The wall chart of a day.
ghost use Rattle.std.specs.Prelude.{◌≡◌, ◌≤◌, ◌<◌, ◌++◌, IfOk, OnOk};
ghost use Rattle.apron_rules.specs.Rules.{IsAirport};
ghost use Rattle.wall_chart.specs.Chart.{chart_first_line, chart_text, title_text};

use crate::alarms::push_alarm_lines;
use crate::cells::push_stand_lines;
use crate::dates::push_date;
use crate::parts::push_part_lines;
use crate::times::push_number;
use crate::unplaced::push_unplaced_lines;
use apron_base::{Listed, Memory, Steps};
use apron_rules::{Airport, AirportParts};
use plan_core::Plan;
use std::alloc::Global;
use std::marker::Brand;
use std::sync::ledger::{Blank, Ledger};

/// The chart of a day of the plan, counted from 1, as a text whose lines all end with a line feed:
/// the first line, a line with 96 cells for each stand, the parts that hold a stand on the day,
/// those that wait for one, the alarms, and the end. The form is this project's own. The only error
/// is a lack of memory.
pub fn chart(alloc: Global, airport: &Airport, plan: &Plan, day: u32) -> Result<Listed<u8>, Memory>
    requires airport { airport.now ≡ plan.now.plan.airport }
    requires first { 1 ≤ day }
    requires last { day ≤ airport.now.days }
    ensures text { IfOk result (λ text. text ≡ chart_text airport.now plan.now.plan day) }
{
    chart_from::<Brand>(alloc, airport, plan, day, Blank::new(1))
}

// The same, with a count of the steps of its looks into the plan's index. Nobody reads it.
fn chart_from<L: Ledger>(
    alloc: Global,
    airport: &Airport,
    plan: &Plan,
    day: u32,
    blank: Blank,
) -> Result<Listed<u8>, Memory>
    requires airport { airport.now ≡ plan.now.plan.airport }
    requires first { 1 ≤ day }
    requires last { day ≤ airport.now.days }
    requires name { blank.name ≡ L.name }
    requires parts { blank.parts ≡ L.parts }
    requires open { 0 < L.parts }
    ensures text { IfOk result (λ text. text ≡ chart_text airport.now plan.now.plan day) }
{
    let parts = airport.parts();
    let mut steps = Steps::<L>::new(blank);
    let mut text = Vec::new(alloc);
    push_chart_first_line(&mut text, parts, plan.version(), day)?;
    push_stand_lines(alloc, &mut text, parts, plan, day, &mut steps)?;
    push_part_lines(alloc, &mut text, airport, plan, day)?;
    push_unplaced_lines(alloc, &mut text, parts, plan, day)?;
    push_alarm_lines(alloc, &mut text, airport, plan, day, &mut steps)?;
    text.extend_from_slice(b"END\n")?;
    Ok(Listed::from_vec(text))
}

fn push_chart_first_line(
    text: &mut Vec<u8>,
    airport: &AirportParts,
    version: u32,
    day: u32,
) -> Result<(), Memory>
    requires airport { IsAirport airport.now }
    requires day { day ≤ airport.now.days }
    ensures text { OnOk result
        (text.new.items ≡ text.old.items ++ chart_first_line airport.now version day) }
{
    push_title(text, airport, day)?;
    text.extend_from_slice(b" VERSION ")?;
    push_number(text, version)?;
    text.push(b'\n')?;
    Ok(())
}

fn push_title(text: &mut Vec<u8>, airport: &AirportParts, day: u32) -> Result<(), Memory>
    requires airport { IsAirport airport.now }
    requires day { day ≤ airport.now.days }
    ensures text { OnOk result (text.new.items ≡ text.old.items ++ title_text airport.now day) }
{
    text.extend_from_slice(b"STAND CHART ")?;
    text.extend_from_slice(airport.station.bytes())?;
    text.push(b' ')?;
    push_date(text, airport.first, day)?;
    Ok(())
}
