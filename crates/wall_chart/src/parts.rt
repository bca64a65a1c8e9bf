// The lines of the parts that hold a stand on a day.
ghost use Rattle.std.specs.Prelude.{◌≡◌, ◌≤◌, ◌++◌, IfOk, OnOk};
ghost use Rattle.visit_book.specs.Places.{stand_of};
ghost use Rattle.wall_chart.specs.Chart.{part_lines};
ghost use Rattle.wall_chart.specs.Parts.{fact_text, part_line, parts_of_day, place_text, stand_number};

use crate::rows::{push_row, push_stand};
use apron_base::Memory;
use apron_rules::{Airport, AirportParts};
use plan_core::Plan;
use plan_lists::held_on;
use std::alloc::Global;
use visit_book::{PartRow, Place, is_actual};

/// Writes the lines of the parts that hold a stand on the day at the end.
pub(crate) fn push_part_lines(
    alloc: Global,
    text: &mut Vec<u8>,
    airport: &Airport,
    plan: &Plan,
    day: u32,
) -> Result<(), Memory>
    requires airport { airport.now ≡ plan.now.plan.airport }
    requires first { 1 ≤ day }
    requires last { day ≤ airport.now.days }
    ensures text { OnOk result
        (text.new.items ≡ text.old.items ++ part_lines airport.now plan.now.plan day) }
{
    text.extend_from_slice(b"PARTS\n")?;
    let rows = parts_of_day(alloc, airport, plan, day)?;
    for row in &rows {
        push_part_line(text, airport.parts(), plan, row)?;
    }
    Ok(())
}

fn parts_of_day(
    alloc: Global,
    airport: &Airport,
    plan: &Plan,
    day: u32,
) -> Result<Vec<PartRow>, Memory>
    requires airport { airport.now ≡ plan.now.plan.airport }
    requires first { 1 ≤ day }
    requires last { day ≤ airport.now.days }
    ensures are { IfOk result (λ rows. rows.items ≡ parts_of_day plan.now.plan day) }
{
    let mut rows = held_on(alloc, airport, plan, day)?.into_vec();
    rows.sort_by_key(|row| (stand_number(&row.part.place), row.part.from, row.id))?;
    Ok(rows)
}

fn stand_number(place: &Place) -> u16
    ensures is { result ≡ stand_number (stand_of place.now) }
{
    match *place {
        Place::Planned(stand) | Place::Actual(stand) => stand.0,
        Place::Unplaced(_) => 0,
    }
}

pub(crate) fn push_part_line(
    text: &mut Vec<u8>,
    airport: &AirportParts,
    plan: &Plan,
    row: &PartRow,
) -> Result<(), Memory>
    ensures text { OnOk result
        (text.new.items ≡ text.old.items ++ part_line airport.now plan.now.plan.visits row.now) }
{
    push_place(text, airport, &row.part.place)?;
    text.push(b' ')?;
    push_row(text, airport, plan, row)?;
    text.push(b' ')?;
    text.extend_from_slice(fact_text(is_actual(&row.part.place)).as_bytes())?;
    text.push(b'\n')?;
    Ok(())
}

fn fact_text(actual: bool) -> &'static str
    ensures text { result.now ≡ fact_text actual }
{
    if actual { "actual" } else { "planned" }
}

fn push_place(text: &mut Vec<u8>, airport: &AirportParts, place: &Place) -> Result<(), Memory>
    ensures text { OnOk result
        (text.new.items ≡ text.old.items ++ place_text airport.now (stand_of place.now)) }
{
    match *place {
        Place::Planned(stand) | Place::Actual(stand) => push_stand(text, airport, stand),
        Place::Unplaced(_) => Ok(()),
    }
}
