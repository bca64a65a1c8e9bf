// The lines of the parts that wait for a stand on a day.
ghost use Rattle.std.specs.Prelude.{◌≡◌, ◌≤◌, ◌++◌, IfOk, OnOk};
ghost use Rattle.wall_chart.specs.Chart.{unplaced_lines};
ghost use Rattle.wall_chart.specs.Unplaced.{blocker_text, bump_text, place_bump_text, unplaced_line, unplaced_on};

use crate::rows::{push_part, push_row, push_rule};
use crate::times::{push_number, push_time};
use apron_base::Memory;
use apron_rules::AirportParts;
use plan_core::Plan;
use plan_lists::{is_of_day, unplaced_parts};
use std::alloc::Global;
use visit_book::{Bump, PartRow, Place};

/// Writes the lines of the parts that wait for a stand on the day at the end.
pub(crate) fn push_unplaced_lines(
    alloc: Global,
    text: &mut Vec<u8>,
    airport: &AirportParts,
    plan: &Plan,
    day: u32,
) -> Result<(), Memory>
    requires first { 1 ≤ day }
    ensures text { OnOk result
        (text.new.items ≡ text.old.items ++ unplaced_lines airport.now plan.now.plan day) }
{
    text.extend_from_slice(b"UNPLACED\n")?;
    let rows = unplaced_on(alloc, plan, day)?;
    for row in &rows {
        push_unplaced_line(text, airport, plan, row)?;
    }
    Ok(())
}

fn unplaced_on(alloc: Global, plan: &Plan, day: u32) -> Result<Vec<PartRow>, Memory>
    requires first { 1 ≤ day }
    ensures are { IfOk result (λ rows. rows.items ≡ unplaced_on plan.now.plan day) }
{
    let mut rows = unplaced_parts(alloc, plan)?.into_vec();
    rows.retain(|row| is_of_day(day, row));
    Ok(rows)
}

pub(crate) fn push_unplaced_line(
    text: &mut Vec<u8>,
    airport: &AirportParts,
    plan: &Plan,
    row: &PartRow,
) -> Result<(), Memory>
    ensures text { OnOk result
        (text.new.items
        ≡ text.old.items ++ unplaced_line airport.now plan.now.plan.visits row.now) }
{
    push_row(text, airport, plan, row)?;
    push_place_bump(text, &row.part.place)?;
    text.push(b'\n')?;
    Ok(())
}

fn push_place_bump(text: &mut Vec<u8>, place: &Place) -> Result<(), Memory>
    ensures text { OnOk result (text.new.items ≡ text.old.items ++ place_bump_text place.now) }
{
    match place {
        Place::Unplaced(Some(bump)) => push_bump(text, bump),
        _ => Ok(()),
    }
}

fn push_bump(text: &mut Vec<u8>, bump: &Bump) -> Result<(), Memory>
    ensures text { OnOk result (text.new.items ≡ text.old.items ++ bump_text bump.now) }
{
    push_blocker(text, bump)?;
    text.extend_from_slice(b" at ")?;
    push_time(text, bump.minute)?;
    text.push(b' ')?;
    push_rule(text, bump.rule)
}

fn push_blocker(text: &mut Vec<u8>, bump: &Bump) -> Result<(), Memory>
    ensures text { OnOk result (text.new.items ≡ text.old.items ++ blocker_text bump.now) }
{
    text.extend_from_slice(b" bumped by ")?;
    push_part(text, bump.blocker)?;
    text.extend_from_slice(b" in entry ")?;
    push_number(text, bump.entry)
}
