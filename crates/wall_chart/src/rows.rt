// What stands, types, parts and rules are called on a chart.
ghost use Rattle.std.specs.Prelude.{◌≡◌, ◌++◌, OnOk};
ghost use Rattle.apron_rules.specs.RuleWords.{rule_word};
ghost use Rattle.wall_chart.specs.Rows.{filled_up, part_text, row_text, stand_text, type_text};

use crate::times::{push_number, push_span};
use apron_base::{Memory, PartId, StandNo, VisitNo};
use apron_rules::{AirportParts, Rule, rule_word};
use plan_core::Plan;
use visit_book::PartRow;

// How many places a stand's name takes.
const NAME_PLACES: usize = 6;

// As many spaces.
const SPACES: [u8; NAME_PLACES] = *b"      ";

fn push_filled_up(text: &mut Vec<u8>, name: &[u8]) -> Result<(), Memory>
    ensures text { OnOk result (text.new.items ≡ text.old.items ++ filled_up name.now) }
{
    text.extend_from_slice(name)?;
    text.extend_from_slice(&SPACES[..NAME_PLACES.saturating_sub(name.len())])?;
    Ok(())
}

/// Writes the name of a stand at the end, filled up with spaces.
pub(crate) fn push_stand(
    text: &mut Vec<u8>,
    airport: &AirportParts,
    stand: StandNo,
) -> Result<(), Memory>
    ensures text { OnOk result (text.new.items ≡ text.old.items ++ stand_text airport.now stand) }
{
    match airport.stands.as_slice().get(stand.0 as usize) {
        Some(row) => push_filled_up(text, row.name.bytes()),
        None => push_filled_up(text, b""),
    }
}

// Writes the name of a visit's type at the end.
fn push_type(
    text: &mut Vec<u8>,
    airport: &AirportParts,
    plan: &Plan,
    number: VisitNo,
) -> Result<(), Memory>
    ensures text { OnOk result
        (text.new.items ≡ text.old.items ++ type_text airport.now plan.now.plan.visits number) }
{
    if let Some(visit) = plan.visit(number) {
        if let Some(row) = airport.types.as_slice().get(visit.kind.0 as usize) {
            text.extend_from_slice(row.name.bytes())?;
        }
    }
    Ok(())
}

/// Writes the number of a part at the end, as `VISIT.PART`. At `Err` memory has run out.
pub fn push_part(text: &mut Vec<u8>, part: PartId) -> Result<(), Memory>
    ensures text { OnOk result (text.new.items ≡ text.old.items ++ part_text part) }
{
    push_number(text, part.visit.0)?;
    text.push(b'.')?;
    push_number(text, part.part as u32)
}

/// Writes a part with its type and its minutes at the end.
pub(crate) fn push_row(
    text: &mut Vec<u8>,
    airport: &AirportParts,
    plan: &Plan,
    row: &PartRow,
) -> Result<(), Memory>
    ensures text { OnOk result
        (text.new.items ≡ text.old.items ++ row_text airport.now plan.now.plan.visits row.now) }
{
    push_part(text, row.id)?;
    text.push(b' ')?;
    push_type(text, airport, plan, row.id.visit)?;
    text.push(b' ')?;
    push_span(text, row.part.from, row.part.to)
}

/// Writes the word of a rule at the end. At `Err` memory has run out.
pub fn push_rule(text: &mut Vec<u8>, rule: Rule) -> Result<(), Memory>
    ensures text { OnOk result (text.new.items ≡ text.old.items ++ rule_word rule) }
{
    text.extend_from_slice(rule_word(rule).as_bytes())?;
    Ok(())
}
