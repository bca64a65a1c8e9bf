// The lines of a part that no stand takes: the reason of each stand.
ghost use Rattle.std.specs.Prelude.{◌≡◌, ◌++◌, OnOk};
ghost use Rattle.proposal_text.specs.Reasons.{clash_text, other_part, reason_line, reason_lines};
ghost use Rattle.proposal_text.specs.Reasons.{reason_text, stand_name, unfit_text};

use apron_base::{Memory, PartId};
use apron_rules::{AirportParts, Clash, UnfitBy};
use stand_proposer::{Left, Why};
use wall_chart::{push_number, push_part, push_rule, push_time};

/// Writes the name of the stand with this place in the airport file, counted from 0, at the end.
pub(crate) fn push_stand_name(
    text: &mut Vec<u8>,
    airport: &AirportParts,
    place: usize,
) -> Result<(), Memory>
    ensures text { OnOk result (text.new.items ≡ text.old.items ++ stand_name airport.now place) }
{
    if let Some(row) = airport.stands.as_slice().get(place) {
        text.extend_from_slice(row.name.bytes())?;
    }
    Ok(())
}

/// Writes a line for each stand at the end: why it does not take the part.
pub(crate) fn push_left_part(
    text: &mut Vec<u8>,
    airport: &AirportParts,
    left: &Left,
) -> Result<(), Memory>
    ensures text { OnOk result
        (text.new.items ≡ text.old.items ++ reason_lines airport.now left.now) }
{
    let whys = left.why.as_slice();
    for (place, why) in whys.iter().enumerate() {
        push_reason_line(text, airport, left.part, place, why)?;
    }
    Ok(())
}

fn push_reason_line(
    text: &mut Vec<u8>,
    airport: &AirportParts,
    part: PartId,
    place: usize,
    why: &Why,
) -> Result<(), Memory>
    ensures text { OnOk result
        (text.new.items ≡ text.old.items ++ reason_line airport.now part (place, why.now)) }
{
    text.extend_from_slice(b"left ")?;
    push_part(text, part)?;
    text.push(b' ')?;
    push_stand_name(text, airport, place)?;
    text.push(b' ')?;
    push_reason(text, part, why)?;
    text.push(b'\n')?;
    Ok(())
}

fn push_reason(text: &mut Vec<u8>, part: PartId, why: &Why) -> Result<(), Memory>
    ensures text { OnOk result (text.new.items ≡ text.old.items ++ reason_text part why.now) }
{
    match why {
        Why::Unfit(by) => push_unfit(text, *by),
        Why::Clash(clash) => push_clash(text, part, clash),
    }
}

fn push_unfit(text: &mut Vec<u8>, by: UnfitBy) -> Result<(), Memory>
    ensures text { OnOk result (text.new.items ≡ text.old.items ++ unfit_text by) }
{
    match by {
        UnfitBy::Letter => {
            text.extend_from_slice(b"letter")?;
            Ok(())
        }
        UnfitBy::Object(place) => {
            text.extend_from_slice(b"object ")?;
            push_number(text, place)
        }
    }
}

fn push_clash(text: &mut Vec<u8>, part: PartId, clash: &Clash) -> Result<(), Memory>
    ensures text { OnOk result (text.new.items ≡ text.old.items ++ clash_text part clash.now) }
{
    text.extend_from_slice(b"clash ")?;
    push_part(text, other_part(part, clash))?;
    text.extend_from_slice(b" at ")?;
    push_time(text, clash.minute)?;
    text.push(b' ')?;
    push_rule(text, clash.rule)
}

// The part of the clash that is of another visit: parts of one visit never clash.
fn other_part(part: PartId, clash: &Clash) -> PartId
    ensures is { result ≡ other_part part clash.now }
{
    if clash.a.visit.0 == part.visit.0 {
        clash.b
    } else {
        clash.a
    }
}
