// The lines of a proposal.
ghost use Rattle.std.specs.Prelude.{◌≡◌, ◌++◌, OnOk};
ghost use Rattle.proposal_text.specs.Lines.{edit_line, edit_lines, left_lines, proposal_first_line};
ghost use Rattle.proposal_text.specs.Lines.{over_line, over_lines, proposal_text, put_line};

use crate::reasons::{push_left_part, push_stand_name};
use apron_base::{Memory, PartId, StandNo};
use apron_rules::AirportParts;
use stand_proposer::{Left, Proposal};
use visit_book::Edit;
use wall_chart::{push_number, push_part};

/// Writes the lines of a proposal at the end.
#[tactic(auto, unfolding(crate::specs::Lines::proposal_text))]
pub(crate) fn push_proposal(
    text: &mut Vec<u8>,
    airport: &AirportParts,
    proposal: &Proposal,
) -> Result<(), Memory>
    ensures text { OnOk result
        (text.new.items ≡ text.old.items ++ proposal_text airport.now proposal.now) }
{
    push_proposal_first_line(text, proposal.base)?;
    push_put_lines(text, airport, proposal.edits.as_slice())?;
    push_left_parts(text, airport, proposal.left.as_slice())?;
    push_over_parts(text, proposal.over.as_slice())?;
    text.extend_from_slice(b"end\n")?;
    Ok(())
}

fn push_proposal_first_line(text: &mut Vec<u8>, version: u32) -> Result<(), Memory>
    ensures text { OnOk result (text.new.items ≡ text.old.items ++ proposal_first_line version) }
{
    text.extend_from_slice(b"propose on version ")?;
    push_number(text, version)?;
    text.push(b'\n')?;
    Ok(())
}

fn push_put_lines(text: &mut Vec<u8>, airport: &AirportParts, edits: &[Edit]) -> Result<(), Memory>
    ensures text { OnOk result
        (text.new.items ≡ text.old.items ++ edit_lines airport.now edits.now) }
{
    for edit in edits {
        push_put_line(text, airport, edit)?;
    }
    Ok(())
}

// A proposal has no other edits than puts, so no line is made for others.
fn push_put_line(text: &mut Vec<u8>, airport: &AirportParts, edit: &Edit) -> Result<(), Memory>
    ensures text { OnOk result (text.new.items ≡ text.old.items ++ edit_line airport.now edit.now) }
{
    match *edit {
        Edit::Put { visit, part, stand } => {
            push_put(text, airport, PartId { visit, part }, stand)
        }
        _ => Ok(()),
    }
}

fn push_put(
    text: &mut Vec<u8>,
    airport: &AirportParts,
    part: PartId,
    stand: StandNo,
) -> Result<(), Memory>
    ensures text { OnOk result
        (text.new.items ≡ text.old.items ++ put_line airport.now part stand) }
{
    text.extend_from_slice(b"put ")?;
    push_part(text, part)?;
    text.push(b' ')?;
    push_stand_name(text, airport, stand.0 as usize)?;
    text.push(b'\n')?;
    Ok(())
}

fn push_left_parts(text: &mut Vec<u8>, airport: &AirportParts, lefts: &[Left]) -> Result<(), Memory>
    ensures text { OnOk result
        (text.new.items ≡ text.old.items ++ left_lines airport.now lefts.now) }
{
    for left in lefts {
        push_left_part(text, airport, left)?;
    }
    Ok(())
}

fn push_over_parts(text: &mut Vec<u8>, parts: &[PartId]) -> Result<(), Memory>
    ensures text { OnOk result (text.new.items ≡ text.old.items ++ over_lines parts.now) }
{
    for part in parts {
        push_over(text, *part)?;
    }
    Ok(())
}

fn push_over(text: &mut Vec<u8>, part: PartId) -> Result<(), Memory>
    ensures text { OnOk result (text.new.items ≡ text.old.items ++ over_line part) }
{
    text.extend_from_slice(b"over ")?;
    push_part(text, part)?;
    text.push(b'\n')?;
    Ok(())
}
