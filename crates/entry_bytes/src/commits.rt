// Commits as bytes.
ghost use Rattle.std.specs.Prelude.{◌≡◌, ◌≤◌, ◌++◌, length, OnOk};
ghost use Rattle.std.specs.List.{flat_map};
ghost use Rattle.apron_base.specs.Histories.{Every};
ghost use Rattle.visit_book.specs.Edits.{most_edits};
ghost use Rattle.entry_bytes.specs.Commits.{commit_fields, edit_fields, part_fields};
ghost use Rattle.entry_bytes.specs.Fields.{Fits, field_bytes};
ghost use Rattle.entry_bytes.specs.Gives.{GivesReading};
ghost use Rattle.entry_bytes.specs.Parsing.{parse_commit, parse_cut, parse_edit, parse_edits, parse_join, parse_lift, parse_put};
ghost use Rattle.entry_bytes.specs.Readings.{parse_many};

use crate::faults::ReadFault;
use crate::reader::{Reader, in_form};
use crate::writing::{push_name, push_u8, push_u16, push_u32};
use apron_base::{Listed, Memory, StandNo, VisitNo};
use apron_rules::Airport;
use std::alloc::Global;
use visit_book::{Draft, Edit, MAX_EDITS};

fn push_part_of_edit(out: &mut Vec<u8>, tag: u8, visit: VisitNo, part: u8) -> Result<(), Memory>
    ensures text { OnOk result
        (out.new.items ≡ out.old.items ++ flat_map field_bytes (part_fields tag visit part)) }
    ensures fits { OnOk result (Every Fits (part_fields tag visit part)) }
{
    push_u8(out, tag)?;
    push_u32(out, visit.0)?;
    push_u8(out, part)
}

fn push_edit(out: &mut Vec<u8>, edit: &Edit) -> Result<(), Memory>
    ensures text { OnOk result
        (out.new.items ≡ out.old.items ++ flat_map field_bytes (edit_fields edit.now)) }
    ensures fits { OnOk result (Every Fits (edit_fields edit.now)) }
{
    match *edit {
        Edit::Put { visit, part, stand } => {
            push_part_of_edit(out, 1, visit, part)?;
            push_u16(out, stand.0)
        }
        Edit::Lift { visit, part } => push_part_of_edit(out, 2, visit, part),
        Edit::Cut { visit, part, at } => {
            push_part_of_edit(out, 3, visit, part)?;
            push_u32(out, at)
        }
        Edit::Join { visit, part } => push_part_of_edit(out, 4, visit, part),
    }
}

fn push_edits(out: &mut Vec<u8>, edits: &[Edit]) -> Result<(), Memory>
    ensures text { OnOk result (out.new.items
        ≡ out.old.items ++ flat_map field_bytes (flat_map edit_fields edits.now)) }
    ensures fits { OnOk result (Every Fits (flat_map edit_fields edits.now)) }
{
    for edit in edits {
        push_edit(out, edit)?;
    }
    Ok(())
}

pub(crate) fn push_commit(out: &mut Vec<u8>, draft: &Draft) -> Result<(), Memory>
    requires few { length draft.now.edits ≤ most_edits }
    ensures text { OnOk result
        (out.new.items ≡ out.old.items ++ flat_map field_bytes (commit_fields draft.now)) }
    ensures fits { OnOk result (Every Fits (commit_fields draft.now)) }
{
    push_name(out, &draft.desk)?;
    push_u32(out, draft.number)?;
    push_u32(out, draft.base)?;
    let edits = draft.edits.as_slice();
    push_u8(out, edits.len() as u8)?;
    push_edits(out, edits)
}

#[tactic(auto, unfolding(crate::specs::Parsing::parse_put))]
fn parse_put(reader: &mut Reader<'_>, airport: &Airport) -> Result<Edit, ReadFault>
    ensures is { GivesReading result reader.new (parse_put airport.now reader.old) }
{
    let visit = VisitNo(reader.u32()?);
    let part = reader.byte()?;
    let at = reader.at();
    let stand = reader.u16()?;
    in_form(at, usize::from(stand) < airport.parts().stands.len())?;
    let stand = StandNo(stand);
    Ok(Edit::Put { visit, part, stand })
}

#[tactic(auto, unfolding(crate::specs::Parsing::parse_lift))]
fn parse_lift(reader: &mut Reader<'_>) -> Result<Edit, ReadFault>
    ensures is { GivesReading result reader.new (parse_lift reader.old) }
{
    let visit = VisitNo(reader.u32()?);
    let part = reader.byte()?;
    Ok(Edit::Lift { visit, part })
}

#[tactic(auto, unfolding(crate::specs::Parsing::parse_cut))]
fn parse_cut(reader: &mut Reader<'_>) -> Result<Edit, ReadFault>
    ensures is { GivesReading result reader.new (parse_cut reader.old) }
{
    let visit = VisitNo(reader.u32()?);
    let part = reader.byte()?;
    let at = reader.u32()?;
    Ok(Edit::Cut { visit, part, at })
}

#[tactic(auto, unfolding(crate::specs::Parsing::parse_join))]
fn parse_join(reader: &mut Reader<'_>) -> Result<Edit, ReadFault>
    ensures is { GivesReading result reader.new (parse_join reader.old) }
{
    let visit = VisitNo(reader.u32()?);
    let part = reader.byte()?;
    Ok(Edit::Join { visit, part })
}

#[tactic(auto, unfolding(crate::specs::Parsing::parse_edit))]
fn parse_edit(reader: &mut Reader<'_>, airport: &Airport) -> Result<Edit, ReadFault>
    ensures is { GivesReading result reader.new (parse_edit airport.now reader.old) }
{
    let at = reader.at();
    match reader.byte()? {
        1 => parse_put(reader, airport),
        2 => parse_lift(reader),
        3 => parse_cut(reader),
        4 => parse_join(reader),
        _ => Err(ReadFault::BadField(at)),
    }
}

// Reads this many edits.
fn parse_edits_of_count(
    alloc: Global,
    count: u8,
    reader: &mut Reader<'_>,
    airport: &Airport,
) -> Result<Listed<Edit>, ReadFault>
    ensures is { GivesReading result reader.new
        (parse_many count (parse_edit airport.now) reader.old) }
{
    let mut edits = Listed::new(alloc);
    for _taken in 0..count {
        let edit = parse_edit(reader, airport)?;
        edits.push(edit)?;
    }
    Ok(edits)
}

#[tactic(auto, unfolding(crate::specs::Parsing::parse_edits))]
fn parse_edits(
    alloc: Global,
    reader: &mut Reader<'_>,
    airport: &Airport,
) -> Result<Listed<Edit>, ReadFault>
    ensures is { GivesReading result reader.new (parse_edits airport.now reader.old) }
{
    let at = reader.at();
    let count = reader.byte()?;
    in_form(at, 1 <= count && usize::from(count) <= MAX_EDITS)?;
    parse_edits_of_count(alloc, count, reader, airport)
}

#[tactic(auto, unfolding(crate::specs::Parsing::parse_commit))]
pub(crate) fn parse_commit(
    alloc: Global,
    reader: &mut Reader<'_>,
    airport: &Airport,
) -> Result<Draft, ReadFault>
    ensures is { GivesReading result reader.new (parse_commit airport.now reader.old) }
{
    let desk = reader.name()?;
    let number = reader.u32()?;
    let base = reader.u32()?;
    let edits = parse_edits(alloc, reader, airport)?;
    Ok(Draft {
        desk,
        number,
        base,
        edits,
    })
}
