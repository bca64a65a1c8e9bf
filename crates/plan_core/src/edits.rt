// Edits on a working copy of the visits that they change. Edits are counted from 1.
ghost use Rattle.std.specs.Prelude.{◌≡◌, ◌≤◌, ◌<◌, ◌++◌, ◌∷◌, [], All, Ok, Err, Some, IfErr, IfOk, OnOk, true, length, map, position};
ghost use Rattle.std.specs.List.{position_or_len};
ghost use Rattle.visit_book.specs.Edits.{IsEditOf, most_edits, part_of, visit_of};
ghost use Rattle.visit_book.specs.Ends.{is_live};
ghost use Rattle.visit_book.specs.Numbers.{IsNumbered, has_number};
ghost use Rattle.visit_book.specs.PartFields.{part_at};
ghost use Rattle.visit_book.specs.WellFormed.{IsWellFormed};
ghost use Rattle.plan_core.specs.Edits.{after_all_edits, after_edit, edit_part, edit_visit, edited_visits, part_at_place, with_part};
ghost use Rattle.plan_core.specs.Working.{is_from, is_on_block, with_visit_once};
ghost use Rattle.plan_core.specs.Rebase.{edited_last};

use apron_base::{Memory, VisitNo};
use apron_rules::Airport;
use std::alloc::Global;
use visit_book::{
    BadCut, BadJoin, Edit, EditFault, Part, Place, Visit, cut, has_actual_behind, is_actual,
    is_live, join, part_of, visit_at, visit_of,
};

/// The visits that the edits change, in order of number.
pub(crate) fn edited_visits(
    alloc: Global,
    edits: &[Edit],
    visits: &[Visit],
) -> Result<Vec<Visit>, Memory>
    requires numbered { IsNumbered visits.now }
    ensures ok { IfOk result (λ edited. edited.items ≡ edited_visits edits.now visits.now) }
{
    let mut edited = Vec::new(alloc);
    for edit in edits {
        if let Some(visit) = visit_at(visits, visit_of(edit)) {
            add_visit_once(&mut edited, *visit)?;
        }
    }
    Ok(edited)
}

/// Adds a visit before those of greater numbers, unless there is one of its number already.
pub fn add_visit_once(visits: &mut Vec<Visit>, visit: Visit) -> Result<(), Memory>
    ensures ok { OnOk result (visits.new.items ≡ with_visit_once visits.old.items visit) }
{
    if index_of_visit(visits.as_slice(), visit.number).is_none() {
        visits.insert(count_below(visits.as_slice(), visit.number), visit)?;
    }
    Ok(())
}

// How many visits come before the first of this number or a greater one.
fn count_below(visits: &[Visit], number: VisitNo) -> usize
    ensures count { result ≡ position_or_len (is_from number) visits.now }
    ensures most { result ≤ length visits.now }
{
    match first_from(visits, number) {
        Some(place) => place,
        None => visits.len(),
    }
}

fn first_from(visits: &[Visit], number: VisitNo) -> Option<usize>
    ensures place { result ≡ position (is_from number) visits.now }
{
    visits.iter().position(|visit| is_from(visit, number))
}

fn is_from(visit: &Visit, number: VisitNo) -> bool
    ensures is { result ≡ is_from number visit.now }
{
    visit.number.0 >= number.0
}

/// Applies, in order, the edits of a draft made over this base. After `Err` the visits must not be
/// used.
pub(crate) fn after_all_edits(
    airport: &Airport,
    base: u32,
    edits: &[Edit],
    visits: &mut [Visit],
) -> Result<(), EditFault>
    requires each { All (IsWellFormed airport.now) visits.old }
    requires stands { All (IsEditOf airport.now) edits.now }
    requires few { length edits.now ≤ most_edits }
    ensures ok { OnOk result
        (after_all_edits airport.now base edits.now visits.old ≡ Ok visits.new) }
    ensures err { IfErr result
        (λ fault. after_all_edits airport.now base edits.now visits.old ≡ Err fault) }
    ensures each { OnOk result (All (IsWellFormed airport.now) visits.new) }
{
    let mut number = 1;
    for edit in edits {
        after_edit(airport, base, number, edit, visits)?;
        number += 1;
    }
    Ok(())
}

fn after_edit(
    airport: &Airport,
    base: u32,
    number: u8,
    edit: &Edit,
    visits: &mut [Visit],
) -> Result<(), EditFault>
    requires each { All (IsWellFormed airport.now) visits.old }
    requires stand { IsEditOf airport.now edit.now }
    ensures ok { OnOk result
        (after_edit airport.now base number edit.now visits.old ≡ Ok visits.new) }
    ensures err { IfErr result
        (λ fault. after_edit airport.now base number edit.now visits.old ≡ Err fault) }
    ensures each { OnOk result (All (IsWellFormed airport.now) visits.new) }
{
    let Some(place) = index_of_visit(visits, visit_of(edit)) else {
        return Err(EditFault::UnknownVisit { edit: number });
    };
    visits[place] = edit_visit(airport, base, number, edit, &visits[place])?;
    Ok(())
}

fn edit_visit(
    airport: &Airport,
    base: u32,
    number: u8,
    edit: &Edit,
    visit: &Visit,
) -> Result<Visit, EditFault>
    requires well_formed { IsWellFormed airport.now visit.now }
    requires stand { IsEditOf airport.now edit.now }
    ensures is { result ≡ edit_visit airport.now base number edit.now visit.now }
    ensures well_formed { IfOk result (IsWellFormed airport.now) }
{
    if visit.edited > base {
        return Err(EditFault::Overtaken {
            edit: number,
            visit: visit.number,
            edited: visit.edited,
        });
    }
    if !is_live(visit) {
        return Err(EditFault::Gone { edit: number });
    }
    let Some(part) = visit.parts.get(part_of(edit)) else {
        return Err(EditFault::NoSuchPart { edit: number });
    };
    edit_part(airport, number, edit, visit, part)
}

// What the edit makes of the visit that has this part.
fn edit_part(
    airport: &Airport,
    number: u8,
    edit: &Edit,
    visit: &Visit,
    part: Part,
) -> Result<Visit, EditFault>
    requires well_formed { IsWellFormed airport.now visit.now }
    requires live { is_live visit.now ≡ true }
    requires stand { IsEditOf airport.now edit.now }
    requires part { part_at visit.now.parts (part_of edit.now) ≡ Some part }
    ensures is { result ≡ edit_part airport.now number edit.now visit.now part }
    ensures well_formed { IfOk result (IsWellFormed airport.now) }
{
    if is_on_block(edit, visit, &part) {
        return Err(EditFault::OnBlock { edit: number });
    }
    let place = part_of(edit);
    match *edit {
        Edit::Put { stand, .. } => {
            if let Err(by) = airport.fits(stand, visit.kind) {
                return Err(EditFault::Unfit { edit: number, by });
            }
            Ok(with_part(visit, place, part_at_place(Place::Planned(stand), part)))
        }
        Edit::Lift { .. } => Ok(with_part(
            visit,
            place,
            part_at_place(Place::Unplaced(None), part),
        )),
        Edit::Cut { at, .. } => match cut(visit, airport, place, at) {
            Ok(made) => Ok(made),
            Err(BadCut) => Err(EditFault::BadCut { edit: number }),
        },
        Edit::Join { .. } => match join(visit, place) {
            Ok(made) => Ok(made),
            Err(BadJoin) => Err(EditFault::BadJoin { edit: number }),
        },
    }
}

// For a put or a lift, whether the part is actual; for a cut or a join, whether a later part is.
fn is_on_block(edit: &Edit, visit: &Visit, part: &Part) -> bool
    ensures is { result ≡ is_on_block edit.now visit.now part.now }
{
    match *edit {
        Edit::Put { .. } | Edit::Lift { .. } => is_actual(&part.place),
        Edit::Cut { part, .. } | Edit::Join { part, .. } => has_actual_behind(visit, part),
    }
}

fn part_at_place(place: Place, part: Part) -> Part
    ensures is { result ≡ part_at_place place part }
{
    Part { place, ..part }
}

fn with_part(visit: &Visit, number: u8, part: Part) -> Visit
    requires least { 1 ≤ number }
    requires most { number ≤ length visit.now.parts }
    ensures is { result ≡ with_part visit.now number part }
{
    Visit {
        parts: visit.parts.with(number, part),
        ..*visit
    }
}

// Where the visit of this number is among visits.
fn index_of_visit(visits: &[Visit], number: VisitNo) -> Option<usize>
    ensures place { result ≡ position (has_number number) visits.now }
{
    visits.iter().position(|visit| has_number(visit, number))
}

fn has_number(visit: &Visit, number: VisitNo) -> bool
    ensures is { result ≡ has_number number visit.now }
{
    visit.number.0 == number.0
}

/// Makes this version the last edit of the visits.
pub(crate) fn edited_last(version: u32, visits: &mut [Visit])
    ensures is { visits.new ≡ map (edited_last version) visits.old }
{
    for visit in visits {
        visit.edited = version;
    }
}
