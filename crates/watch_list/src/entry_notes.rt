// The notes of one entry, by the parts that lost their stands by it.
ghost use Rattle.std.specs.Prelude.{◌≡◌, ◌≤◌, ◌<◌, ◌+◌, ◌++◌, length, vec_capacity, vec_len};
ghost use Rattle.history_core.specs.Bumped.{last_bumped};
ghost use Rattle.watch_list.specs.Notes.{note_at, note_of, notes_by, notes_of_part};

use crate::note::Note;
use apron_base::PartId;
use plan_core::Plan;
use visit_book::{Bump, Place, Visit};

/// Puts the notes of the plan's last entry last, in order of visit and part. These parts lost their
/// stands by it, and it looks at no other part. It takes no memory.
pub(crate) fn push_notes(notes: &mut Vec<Note>, plan: &Plan, bumped: &[PartId])
    requires bumped { bumped.now ≡ last_bumped plan.now.plan }
    requires room { vec_len notes.old + length bumped.now ≤ vec_capacity notes.old }
    ensures notes { notes.new.items ≡ notes.old.items
        ++ notes_by plan.now.plan.version plan.now.plan.visits }
{
    // What holds of every plan shows that each visit is found by its number.
    let _known = plan.visits();
    for part in bumped {
        push_note_of(notes, plan, *part);
    }
}

// Puts the note of the part last, if the plan's last entry took its stand.
fn push_note_of(notes: &mut Vec<Note>, plan: &Plan, part: PartId)
    requires room { vec_len notes.old < vec_capacity notes.old }
    ensures notes { notes.new.items ≡ notes.old.items
        ++ notes_of_part plan.now.plan.version plan.now.plan.visits part }
    ensures few { vec_len notes.new ≤ vec_len notes.old + 1 }
    ensures capacity { vec_capacity notes.new ≡ vec_capacity notes.old }
{
    let Some(visit) = plan.visit(part.visit) else {
        return;
    };
    let Some(own) = visit.parts.get(part.part) else {
        return;
    };
    push_note(notes, plan.version(), visit, part.part, &own.place);
}

fn push_note(notes: &mut Vec<Note>, entry: u32, visit: &Visit, number: u8, place: &Place)
    requires room { vec_len notes.old < vec_capacity notes.old }
    ensures notes { notes.new.items ≡ notes.old.items ++ note_at entry visit.now number place.now }
    ensures few { vec_len notes.new ≤ vec_len notes.old + 1 }
    ensures capacity { vec_capacity notes.new ≡ vec_capacity notes.old }
{
    match place {
        Place::Unplaced(Some(bump)) if bump.entry == entry => {
            notes.push_reserved(note_of(visit, number, bump));
        }
        _ => {}
    }
}

fn note_of(visit: &Visit, number: u8, bump: &Bump) -> Note
    ensures is { result ≡ note_of visit.now number bump.now }
{
    Note {
        entry: bump.entry,
        part: PartId {
            visit: visit.number,
            part: number,
        },
        class: visit.class,
        stand: bump.stand,
        blocker: bump.blocker,
        minute: bump.minute,
        rule: bump.rule,
    }
}
