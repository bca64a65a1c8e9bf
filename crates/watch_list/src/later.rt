// The notes after an entry, found without a look at all.
ghost use Rattle.std.specs.Prelude.{◌≡◌, filter, nat_lt};
ghost use Rattle.std.specs.List.Sorted.{IsNonDecreasingBy};
ghost use Rattle.watch_list.specs.Watches.{is_later};

use crate::note::Note;

/// Those of the notes, which are in order of entry, that are of entries after this one. It finds
/// the first of them by a binary search.
pub(crate) fn later_notes(notes: &[Note], after: u32) -> &[Note]
    requires ordered { IsNonDecreasingBy (λ note. note.entry) notes.now }
    ensures later { result.now ≡ filter (is_later after) notes.now }
{
    let first = notes.partition_point(|note| note.entry <= after);
    &notes[first..]
}
