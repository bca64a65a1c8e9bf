// The feed of a watch.
ghost use Rattle.std.specs.Prelude.{◌≡◌, IfOk};
ghost use Rattle.watch_list.specs.Watches.{feed};

use crate::note::{Note, Stated};
use crate::watch::{NoteTest, Watch};
use apron_base::Memory;
use std::alloc::Global;

/// Those of the notes that are of entries after this one, and that the watch tells of, in order.
/// The only error is a lack of memory.
pub fn feed<R: Stated, T: NoteTest>(
    alloc: Global,
    notes: &[Note],
    watch: &Watch<R, T>,
    after: u32,
) -> Result<Vec<Note>, Memory>
    ensures feed { IfOk result
        (λ fed. fed.items ≡ feed (R.tells watch.now.stated) after notes.now) }
{
    let mut fed = Vec::new(alloc);
    for note in notes {
        if after < note.entry && watch.picks(note) {
            fed.push(*note)?;
        }
    }
    Ok(fed)
}
