// Desks and screens at the board of an airport over its journal on a disk.
ghost use Rattle.std.specs.Prelude.{◌≡◌, ◌<◌, ◌≤◌, [], ◌∷◌, length};
ghost use Rattle.apron_base.specs.Ends.{SinkState, SourceState};
ghost use Rattle.apron_base.specs.Shelf.{ShelfState};
ghost use Rattle.desk_workers.specs.Crew.{end_of};
ghost use Rattle.desk_workers.specs.Watched.{feed_texts};
ghost use Rattle.apron_run.specs.Run.{KeptUnless};
ghost use Rattle.apron_run.specs.World.{Unwritten};
ghost use Rattle.apron_serve.specs.Board.{serve_world, served_end};
ghost use Rattle.apron_serve.specs.Noted.{MeetsNoted, has_missed};
ghost use Rattle.apron_serve.specs.Orders.{most_listeners};
ghost use Rattle.apron_serve.specs.Serve.{is_attended};

use apron_base::Memory;
use apron_check::AirportFiles;
use apron_run::{End, OfFiles, ServeEnd, close_board, open_watched};
use desk_workers::{WorkEnd, Workplace, first_end};
use journal_disk::Disk;
use screen_server::{ShownEnd, Task, serve_watched};
use shown_board::HallNote;
use std::alloc::Global;
use std::sync::Wait;
use std::thread::Threads;
use watch_list::{NoteTest, Stated, Watches};

/// Opens the journal of these files on the disk, and serves the connections of the listeners of
/// desks at its board, and those of the listeners of screens beside them. It gives the disk back,
/// and what the hall of the screens noted, if there are any. If there is no journal to work on, or
/// no memory for the screens or the turns at it, no listener is called, and the disk reads as
/// before.
pub(crate) fn serve_desks<
    'a,
    N: OfFiles + Send,
    L: Workplace + Send,
    D: Disk + Send,
    R: Stated + Sync + 'a,
    T: NoteTest + Sync + 'a,
    Rt: Wait + Threads + Sync + 'a,
>(
    rt: &'a Rt,
    alloc: Global,
    files: &'a AirportFiles,
    task: Task,
    watches: &'a Watches<R, T>,
    listeners: &mut [L],
    screens: &mut [L],
    disk: D,
) -> (End, D, Option<HallNote>)
    requires digests { files.now.digests ≡ N.digests }
    requires begun { Unwritten N.begun (D.state disk) }
    requires few { length listeners.old ≤ most_listeners }
    requires day { 0 < length screens.old → (1 ≤ task.day) × (task.day ≤ files.now.airport.days) }
    ensures meets { (shelf : ShelfState) (source : SourceState) (sink : SinkState) → MeetsNoted
        (record { states = L.states; feeds = feed_texts R.tells watches.now }) task
        files.now (serve_world L.state shelf source listeners.old screens.old sink N.begun)
        (serve_world L.state shelf source listeners.new screens.new sink (D.state result.1))
        result.0 result.2 }
    ensures unserved { KeptUnless (is_attended result.0) listeners.old listeners.new }
    ensures unshown { KeptUnless (is_attended result.0) screens.old screens.new }
{
    let board = match open_watched::<N, D, R, T>(alloc, files, watches, disk) {
        Ok(board) => board,
        Err((why, disk)) => return (End::Unusable(why), disk, None),
    };
    let (served, hall) = serve_watched(rt, alloc, &files.airport, board, listeners, screens, task);
    match served {
        Ok(ends) => {
            let note = hall.note();
            let end = served_end(&ends, &note);
            (
                End::Attended(end),
                close_board(hall.into_board().into_board()),
                note,
            )
        }
        Err(Memory) => (
            End::Memory,
            close_board(hall.into_board().into_board()),
            None,
        ),
    }
}

// How serving ended, by how its workers did, and by the note of their hall: the workers of desks
// come before those of screens.
fn served_end(ends: &ShownEnd, note: &Option<HallNote>) -> ServeEnd
    ensures is { result
        ≡ served_end (end_of (ends.now.desks ∷ ends.now.screens ∷ [])) (has_missed note.now) }
{
    match first_end(ends.desks, ends.screens) {
        WorkEnd::ListenerFault => ServeEnd::ListenerFault,
        WorkEnd::Done if has_missed(note) => ServeEnd::Missed,
        WorkEnd::Done => ServeEnd::Done,
    }
}

fn has_missed(note: &Option<HallNote>) -> bool
    ensures is { result ≡ has_missed note.now }
{
    match note {
        Some(note) => note.missed(),
        None => false,
    }
}
