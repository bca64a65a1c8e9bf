// The word `desk`.
ghost use Rattle.std.specs.Prelude.{◌≡◌};
ghost use Rattle.apron_base.specs.Shelf.{ShelfState};
ghost use Rattle.desk_workers.specs.Watched.{feed_texts};
ghost use Rattle.apron_run.specs.Desk.{AtDesk};
ghost use Rattle.apron_run.specs.World.{Unwritten, run_world};
ghost use Rattle.apron_run.specs.declared.unusable.Unusable.{Unusable};

use crate::End;
use crate::files_journal::OfFiles;
use crate::journal::{close_board, open_watched};
use crate::same_disk::{Named, SameDisk};
use apron_base::{Sink, Source};
use apron_check::AirportFiles;
use desk_http::session_fed;
use desk_workers::AlonePort;
use journal_disk::Disk;
use std::alloc::Global;
use std::marker::{Brand, PhantomData};
use watch_list::{NoteTest, Stated, Watches};

/// Answers HTTP requests from the source on the sink, at the airport of these files, on the journal
/// of them that is on the disk, with these watches.
pub(crate) fn serve_desk<S: Source, W: Sink, D: Disk, R: Stated, T: NoteTest>(
    alloc: Global,
    files: &AirportFiles,
    watches: &Watches<R, T>,
    source: &mut S,
    sink: &mut W,
    disk: &mut D,
) -> End
    ensures does { (shelf : ShelfState) → AtDesk (feed_texts R.tells watches.now) files.now
        (run_world shelf (S.state source.old) (W.state sink.old) (D.state disk.old))
        (run_world shelf (S.state source.new) (W.state sink.new) (D.state disk.new)) result }
    ensures untaken { (why : Unusable) → result ≡ End.Unusable why → source.new ≡ source.old }
{
    let (end, _disk) = serve_on::<Brand, S, W, D, R, T>(alloc, files, watches, source, sink, disk);
    end
}

// The same with the borrow of the disk given back, by its name.
fn serve_on<'d, N: Named + OfFiles, S: Source, W: Sink, D: Disk, R: Stated, T: NoteTest>(
    alloc: Global,
    files: &AirportFiles,
    watches: &Watches<R, T>,
    source: &mut S,
    sink: &mut W,
    disk: &'d mut D,
) -> (End, &'d mut D)
    requires named { disk.ghost_name ≡ N.name }
    requires digests { files.now.digests ≡ N.digests }
    requires begun { Unwritten N.begun (D.state disk.old) }
    ensures same { result.1.ghost_name ≡ disk.entry.ghost_name }
    ensures does { (shelf : ShelfState) → AtDesk (feed_texts R.tells watches.now) files.now
        (run_world shelf (S.state source.old) (W.state sink.old) N.begun)
        (run_world shelf (S.state source.new) (W.state sink.new) (D.state result.1.now)) result.0 }
    ensures untaken { (why : Unusable) → result.0 ≡ End.Unusable why → source.new ≡ source.old }
{
    let same: SameDisk<'d, N, D> = SameDisk {
        disk,
        of: PhantomData,
    };
    let (end, back) = serve_session::<N, S, W, SameDisk<'d, N, D>, R, T>(
        alloc, files, watches, source, sink, same,
    );
    let SameDisk { disk, .. } = back;
    (end, disk)
}

// One session at the board of these files over their journal on the disk, with these watches.
fn serve_session<N: OfFiles, S: Source, W: Sink, D: Disk, R: Stated, T: NoteTest>(
    alloc: Global,
    files: &AirportFiles,
    watches: &Watches<R, T>,
    source: &mut S,
    sink: &mut W,
    disk: D,
) -> (End, D)
    requires digests { files.now.digests ≡ N.digests }
    requires begun { Unwritten N.begun (D.state disk) }
    ensures does { (shelf : ShelfState) → AtDesk (feed_texts R.tells watches.now) files.now
        (run_world shelf (S.state source.old) (W.state sink.old) N.begun)
        (run_world shelf (S.state source.new) (W.state sink.new) (D.state result.1)) result.0 }
    ensures untaken { (why : Unusable) → result.0 ≡ End.Unusable why → source.new ≡ source.old }
{
    let watched = match open_watched::<N, D, R, T>(alloc, files, watches, disk) {
        Ok(watched) => watched,
        Err((why, disk)) => return (End::Unusable(why), disk),
    };
    let mut desk = AlonePort::new(&files.airport, watched);
    let outcome = session_fed(alloc, &mut desk, source, sink);
    let board = desk.into_machine().into_board();
    (End::Served(outcome), close_board(board))
}
