// The board of an airport over its journal on a disk.
ghost use Rattle.std.specs.Prelude.{◌≡◌, IfErr, IfOk};
ghost use Rattle.history_core.specs.History.{IsLegal};
ghost use Rattle.history_core.specs.Board.{entry_texts};
ghost use Rattle.journal_disk.specs.Disk.{Does, Stays};
ghost use Rattle.journal_disk.specs.Extent.{opening_calls};
ghost use Rattle.apron_run.specs.Journal.{KeepsHistory, NotOpened};
ghost use Rattle.apron_run.specs.Opened.{HasEntries, IsOpened, journal_tells};
ghost use Rattle.apron_run.specs.Survival.{Survives};

use crate::files_journal::{FilesJournal, OfFiles};
use crate::unusable::Unusable;
use apron_base::Listed;
use apron_check::AirportFiles;
use history_core::Board;
use journal_disk::{Disk, Journal};
use std::alloc::Global;
use watch_list::{NoteTest, Stated, WatchBoard, Watches};

/// What a journal is opened for.
#[derive(Clone, Copy, Debug, PartialEq, Eq)]
pub enum Access {
    /// Its plan is read, and nothing is written.
    Reads,
    /// Entries are appended to it. Its last record and the gate after it are written again first.
    Appends,
}

/// Opens the journal of these files on the disk, and the board of its entries. At `Err` comes why
/// there is none to work on, and the disk, which reads as before.
pub fn open_board<'f, N: OfFiles, D: Disk>(
    alloc: Global,
    files: &'f AirportFiles,
    access: Access,
    disk: D,
) -> Result<Board<'f, FilesJournal<N, D>>, (Unusable, D)>
    requires digests { files.now.digests ≡ N.digests }
    requires begun { Stays N.begun (D.state disk) }
    ensures opened { IfOk result
        (IsOpened (journal_tells D.state) files.entry.now (D.state disk)) }
    ensures again { IfOk result (λ board. access ≡ Access.Appends
        → Does (opening_calls board.keeper.extent.place (entry_texts board.history))
        (D.state disk) (D.state board.keeper.disk)) }
    ensures stays { IfOk result (λ board. Stays (D.state disk) (D.state board.keeper.disk)) }
    ensures refused { IfErr result (λ refusal. NotOpened files.entry.now (D.state disk)
        (D.state refusal.1) refusal.0) }
{
    let (journal, entries) = open_journal(alloc, files, access, disk)?;
    match Board::open(alloc, &files.airport, journal, entries) {
        Ok(board) => Ok(board),
        Err((fault, journal)) => Err((Unusable::Entries(fault), journal.into_disk())),
    }
}

/// The same board with these watches, to append to the journal. Each entry is read once.
pub fn open_watched<'f, N: OfFiles, D: Disk, R: Stated, T: NoteTest>(
    alloc: Global,
    files: &'f AirportFiles,
    watches: &'f Watches<R, T>,
    disk: D,
) -> Result<WatchBoard<'f, 'f, FilesJournal<N, D>, R, T>, (Unusable, D)>
    requires digests { files.now.digests ≡ N.digests }
    requires begun { Stays N.begun (D.state disk) }
    ensures opened { IfOk result (λ made.
        IsOpened (journal_tells D.state) files.entry.now (D.state disk) made.board) }
    ensures watches { IfOk result (λ made. made.watches ≡ watches.entry.now) }
    ensures next { IfOk result (λ made. made.next ≡ made.board.next) }
    ensures again { IfOk result (λ made.
        Does (opening_calls made.board.keeper.extent.place (entry_texts made.board.history))
        (D.state disk) (D.state made.board.keeper.disk)) }
    ensures stays { IfOk result (λ made. Stays (D.state disk) (D.state made.board.keeper.disk)) }
    ensures refused { IfErr result (λ refusal. NotOpened files.entry.now (D.state disk)
        (D.state refusal.1) refusal.0) }
{
    let (journal, entries) = open_journal(alloc, files, Access::Appends, disk)?;
    match WatchBoard::open(alloc, &files.airport, journal, entries, watches) {
        Ok(board) => Ok(board),
        Err((fault, journal)) => Err((Unusable::Entries(fault), journal.into_disk())),
    }
}

// The journal of these files on the disk, and the bytes of its entries. At `Err` comes why there is
// none, and the disk.
fn open_journal<N: OfFiles, D: Disk>(
    alloc: Global,
    files: &AirportFiles,
    access: Access,
    disk: D,
) -> Result<(FilesJournal<N, D>, Vec<Listed<u8>>), (Unusable, D)>
    requires digests { files.now.digests ≡ N.digests }
    requires begun { Stays N.begun (D.state disk) }
    ensures entries { IfOk result (λ opened. HasEntries files.now.digests (D.state disk)
        (journal_tells D.state opened.0) opened.1.items) }
    ensures again { IfOk result (λ opened. access ≡ Access.Appends
        → Does (opening_calls opened.0.extent.place opened.1.items)
        (D.state disk) (D.state opened.0.disk)) }
    ensures stays { IfOk result (λ opened. Stays (D.state disk) (D.state opened.0.disk)) }
    ensures refused { IfErr result (λ refusal.
        NotOpened files.now (D.state disk) (D.state refusal.1) refusal.0) }
{
    match access {
        Access::Reads => match Journal::open(alloc, disk, &files.digests) {
            Ok((journal, entries)) => Ok((FilesJournal::new(journal), entries)),
            Err((fault, disk)) => Err((Unusable::Journal(fault), disk)),
        },
        Access::Appends => match Journal::open_to_append(alloc, disk, &files.digests) {
            Ok((journal, entries)) => Ok((FilesJournal::new(journal), entries)),
            Err((fault, disk)) => Err((Unusable::Journal(fault), disk)),
        },
    }
}

/// Gives back the disk of a board that is not needed any more. It keeps the board's history, or
/// this and the entry at risk after it, as the journal of these files; and so does what a crash
/// leaves.
pub fn close_board<N: OfFiles, D: Disk>(board: Board<'_, FilesJournal<N, D>>) -> D
    ensures keeps { KeepsHistory (record { airport = board.entry.airport; digests = N.digests })
        board.entry.history board.entry.at_risk (D.state result) }
    ensures survives { Survives N.digests board.entry.history board.entry.at_risk N.begun
        (D.state result) }
    ensures disk { result ≡ board.entry.keeper.disk }
    ensures legal { IsLegal board.entry.airport board.entry.history }
{
    board.into_keeper().into_disk()
}
