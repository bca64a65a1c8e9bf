// The word `init`.
ghost use Rattle.apron_base.specs.Ends.{SinkState, SourceState};
ghost use Rattle.apron_base.specs.Shelf.{ShelfState};
ghost use Rattle.apron_run.specs.Init.{AtInit};
ghost use Rattle.apron_run.specs.World.{run_world};

use crate::End;
use crate::print::{Kind, Text};
use crate::unusable::Unusable;
use apron_check::AirportFiles;
use journal_disk::Disk;

/// Makes a journal of these files with no entry on an empty disk.
pub(crate) fn make_journal<D: Disk>(files: &AirportFiles, disk: &mut D) -> End
    ensures does { (shelf : ShelfState) (source : SourceState) (sink : SinkState)
        → AtInit files.now (run_world shelf source sink (D.state disk.old))
        (run_world shelf source sink (D.state disk.new)) result }
{
    match journal_disk::init(disk, &files.digests) {
        Ok(()) => End::Printed(Text(Kind::NewJournal)),
        Err(fault) => End::Unusable(Unusable::Journal(fault)),
    }
}
