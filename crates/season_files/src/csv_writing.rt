// Writing the records of a text, one after the other.
ghost use Rattle.std.specs.Prelude.{◌≡◌, [], Some, IfOk, OnOk, map};
ghost use Rattle.std.specs.Io.KnownBytes.{Appends};
ghost use Rattle.csv.specs.Writing.{default_writer, row_text};
ghost use Rattle.season_files.specs.CsvWriting.{IsWriting, written_bytes};

use apron_base::Memory;
use csv::{Writer, WriterBuilder};
use std::alloc::Global;

/// A writer that has written nothing.
pub(crate) fn start_writing(alloc: Global) -> Writer<Vec<u8>>
    ensures start { IsWriting result }
    ensures none { written_bytes result ≡ Some [] }
{
    WriterBuilder::new().from_writer(Vec::new(alloc))
}

/// Writes one record.
pub(crate) fn write_row(wtr: &mut Writer<Vec<u8>>, fields: &[&[u8]]) -> Result<(), Memory>
    ensures row { OnOk result
        (IsWriting wtr.old
        → IsWriting wtr.new
        × Appends (written_bytes wtr.old) (written_bytes wtr.new)
        (row_text default_writer (map (λ field. field.now) fields.now))) }
{
    match wtr.write_fields(fields) {
        Ok(()) => Ok(()),
        Err(_) => Err(Memory),
    }
}
