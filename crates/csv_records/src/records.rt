// Reading the records of a text, one after the other.
ghost use Rattle.std.specs.Prelude.{◌≡◌, ℕ, List, [], Some, IfOk};
ghost use Rattle.csv.specs.Machine.{next_record};
ghost use Rattle.csv.specs.Reading.{default_config, strip_bom};
ghost use Rattle.csv.specs.Records.{fields_of};
ghost use Rattle.csv.specs.declared.parser.State.{State};
ghost use Rattle.csv.specs.declared.parser.State.TheVariants as st;
ghost use Rattle.csv_records.specs.Reading.{IsReading, ReadFound};

use apron_base::Memory;
use csv::{ByteRecord, Reader, ReaderBuilder};
use std::alloc::Global;

/// A reader at the start of a text, after its byte order mark if there is one, with no header row
/// and records of any length.
pub fn start(alloc: Global, text: &[u8]) -> Reader<&[u8]>
    ensures start { IsReading (λ b. Some b.now) result st.StartRecord (strip_bom text.now) }
{
    ReaderBuilder::new()
        .has_headers(false)
        .flexible(true)
        .from_reader(alloc, text)
}

/// Reads the next record into `row`; false at the end of the text. `Err` if there is no memory.
pub fn read_row(rdr: &mut Reader<&[u8]>, row: &mut ByteRecord) -> Result<bool, Memory>
    ensures ok { IfOk result (λ found. (s : State) (left : List ℕ)
        → IsReading (λ b. Some b.now) rdr.old s left
        → ReadFound (λ b. Some b.now) rdr.new found (fields_of row.new)
        (next_record default_config s [] [] left)) }
{
    match rdr.read_byte_record(row) {
        Ok(found) => Ok(found),
        Err(_) => Err(Memory),
    }
}
