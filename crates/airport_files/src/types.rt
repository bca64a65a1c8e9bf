// The table of a type file, read record by record.
ghost use Rattle.std.specs.Prelude.{◌≡◌, ℕ, List, Some, IfOk, IfErr, ◌<◌, ◌+◌, ◌^◌, length};
ghost use Rattle.csv.specs.declared.parser.State.{State};
ghost use Rattle.csv_records.specs.Reading.{IsReading};
ghost use Rattle.csv_records.specs.Tables.{table_in};
ghost use Rattle.airport_files.specs.Table.{ReadsTable, RefusesTable, table_from, rows_left};
ghost use Rattle.airport_files.specs.Types.{types_after};

use crate::type_rows::{Columns, columns_of, row_of};
use apron_base::{Listed, Memory};
use apron_rules::TypeRow;
use csv::{ByteRecord, Reader};
use csv_records::{read_row, start};
use std::alloc::Global;

/// Why no types are read: the first bad record, counted from 1, or memory has run out.
#[derive(Clone, Copy, PartialEq, Eq, Debug)]
pub(crate) enum TableFault {
    BadRow(u32),
    Memory,
}

impl From<Memory> for TableFault {
    ghost use Rattle.std.specs.Prelude.{◌≡◌};
    ghost use Rattle.airport_files.specs.declared.types.TableFault.TheVariants as table_fault;

    ghost from_gives = { λ _ why. why ≡ table_fault.Memory };

    fn from(_: Memory) -> Self {
        TableFault::Memory
    }
}

// Reads the first record, the header, and returns its columns.
fn read_type_header(rdr: &mut Reader<&[u8]>, row: &mut ByteRecord) -> Result<Columns, TableFault>
    ensures ok { IfOk result (λ columns. (turns : ℕ) (s : State) (left : List ℕ)
        → IsReading (λ b. Some b.now) rdr.old s left
        → (t : State) × (rest : List ℕ) × IsReading (λ b. Some b.now) rdr.new t rest
        × (table_from (turns + 1) s left ≡ rows_left columns 2 turns t rest)) }
    ensures err { IfErr result (λ e. (turns : ℕ) (s : State) (left : List ℕ)
        → IsReading (λ b. Some b.now) rdr.old s left
        → RefusesTable e (table_from (turns + 1) s left)) }
{
    if !read_row(rdr, row)? {
        return Err(TableFault::BadRow(1));
    }
    match columns_of(row) {
        Some(columns) => Ok(columns),
        None => Err(TableFault::BadRow(1)),
    }
}

// Reads the records after the header, at most `turns` of them.
fn read_rows(
    alloc: Global,
    rdr: &mut Reader<&[u8]>,
    row: &mut ByteRecord,
    columns: Columns,
    turns: usize,
) -> Result<Listed<TypeRow>, TableFault>
    requires few { turns < 2 ^ 31 }
    ensures value { (s : State) (left : List ℕ)
        → IsReading (λ b. Some b.now) rdr.old s left
        → ReadsTable result (rows_left columns 2 turns s left) }
{
    let mut rows = Listed::new(alloc);
    for k in 0..turns {
        if !read_row(rdr, row)? {
            return Ok(rows);
        }
        let Some(next) = row_of(columns, row) else {
            return Err(TableFault::BadRow(k as u32 + 2));
        };
        if rows.push(next).is_err() {
            return Err(TableFault::Memory);
        }
    }
    Ok(rows)
}

/// The types of a type file, or its first bad record.
pub(crate) fn read_table(alloc: Global, text: &[u8]) -> Result<Listed<TypeRow>, TableFault>
    requires few { length text.now < 2 ^ 31 }
    ensures value { ReadsTable result (table_in types_after text.now) }
{
    let mut rdr = start(alloc, text);
    let mut row = ByteRecord::new(alloc);
    let columns = read_type_header(&mut rdr, &mut row)?;
    read_rows(alloc, &mut rdr, &mut row, columns, text.len())
}
