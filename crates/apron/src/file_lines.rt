// What standard error adds to a fault of an airport, type or season file, which are read once more.

use airport_files::{FileFault, read_airport};
use apron_base::{Memory, Shelf, ShelfFault, Word};
use apron_check::{AirportFiles, MAX_FILE, airport_of};
use apron_rules::Airport;
use apron_run::{MAX_SEASON, Status};
use file_faults::{airport_fault, dates_of_season, season_fault, season_row_there, types_fault};
use std::alloc::Global;
use std::rt::Files;
use system_files::FileShelf;

/// Says which line of which file is wrong, and why, if the status is that of an airport file's or a
/// type file's fault. If memory runs out, only the line on standard output says it.
pub(crate) fn tell_files_fault<R: Eprint + Files + AllocGlobal>(
    rt: &R,
    words: &[Word],
    status: u8,
) {
    let [_, airport, types, ..] = words else {
        return;
    };
    if status == Status::FileFault.code() {
        tell(rt, files_fault(rt, airport.text(), types.text()));
    }
}

// Says the line, if there is one.
fn tell<R: Eprint>(rt: &R, told: Result<Option<String>, Memory>) {
    if let Ok(Some(line)) = told {
        // If standard error fails too, only the line on standard output says it.
        let _ = eprintln!(rt; "{line}");
    }
}

// What is wrong in the two files.
fn files_fault<R: Eprint + Files + AllocGlobal>(
    rt: &R,
    airport: &str,
    types: &str,
) -> Result<Option<String>, Memory> {
    let alloc: Global = rt.alloc();
    let mut shelf = FileShelf::new(rt);
    let airport_text = match shelf.read_file(alloc, airport, MAX_FILE) {
        Ok(text) => text,
        Err(fault) => return unread(alloc, airport, fault),
    };
    let types_text = match shelf.read_file(alloc, types, MAX_FILE) {
        Ok(text) => text,
        Err(fault) => return unread(alloc, types, fault),
    };
    if types_text.len() > MAX_FILE as usize {
        return Ok(None);
    }
    let fault = match read_airport(alloc, airport_text.as_slice(), types_text.as_slice()) {
        Ok(_) => return Ok(None),
        Err(fault) => fault,
    };
    match airport_fault(alloc, airport, airport_text.as_slice(), &fault)? {
        Some(line) => Ok(Some(line)),
        None => types_fault(alloc, types, types_text.as_slice(), &fault),
    }
}

// Why a file was not read, if it is too long.
fn unread(alloc: Global, file: &str, fault: ShelfFault) -> Result<Option<String>, Memory> {
    match fault {
        ShelfFault::TooLong => Ok(Some(format!(in alloc; "{file}: the file has more than 1 MiB")?)),
        ShelfFault::Failed | ShelfFault::Memory => Ok(None),
    }
}

/// An import: its season file, the airport of its two files, and the season file's text.
#[derive(Drop)]
pub(crate) struct ImportFiles<'a> {
    name: &'a str,
    airport: Airport,
    text: Vec<u8>,
}

/// The files of an import that was tried, read once more. `None` if they can't be read now.
pub(crate) fn import_files<'a, R: Eprint + Files + AllocGlobal>(
    rt: &R,
    words: &'a [Word],
) -> Option<ImportFiles<'a>> {
    let [first, airport, types, season] = words else {
        return None;
    };
    if first.text() != "import" {
        return None;
    }
    let alloc: Global = rt.alloc();
    let mut shelf = FileShelf::new(rt);
    let Ok(files) = airport_of(alloc, airport.text(), types.text(), &mut shelf) else {
        return None;
    };
    let Ok(text) = shelf.read_file(alloc, season.text(), MAX_SEASON) else {
        return None;
    };
    let AirportFiles { airport, .. } = files;
    Some(ImportFiles {
        name: season.text(),
        airport,
        text,
    })
}

impl ImportFiles<'_> {
    /// Says which dates the season file was read as.
    pub(crate) fn tell_dates<R: Eprint + AllocGlobal>(&self, rt: &R) {
        if let Ok(Some(dates)) = dates_of_season(rt.alloc(), &self.airport, self.text.as_slice()) {
            let name = self.name;
            let _ = eprintln!(rt; "apron: {name}: read as {dates}");
        }
    }

    /// Says what is wrong with the form of this record, and whether anything is.
    pub(crate) fn tell_form<R: Eprint + AllocGlobal>(&self, rt: &R, record: u64) -> bool {
        let told = season_fault(
            rt.alloc(),
            &self.airport,
            self.name,
            self.text.as_slice(),
            record,
        );
        let is_wrong = matches!(told, Ok(Some(_)));
        tell(rt, told);
        is_wrong
    }

    /// Says with what the visit of this record is in the plan whose season file this is.
    pub(crate) fn tell_there<R: Eprint + AllocGlobal>(&self, rt: &R, record: u64, kept: &[u8]) {
        let told = season_row_there(rt.alloc(), self.name, self.text.as_slice(), record, kept);
        tell(rt, told);
    }
}
