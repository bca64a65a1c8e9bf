// What is wrong in an airport file.

use crate::complaint::{Complaint, FileLine, Wrong};
use crate::documents::{row_of_objects, row_over, row_with, rows_of};
use crate::key_lines::{KeyLine, key_line_of, line_at};
use crate::rules::{Rule, rule_named, rule_of};
use airport_files::FileFault;
use apron_base::{Memory, Name};
use apron_rules::{AirportFault, Limit, MAX_BUFFER, MAX_OBJECTS, MAX_PLACE};
use std::alloc::Global;
use toml::Table;

/// What is wrong in the airport file of this name and text, which has this fault. `None` if the
/// fault is not in it.
pub fn airport_fault(
    alloc: Global,
    file: &str,
    text: &[u8],
    fault: &FileFault,
) -> Result<Complaint, Memory> {
    match fault {
        FileFault::NotToml => not_toml(alloc, file, text),
        FileFault::MissingKey(key) => missing(alloc, file, text, rule_named(key.as_slice())),
        FileFault::WrongKind(key) => wrong(alloc, file, text, rule_named(key.as_slice())),
        FileFault::Airport(fault) => of_airport(alloc, file, text, fault),
        FileFault::BadRow(_) | FileFault::Memory => Ok(None),
    }
}

// Where the text is not TOML, and why.
fn not_toml(alloc: Global, file: &str, text: &[u8]) -> Result<Complaint, Memory> {
    match std::str::from_utf8(text) {
        Ok(text) => match toml::table_from_str(alloc, text) {
            Ok(_) => Ok(None),
            Err(why) => {
                let start = why.span().map_or(0, |span| span.start);
                let line = line_at(text.as_bytes(), start);
                let message = why.message();
                Ok(Some(format!(in alloc; "{file}:{line}: not TOML: {message}")?))
            }
        },
        Err(why) => {
            let line = line_at(text, why.valid_up_to());
            Ok(Some(format!(in alloc; "{file}:{line}: not UTF-8")?))
        }
    }
}

fn missing(alloc: Global, file: &str, text: &[u8], rule: Rule) -> Result<Complaint, Memory> {
    let line = key_line_of(text, &rule).line;
    told(alloc, file, line, rule, Wrong::Missing(rule.wanted))
}

fn wrong(alloc: Global, file: &str, text: &[u8], rule: Rule) -> Result<Complaint, Memory> {
    let KeyLine { line, value } = key_line_of(text, &rule);
    let wrong = match value {
        Some(value) => Wrong::Value(value, rule.wanted),
        None => Wrong::Unshown(rule.wanted),
    };
    told(alloc, file, line, rule, wrong)
}

// What is said of the value of a key, if the key was found.
fn says(
    alloc: Global,
    file: &str,
    text: &[u8],
    found: Option<Rule>,
    what: &'static str,
) -> Result<Complaint, Memory> {
    let Some(rule) = found else {
        return Ok(None);
    };
    let KeyLine { line, value } = key_line_of(text, &rule);
    let wrong = Wrong::Says(value.unwrap_or(b""), what);
    told(alloc, file, line, rule, wrong)
}

fn told(
    alloc: Global,
    file: &str,
    line: u64,
    rule: Rule,
    wrong: Wrong<'_>,
) -> Result<Complaint, Memory> {
    let at = FileLine { file, line };
    Ok(Some(format!(in alloc; "{at}: {rule}: {wrong}")?))
}

// What is wrong in the airport that the file makes with its types.
fn of_airport(
    alloc: Global,
    file: &str,
    text: &[u8],
    fault: &AirportFault,
) -> Result<Complaint, Memory> {
    let Ok(document) = toml::table_from_slice(alloc, text) else {
        return Ok(None);
    };
    match fault {
        AirportFault::DuplicateName(name) => {
            says(alloc, file, text, repeated(&document, name), REPEATED)
        }
        AirportFault::UnknownName(name) => {
            says(alloc, file, text, unknown(&document, name), UNKNOWN)
        }
        AirportFault::BadHalf(name) => says(alloc, file, text, half(&document, name), BAD_HALF),
        AirportFault::LimitPassed(limit) => passed(alloc, file, text, &document, *limit),
        AirportFault::BadSpan(_) | AirportFault::BadFold(_) | AirportFault::Memory => Ok(None),
    }
}

// The key whose value passes a limit, or the array with too many tables in it, or none.
fn passed(
    alloc: Global,
    file: &str,
    text: &[u8],
    document: &Table,
    limit: Limit,
) -> Result<Complaint, Memory> {
    let Some(rule) = over(document, limit) else {
        return Ok(None);
    };
    if rule.word.is_empty() {
        counted(alloc, file, document, rule)
    } else {
        wrong(alloc, file, text, rule)
    }
}

const REPEATED: &str = "is the name of an earlier one";

const UNKNOWN: &str = "is not the name of one in this file";

const BAD_HALF: &str =
    "can't have this half: it is a half itself, is on another frontage, or has two halves already";

// An array with more tables, or fewer, than may be.
fn counted(alloc: Global, file: &str, document: &Table, rule: Rule) -> Result<Complaint, Memory> {
    let count = rows_of(document, rule.section).len();
    let wrong = Wrong::Count(count, rule.wanted);
    Ok(Some(format!(in alloc; "{file}: {rule}: {wrong}")?))
}

// The name of a frontage or a stand that an earlier one has.
fn repeated(document: &Table, name: &Name) -> Option<Rule> {
    for section in ["frontage", "stand"] {
        if let Some(row) = row_with(rows_of(document, section), "name", name.text(), 1) {
            return Some(rule_of(section, row, "name"));
        }
    }
    None
}

// The key that has a name which no frontage, or no stand, has.
fn unknown(document: &Table, name: &Name) -> Option<Rule> {
    for key in NAMING {
        if !is_name(document, key.2, name) {
            let row = row_with(rows_of(document, key.0), key.1, name.text(), 0);
            if let Some(row) = row {
                return Some(rule_of(key.0, row, key.1));
            }
        }
    }
    None
}

// The keys that name a frontage or a stand: the array, the key, and the array that is named.
const NAMING: [(&str, &str, &str); 4] = [
    ("stand", "frontage", "frontage"),
    ("stand", "half_of", "stand"),
    ("pair", "a", "stand"),
    ("pair", "b", "stand"),
];

// Whether a frontage or a stand has this name.
fn is_name(document: &Table, section: &str, name: &Name) -> bool {
    row_with(rows_of(document, section), "name", name.text(), 0).is_some()
}

// The key by which the stand of this name is a half.
fn half(document: &Table, name: &Name) -> Option<Rule> {
    let row = row_with(rows_of(document, "stand"), "name", name.text(), 0)?;
    Some(rule_of("stand", row, "half_of"))
}

// The key whose value passes a limit; an array if there are too many tables in it, or none.
fn over(document: &Table, limit: Limit) -> Option<Rule> {
    let stands = rows_of(document, "stand");
    match limit {
        Limit::Days => Some(rule_of("airport", 0, "days")),
        Limit::TaxiIn => Some(rule_of("airport", 0, "taxi_in")),
        Limit::Tow => Some(rule_of("airport", 0, "tow")),
        Limit::Frontages => Some(rule_of("frontage", 0, "")),
        Limit::Stands => Some(rule_of("stand", 0, "")),
        Limit::Pairs => Some(rule_of("pair", 0, "")),
        Limit::Objects => {
            let rows = rows_of(document, "frontage");
            let row = row_of_objects(rows, MAX_OBJECTS, i64::from(MAX_PLACE))?;
            Some(rule_of("frontage", row, "objects"))
        }
        Limit::Centre => {
            let row = row_over(stands, "centre", i64::from(MAX_PLACE))?;
            Some(rule_of("stand", row, "centre"))
        }
        Limit::Buffer => {
            let row = row_over(stands, "buffer", i64::from(MAX_BUFFER))?;
            Some(rule_of("stand", row, "buffer"))
        }
        Limit::Types | Limit::Least => None,
    }
}
