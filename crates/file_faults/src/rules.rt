// What the values of an airport file have to be, by their keys.

use crate::complaint::Wanted;
use apron_base::{MAX_DIGITS, number_of};
use std::fmt;

/// A key of an airport file, with what its value has to be. The row of an array of tables is counted
/// from 1, and is 0 for other tables; the word is empty for a whole table or array.
#[derive(Clone, Copy)]
pub(crate) struct Rule {
    pub(crate) section: &'static str,
    pub(crate) row: u64,
    pub(crate) word: &'static str,
    pub(crate) wanted: Wanted,
}

impl fmt::Display for Rule {
    fn fmt<W: fmt::Write>(&self, f: &mut fmt::Formatter<W>) -> fmt::Result {
        let Rule {
            section,
            row,
            word,
            ..
        } = *self;
        f.write_str(section)?;
        if row > 0 {
            write!(f, " {row}")?;
        }
        if word.is_empty() {
            Ok(())
        } else {
            write!(f, ".{word}")
        }
    }
}

// The table and the key, and what the value has to be. The key of a whole table is empty.
type Form = (&'static str, &'static str, &'static str);

const RULES: [Form; 21] = [
    ("airport", "", "a table"),
    ("airport", "station", "three capitals in quotes"),
    (
        "airport",
        "first_day",
        "a date in quotes as \"2026-03-27\", of the years 2000 to 2099",
    ),
    ("airport", "days", "a number of days from 1 to 28"),
    ("airport", "taxi_in", "a number of minutes from 0 to 60"),
    ("airport", "tow", "a number of minutes from 1 to 240"),
    ("frontage", "", "at most 50 tables"),
    ("frontage", "name", NAME),
    (
        "frontage",
        "objects",
        "a list of at most 50 places from 0 to 1000000 cm",
    ),
    ("stand", "", "1 to 400 tables"),
    ("stand", "name", NAME),
    ("stand", "frontage", NAME),
    ("stand", "centre", "a place from 0 to 1000000 cm"),
    ("stand", "letter", LETTER),
    ("stand", "buffer", "a number of minutes from 0 to 240"),
    ("stand", "half_of", NAME),
    ("pair", "", "at most 1000 tables"),
    ("pair", "a", NAME),
    ("pair", "la", LETTER),
    ("pair", "b", NAME),
    ("pair", "lb", LETTER),
];

const NAME: &str = "a name of 1 to 6 capitals or digits in quotes";

const LETTER: &str = "a code letter from A to F in quotes";

/// The rule of a key, by the words of the file; that of the table `airport` if there is no such key.
pub(crate) fn rule_of(section: &str, row: u64, word: &str) -> Rule {
    match form_of(&RULES, section, word) {
        Some((section, word, form)) => Rule {
            section,
            row,
            word,
            wanted: Wanted::Form(form),
        },
        None => Rule {
            section: "airport",
            row: 0,
            word: "",
            wanted: Wanted::Form("a table"),
        },
    }
}

// What is there for a key.
fn form_of(forms: &[Form], section: &str, word: &str) -> Option<Form> {
    for form in forms {
        let (table, key, _) = *form;
        if table == section && key == word {
            return Some(*form);
        }
    }
    None
}

/// The rule of a key that is written as `airport.tow` or `stand 3.letter`.
pub(crate) fn rule_named(key: &[u8]) -> Rule {
    let key = std::str::from_utf8(key).unwrap_or("");
    let (table, word) = key.split_once('.').unwrap_or((key, ""));
    let (section, row) = table.split_once(' ').unwrap_or((table, "0"));
    let row = number_of(row.as_bytes(), MAX_DIGITS).unwrap_or(0);
    rule_of(section, row, word)
}
