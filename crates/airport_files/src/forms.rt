// The forms of values in an airport file.
ghost use Rattle.std.specs.Prelude.{◌≡◌, ◌≤◌, IfOk, IfSome, IsTrue, option_map};
ghost use Rattle.std.specs.Char.{is_ascii_uppercase};
ghost use Rattle.std.specs.List.{list_all};
ghost use Rattle.toml.specs.Data.{get_member};
ghost use Rattle.toml.specs.View.{view, table_view};
ghost use Rattle.apron_dates.specs.Dates.{IsFirstDay};
ghost use Rattle.apron_rules.specs.Names.{is_station};
ghost use Rattle.airport_files.specs.Forms.{toml_number, station_of, text_if, is_short_byte, is_short_name, name_of, date_of, letter_of_byte, letter_named, letter_of};
ghost use Rattle.airport_files.specs.Walk.{at_key, if_there};

use crate::keys::{FileKey, WalkFault};
use apron_base::{Letter, Name};
use apron_dates::{Date, date_in};
use toml::{Table, Value};

/// The most bytes of the name of a frontage or a stand.
pub(crate) const MAX_NAME: usize = 6;

/// The fewest bytes of the name of a type.
pub(crate) const MIN_TYPE_NAME: usize = 2;

/// The most bytes of the name of a type.
pub(crate) const MAX_TYPE_NAME: usize = 4;

/// What a table holds at a key.
pub(crate) fn find<'a>(table: &'a Table, word: &str) -> Option<&'a Value>
    ensures value { option_map (λ v. view v.now) result
        ≡ get_member word.now (table_view table.now) }
{
    table.get(word)
}

/// The number at a key: a whole number from 0 to 4294967295.
pub(crate) fn number_at(table: &Table, word: &str, at: FileKey) -> Result<u32, WalkFault>
    ensures value { result ≡ at_key toml_number at (get_member word.now (table_view table.now)) }
{
    match find(table, word) {
        None => Err(WalkFault::Missing(at)),
        Some(value) => number(value).ok_or(WalkFault::Wrong(at)),
    }
}

/// The number that a value is.
pub(crate) fn number(value: &Value) -> Option<u32>
    ensures value { result ≡ toml_number (view value.now) }
{
    match value.as_integer() {
        Some(n) if n >= 0 && n <= u32::MAX as i64 => Some(n as u32),
        _ => None,
    }
}

/// The station at a key: three capitals.
pub(crate) fn station_at(table: &Table, word: &str, at: FileKey) -> Result<Name, WalkFault>
    ensures value { result ≡ at_key station_of at (get_member word.now (table_view table.now)) }
    ensures station { IfOk result (λ name. IsTrue (is_station name)) }
{
    match find(table, word) {
        None => Err(WalkFault::Missing(at)),
        Some(value) => station(value).ok_or(WalkFault::Wrong(at)),
    }
}

fn station(value: &Value) -> Option<Name>
    ensures value { result ≡ station_of (view value.now) }
    ensures station { IfSome result (λ name. IsTrue (is_station name)) }
{
    match value.as_str() {
        Some(text) => station_name(text.as_bytes()),
        None => None,
    }
}

fn station_name(text: &[u8]) -> Option<Name>
    ensures value { result ≡ text_if is_station text.now }
    ensures station { IfSome result (λ name. IsTrue (is_station name)) }
{
    if is_station(text) {
        Name::new(text)
    } else {
        None
    }
}

fn is_station(text: &[u8]) -> bool
    ensures is { result ≡ is_station text.now }
{
    text.len() == 3 && are_capitals(text)
}

fn are_capitals(text: &[u8]) -> bool
    ensures is { result ≡ list_all is_ascii_uppercase text.now }
{
    text.iter().all(|b| *b >= b'A' && *b <= b'Z')
}

/// The date at a key: YYYY-MM-DD, of the years 2000 to 2099.
pub(crate) fn date_at(table: &Table, word: &str, at: FileKey) -> Result<Date, WalkFault>
    ensures value { result ≡ at_key date_of at (get_member word.now (table_view table.now)) }
    ensures first { IfOk result IsFirstDay }
{
    match find(table, word) {
        None => Err(WalkFault::Missing(at)),
        Some(value) => date(value).ok_or(WalkFault::Wrong(at)),
    }
}

fn date(value: &Value) -> Option<Date>
    ensures value { result ≡ date_of (view value.now) }
    ensures first { IfSome result IsFirstDay }
{
    match value.as_str() {
        Some(text) => date_in(text.as_bytes()),
        None => None,
    }
}

/// The name at a key: 1 to 6 capitals or digits.
pub(crate) fn name_at(table: &Table, word: &str, at: FileKey) -> Result<Name, WalkFault>
    ensures value { result ≡ at_key name_of at (get_member word.now (table_view table.now)) }
{
    match find(table, word) {
        None => Err(WalkFault::Missing(at)),
        Some(value) => name(value).ok_or(WalkFault::Wrong(at)),
    }
}

/// The name at a key that may be missing.
pub(crate) fn name_if_there(
    table: &Table,
    word: &str,
    at: FileKey,
) -> Result<Option<Name>, WalkFault>
    ensures value { result ≡ if_there name_of at (get_member word.now (table_view table.now)) }
{
    match find(table, word) {
        None => Ok(None),
        Some(value) => match name(value) {
            Some(name) => Ok(Some(name)),
            None => Err(WalkFault::Wrong(at)),
        },
    }
}

fn name(value: &Value) -> Option<Name>
    ensures value { result ≡ name_of (view value.now) }
{
    match value.as_str() {
        Some(text) => short_name(text.as_bytes(), 1, MAX_NAME),
        None => None,
    }
}

/// The name of a text of at least `least` and at most `most` capitals or digits.
pub(crate) fn short_name(text: &[u8], least: usize, most: usize) -> Option<Name>
    requires least { 1 ≤ least }
    requires most { most ≤ 12 }
    ensures value { result ≡ text_if (is_short_name least most) text.now }
{
    if is_short_name(text, least, most) {
        Name::new(text)
    } else {
        None
    }
}

fn is_short_name(text: &[u8], least: usize, most: usize) -> bool
    ensures is { result ≡ is_short_name least most text.now }
{
    least <= text.len() && text.len() <= most && are_short_bytes(text)
}

fn are_short_bytes(text: &[u8]) -> bool
    ensures is { result ≡ list_all is_short_byte text.now }
{
    text.iter().all(|b| is_short_byte(*b))
}

fn is_short_byte(b: u8) -> bool
    ensures is { result ≡ is_short_byte b }
{
    (b >= b'A' && b <= b'Z') || (b >= b'0' && b <= b'9')
}

/// The code letter at a key: one of A to F.
pub(crate) fn letter_at(table: &Table, word: &str, at: FileKey) -> Result<Letter, WalkFault>
    ensures value { result ≡ at_key letter_of at (get_member word.now (table_view table.now)) }
{
    match find(table, word) {
        None => Err(WalkFault::Missing(at)),
        Some(value) => letter(value).ok_or(WalkFault::Wrong(at)),
    }
}

fn letter(value: &Value) -> Option<Letter>
    ensures value { result ≡ letter_of (view value.now) }
{
    match value.as_str() {
        Some(text) => letter_named(text.as_bytes()),
        None => None,
    }
}

fn letter_named(text: &[u8]) -> Option<Letter>
    ensures value { result ≡ letter_named text.now }
{
    if text.len() == 1 {
        letter_of_byte(text[0])
    } else {
        None
    }
}

fn letter_of_byte(b: u8) -> Option<Letter>
    ensures value { result ≡ letter_of_byte b }
{
    match b {
        b'A' => Some(Letter::A),
        b'B' => Some(Letter::B),
        b'C' => Some(Letter::C),
        b'D' => Some(Letter::D),
        b'E' => Some(Letter::E),
        b'F' => Some(Letter::F),
        _ => None,
    }
}
