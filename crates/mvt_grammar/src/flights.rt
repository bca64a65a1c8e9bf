// The text of a flight: its airline, its number and its suffix.
ghost use Rattle.std.specs.Prelude.{◌≡◌, Some, None, IfSome, if◌then◌else◌};
ghost use Rattle.mvt_grammar.specs.Flights.{is_airline_byte, is_airline, airline_len, is_number, flight_with, flight_after, flight_of};
ghost use Rattle.std.specs.Str.Parse.{digits_value};
ghost use Rattle.mvt_grammar.specs.Bytes.{is_capital, is_digit};
ghost use Rattle.mvt_grammar.specs.Readable.{IsFlight};
ghost use Rattle.std.specs.List.{list_all, list_any};

use crate::Flight;
use crate::bytes::{are_capitals, is_capital, is_digit, third_is_capital};
use apron_base::{Name, number_of};

/// The most digits of the number of a flight.
pub(crate) const MAX_FLIGHT_DIGITS: usize = 4;

fn are_letters_or_digits(text: &[u8]) -> bool
    ensures is { result ≡ list_all is_airline_byte text.now }
{
    text.iter().all(|byte| is_capital(*byte) || is_digit(*byte))
}

fn has_capital(text: &[u8]) -> bool
    ensures is { result ≡ list_any is_capital text.now }
{
    text.iter().any(|byte| is_capital(*byte))
}

// Three capitals; or two capitals or digits, at least one of them a capital.
pub(crate) fn is_airline(text: &[u8]) -> bool
    ensures is { result ≡ is_airline text.now }
{
    match text.len() {
        3 => are_capitals(text),
        2 => are_letters_or_digits(text) && has_capital(text),
        _ => false,
    }
}

// The number that one to four digits write; `None` for other texts.
#[tactic(auto, unfolding(apron_base::specs::Digits::number_of))]
fn flight_number(text: &[u8]) -> Option<u16>
    ensures value { result ≡ if is_number text.now then Some (digits_value 10 text.now) else None }
{
    match number_of(text, MAX_FLIGHT_DIGITS) {
        Some(number) => Some(number as u16),
        None => None,
    }
}

fn flight_with(airline: &[u8], number: &[u8], suffix: Option<u8>) -> Option<Flight>
    ensures value { result ≡ flight_with airline.now number.now suffix }
{
    if is_airline(airline) {
        Some(Flight {
            airline: Name::new(airline)?,
            number: flight_number(number)?,
            suffix,
        })
    } else {
        None
    }
}

fn flight_after(airline: &[u8], text: &[u8]) -> Option<Flight>
    ensures value { result ≡ flight_after airline.now text.now }
{
    match text.split_last() {
        Some((last, front)) if is_capital(*last) => flight_with(airline, front, Some(*last)),
        _ => flight_with(airline, text, None),
    }
}

fn airline_len(text: &[u8]) -> usize
    ensures value { result ≡ airline_len text.now }
{
    if third_is_capital(text) { 3 } else { 2 }
}

/// The flight that the whole text writes. If the third byte is a capital, the first three bytes
/// must be capitals and are the airline; otherwise the first two must be capitals or digits, at
/// least one of them a capital, and are the airline. Then one to four digits follow, and at most
/// one capital. `None` for any other text. It takes no memory.
pub fn read_flight(text: &[u8]) -> Option<Flight>
    ensures read { result ≡ flight_of text.now }
    ensures form { IfSome result IsFlight }
{
    let len = airline_len(text);
    if text.len() < len {
        return None;
    }
    flight_after(&text[..len], &text[len..])
}
