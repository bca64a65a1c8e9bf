// Reading a movement message in one pass over its text.
ghost use Rattle.std.specs.Prelude.{◌≡◌, [], ◌∷◌, Some, None, Ok, Err, IfOk, MatchOption, MatchResult, if◌then◌else◌};
ghost use Rattle.mvt_grammar.specs.Bytes.{is_station};
ghost use Rattle.mvt_grammar.specs.Left.{left_marks};
ghost use Rattle.mvt_grammar.specs.Reading.{is_registration, heading_of, after_identifier, after_heading, has_element, with_element, with_marks, read_mvt_of};
ghost use Rattle.mvt_grammar.specs.Readable.{IsReadable};
ghost use Rattle.mvt_grammar.specs.Spans.{rest_lines};

use crate::bytes::{is_station, split_once};
use crate::clocks::read_day;
use crate::pieces::Span;
use crate::words::{Element, Mark, begins_element, next_mark};
use crate::{Mvt, MvtFault, read_flight};
use apron_base::Name;

// The most bytes that a text may have.
const LONGEST: usize = 4000;

// How many lines the line `MVT` is looked for in.
const IDENTIFIER_LINES: u32 = 21;

// What is left to read: words of a line, and the lines after it.
#[derive(Clone, Copy)]
pub(crate) struct RestOfText<'a> {
    words: Option<Span<'a>>,
    lines: Option<Span<'a>>,
}

// The next mark, and what is left after it.
fn next_of<'a>(start: RestOfText<'a>) -> Option<(Mark, RestOfText<'a>)>
    ensures value { MatchOption result (left_marks start.entry ≡ [])
        (λ found. left_marks start.entry ≡ found.0 ∷ left_marks found.1) }
{
    let mut left = start;
    loop {
        if let Some((mark, words)) = next_mark(left.words) {
            let lines = left.lines;
            return Some((mark, RestOfText { words, lines }));
        }
        let text = left.lines?;
        let (line, lines) = text.line();
        if line.text.starts_with(b"SI") {
            return Some((Mark::End, RestOfText { words: None, lines }));
        }
        let words = begins_element(line.text).then_some(line);
        left = RestOfText { words, lines };
    }
}

// The message with one more element, if it does not have that element yet.
fn with_element(message: Mvt, at: u32, element: Element) -> Result<Mvt, MvtFault>
    ensures value { result
        ≡ if has_element message element then Err (MvtFault.Twice at)
        else Ok (with_element message element) }
{
    let mut message = message;
    let had = match element {
        Element::Ad(times) => message.ad.replace(times).is_some(),
        Element::Aa(times) => message.aa.replace(times).is_some(),
        Element::Ea(clock, station) => message.ea.replace((clock, station)).is_some(),
        Element::Ed(clock) => message.ed.replace(clock).is_some(),
    };
    if had {
        Err(MvtFault::Twice(at))
    } else {
        Ok(message)
    }
}

// The message with the elements of what is left to read.
fn with_elements(heading: Mvt, start: RestOfText<'_>) -> Result<Mvt, MvtFault>
    ensures value { result ≡ with_marks heading (left_marks start.entry) }
{
    let mut message = heading;
    let mut left = start;
    while let Some((mark, rest)) = next_of(left) {
        match mark {
            Mark::Found(at, element) => message = with_element(message, at, element)?,
            Mark::Bad(at) => return Err(MvtFault::BadElement(at)),
            Mark::End => return Ok(message),
        }
        left = rest;
    }
    Ok(message)
}

// A registration: a name of at most 10 bytes.
fn registration_of(text: &[u8]) -> Option<Name>
    ensures value { result ≡ if is_registration text.now then Some text.now else None }
{
    if text.len() <= 10 {
        Name::new(text)
    } else {
        None
    }
}

fn station_of(text: &[u8]) -> Option<Name>
    ensures value { result ≡ if is_station text.now then Some text.now else None }
{
    if is_station(text) {
        Name::new(text)
    } else {
        None
    }
}

// The message without elements that a flight line gives.
fn heading_of(line: &[u8]) -> Option<Mvt>
    ensures value { result ≡ heading_of line.now }
{
    let (flight, rest) = split_once(line, b'/')?;
    let (day, rest) = split_once(rest, b'.')?;
    let (registration, station) = split_once(rest, b'.')?;
    let flight = read_flight(flight)?;
    let day = read_day(day)?;
    let registration = registration_of(registration)?;
    let station = station_of(station)?;
    Some(Mvt {
        flight,
        day,
        registration,
        station,
        ad: None,
        aa: None,
        ea: None,
        ed: None,
    })
}

// The lines after the line `MVT`.
fn after_identifier(text: Span<'_>) -> Result<Option<Span<'_>>, MvtFault>
    ensures value { MatchResult result
        (λ left. after_identifier 21 (rest_lines (Some text.entry)) ≡ Ok (rest_lines left))
        (λ fault. after_identifier 21 (rest_lines (Some text.entry)) ≡ Err fault) }
{
    let mut left = Some(text);
    for _looked_at in 0..IDENTIFIER_LINES {
        let Some(lines) = left else {
            return Err(MvtFault::NoIdentifier);
        };
        let (line, rest) = lines.line();
        if line.text == b"MVT".as_slice() {
            return Ok(rest);
        }
        left = rest;
    }
    Err(MvtFault::NoIdentifier)
}

// The message without elements, and the lines after the flight line.
fn after_heading(lines: Option<Span<'_>>) -> Result<(Mvt, Option<Span<'_>>), MvtFault>
    ensures value { MatchResult result
        (λ found. after_heading (rest_lines lines.entry) ≡ Ok (found.0, rest_lines found.1))
        (λ fault. after_heading (rest_lines lines.entry) ≡ Err fault) }
{
    let mut left = lines;
    while let Some(text) = left {
        let (line, rest) = text.line();
        if !line.text.is_empty() {
            return match heading_of(line.text) {
                Some(message) => Ok((message, rest)),
                None => Err(MvtFault::BadFlightLine),
            };
        }
        left = rest;
    }
    Err(MvtFault::BadFlightLine)
}

/// The message that a text is read as, or its first fault from left to right, by this project's own
/// rules for the elements of IATA AHM 780.
///
/// A line ends before LF; a CR at its end, and then all spaces there, do not belong to it. At most
/// 20 lines are passed over before the line `MVT`. The next line that is not empty is
/// `FLIGHT/DD.REGISTRATION.STATION`. Of the lines after it, those that begin with AD, AA, EA or ED
/// and then no capital are read word by word; others are passed over. The first line or word that
/// begins with SI ends the reading. A word that does not begin as an element ends its line, and so
/// does an estimate of arrival without its station of three capitals right after it. A time is HHMM
/// or DDHHMM.
///
/// It takes no memory, and goes over the text once.
pub fn read_mvt(text: &[u8]) -> Result<Mvt, MvtFault>
    ensures read { result ≡ read_mvt_of text.now }
    ensures readable { IfOk result IsReadable }
{
    if text.len() > LONGEST {
        return Err(MvtFault::TooLong);
    }
    let lines = after_identifier(Span { at: 0, text })?;
    match after_heading(lines) {
        Ok((heading, lines)) => with_elements(heading, RestOfText { words: None, lines }),
        Err(fault) => Err(fault),
    }
}
