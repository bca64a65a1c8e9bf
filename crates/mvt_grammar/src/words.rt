// What the words of an element line mean: elements, faults, and the end of the line or the reading.
ghost use Rattle.std.specs.Prelude.{◌≡◌, ◌≤◌, [], ◌∷◌, length, MatchOption};
ghost use Rattle.mvt_grammar.specs.Words.{begins_element, element_of, estimate_time, marks_of_words};
ghost use Rattle.mvt_grammar.specs.Spans.{left_words};

use crate::Clock;
use crate::bytes::{is_station, third_is_capital};
use crate::clocks::{clock_of, times_of};
use crate::pieces::Span;
use apron_base::Name;

// An element of a message.
#[derive(Clone, Copy)]
pub(crate) enum Element {
    Ad((Clock, Option<Clock>)),
    Aa((Clock, Option<Clock>)),
    Ea(Clock, Name),
    Ed(Clock),
}

// What words mean, at the place of the first byte of each.
#[derive(Clone, Copy)]
pub(crate) enum Mark {
    Found(u32, Element),
    Bad(u32),
    End,
}

// One of the four pairs, with no capital after it.
pub(crate) fn begins_element(text: &[u8]) -> bool
    ensures is { result ≡ begins_element text.now }
{
    let pair = text.starts_with(b"AD")
        || text.starts_with(b"AA")
        || text.starts_with(b"EA")
        || text.starts_with(b"ED");
    pair && !third_is_capital(text)
}

// The time of an estimate of arrival.
fn estimate_time(word: &[u8]) -> Option<Clock>
    ensures value { result ≡ estimate_time word.now }
{
    if word.starts_with(b"EA") {
        clock_of(&word[2..])
    } else {
        None
    }
}

// An element of one word. The word begins as an element.
fn element_of(word: &[u8]) -> Option<Element>
    requires some { 2 ≤ length word.now }
    ensures value { result ≡ element_of word.now }
{
    let times = &word[2..];
    if word.starts_with(b"AD") {
        Some(Element::Ad(times_of(times)?))
    } else if word.starts_with(b"AA") {
        Some(Element::Aa(times_of(times)?))
    } else if word.starts_with(b"ED") {
        Some(Element::Ed(clock_of(times)?))
    } else {
        None
    }
}

// The next mark of what is left of a line, and what is left after it.
pub(crate) fn next_mark(line: Option<Span<'_>>) -> Option<(Mark, Option<Span<'_>>)>
    ensures value { MatchOption result (marks_of_words (left_words line.entry) ≡ [])
        (λ found. marks_of_words (left_words line.entry)
        ≡ found.0 ∷ marks_of_words (left_words found.1)) }
{
    let (word, left) = Span::word(line)?;
    if let Some(clock) = estimate_time(word.text) {
        let (next, left) = Span::word(left)?;
        if !is_station(next.text) {
            return None;
        }
        let station = Name::new(next.text)?;
        return Some((Mark::Found(word.at, Element::Ea(clock, station)), left));
    }
    if word.text.starts_with(b"SI") {
        return Some((Mark::End, None));
    }
    if !begins_element(word.text) {
        return None;
    }
    let mark = match element_of(word.text) {
        Some(element) => Mark::Found(word.at, element),
        None => Mark::Bad(word.at),
    };
    Some((mark, left))
}
