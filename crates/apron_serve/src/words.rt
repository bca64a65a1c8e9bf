// What the words of the command line ask for.
#![tactic(auto, unfolding(crate::specs::Orders::order_of_words))]

ghost use Rattle.std.specs.Prelude.{◌≡◌, ◌<◌, ◌≤◌, ℕ, true, IfSome, [], ◌∷◌, is_some};
ghost use Rattle.std.specs.Option.{option_copied, option_map};
ghost use Rattle.apron_rules.specs.declared.parts.AirportParts.{AirportParts};
ghost use Rattle.apron_run.specs.Words.{is_number, value_of};
ghost use Rattle.apron_serve.specs.Orders.{most_connections, most_listeners, most_screens, day_shown, may_have, order_of, order_of_words};
ghost use Rattle.apron_serve.specs.OrdersShown.{order_shown};

use apron_base::Word;
use apron_run::{is_plain_number, number_within, plain_number};

/// The most connections that each listener takes.
pub const MAX_CONNECTIONS: u32 = 1_000_000;

/// The most listeners of desks.
pub const MAX_LISTENERS: usize = 16;

/// The most listeners of screens.
pub const MAX_SCREENS: usize = 8;

/// Each limit of the code is the number that its definition has.
pub fn limits_are_as_defined()
    ensures connections { MAX_CONNECTIONS ≡ most_connections }
    ensures listeners { MAX_LISTENERS ≡ most_listeners }
    ensures screens { MAX_SCREENS ≡ most_screens }
{}

/// Desks at the airport of the airport file and the type file of these names, on its journal, and
/// perhaps screens that show the day that these digits name: this many connections of each
/// listener.
#[derive(Clone, Copy)]
pub(crate) struct Order<'w> {
    pub(crate) airport: &'w Word,
    pub(crate) types: &'w Word,
    pub(crate) connections: u32,
    pub(crate) day: Option<&'w Word>,
}

impl<'w> Order<'w> {
    /// The day that screens show of a plan of this many days, or none if it has no such day.
    /// Without screens it is the first.
    pub(crate) fn shown_day(&self, days: u32) -> Option<u32>
        ensures screens { (screens : ℕ)
            → may_have screens (option_copied self.now.day) ≡ true
            → 0 < screens
            → IfSome result (λ day. (1 ≤ day) × (day ≤ days)) }
        ensures is { (airport : AirportParts)
            → airport.days ≡ days
            → result ≡ day_shown airport (option_copied self.now.day) }
    {
        match self.day {
            Some(digits) => number_within(digits.text().as_bytes(), 1, days),
            None => Some(1),
        }
    }
}

/// What the words order of this many listeners of desks, and this many of screens.
pub(crate) fn order_of(words: &[Word], listeners: usize, screens: usize) -> Option<Order<'_>>
    ensures order { option_map order_shown result ≡ order_of words.now listeners screens }
    ensures few { IfSome result (λ order. (1 ≤ listeners) × (listeners ≤ most_listeners)) }
    ensures screens { IfSome result (λ order. may_have screens (option_copied order.day) ≡ true) }
    ensures some { IfSome result (λ order. 1 ≤ order.connections) }
{
    if listeners < 1 || listeners > MAX_LISTENERS {
        return None;
    }
    match order_of_words(words) {
        Some(order) if may_have(screens, order.day) => Some(order),
        _ => None,
    }
}

// There may be this many screens: none if no day is shown, and otherwise 1 to 8.
fn may_have(screens: usize, day: Option<&Word>) -> bool
    ensures is { result ≡ may_have screens (option_copied day.entry) }
{
    match day {
        Some(_) => 1 <= screens && screens <= MAX_SCREENS,
        None => screens == 0,
    }
}

// A function for each number of words looks at the form of that length.
#[tactic(auto, using(crate::proofs::Forms::counted))]
fn order_of_words(words: &[Word]) -> Option<Order<'_>>
    ensures order { option_map order_shown result ≡ order_of_words words.now }
    ensures some { IfSome result (λ order. 1 ≤ order.connections) }
{
    match words {
        [word, airport, types, number] => order_of_desks(word, airport, types, number),
        [word, airport, types, number, screen, day] => {
            order_with_screens(word, airport, types, number, screen, day)
        }
        _ => None,
    }
}

fn order_of_desks<'w>(
    word: &Word,
    airport: &'w Word,
    types: &'w Word,
    number: &Word,
) -> Option<Order<'w>>
    ensures order { option_map order_shown result
        ≡ order_of_words (word.now ∷ airport.now ∷ types.now ∷ number.now ∷ []) }
    ensures some { IfSome result (λ order. 1 ≤ order.connections) }
{
    if word.text() == "serve" {
        Some(Order {
            airport,
            types,
            connections: connections_of(number)?,
            day: None,
        })
    } else {
        None
    }
}

fn order_with_screens<'w>(
    word: &Word,
    airport: &'w Word,
    types: &'w Word,
    number: &Word,
    screen: &Word,
    day: &'w Word,
) -> Option<Order<'w>>
    ensures order { option_map order_shown result
        ≡ order_of_words
        (word.now ∷ airport.now ∷ types.now ∷ number.now ∷ screen.now ∷ day.now ∷ []) }
    ensures some { IfSome result (λ order. 1 ≤ order.connections) }
{
    if word.text() == "serve" {
        let connections = connections_of(number)?;
        if screen.text() == "screen" && is_plain_number(day.text().as_bytes()) {
            Some(Order {
                airport,
                types,
                connections,
                day: Some(day),
            })
        } else {
            None
        }
    } else {
        None
    }
}

/// How many connections each listener is to take by this word: `None` if it is not a number of 1 to
/// 1,000,000.
pub fn connections_of(number: &Word) -> Option<u32>
    ensures some { is_some result ≡ is_number 1 most_connections number.now }
    ensures value { IfSome result (λ connections. connections ≡ value_of number.now) }
    ensures least { IfSome result (λ connections. 1 ≤ connections) }
{
    plain_number(number.text().as_bytes(), 1, MAX_CONNECTIONS)
}
