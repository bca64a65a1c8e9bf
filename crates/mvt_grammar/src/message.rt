// The parts of a movement message, and the faults of a text that is not one.
use apron_base::Name;

/// A flight. This form is this project's own.
#[derive(Clone, Copy, Debug, PartialEq, Eq)]
pub struct Flight {
    /// Three capitals, or two capitals or digits of which at least one is a capital.
    pub airline: Name,
    /// 0 to 9999.
    pub number: u16,
    /// A capital.
    pub suffix: Option<u8>,
}

/// A time of an element.
#[derive(Clone, Copy, Debug, PartialEq, Eq)]
pub struct Clock {
    /// The day of a month, 1 to 31, if the text gives it.
    pub day: Option<u8>,
    /// The minute of the day, 0 to 1439.
    pub minute: u16,
}

/// A movement message. Its elements are those of IATA AHM 780; which forms of them are accepted is
/// this project's own choice.
#[derive(Clone, Copy, Debug, PartialEq, Eq)]
pub struct Mvt {
    pub flight: Flight,
    /// The day of the month of the flight, 1 to 31.
    pub day: u8,
    /// 1 to 10 bytes.
    pub registration: Name,
    /// Three capitals: the airport that the message is from.
    pub station: Name,
    /// Actual departure: off block, and take-off if it is given.
    pub ad: Option<(Clock, Option<Clock>)>,
    /// Actual arrival: touchdown, and on block if it is given.
    pub aa: Option<(Clock, Option<Clock>)>,
    /// Estimated arrival, and the airport (three capitals) that it is for.
    pub ea: Option<(Clock, Name)>,
    /// Estimated departure.
    pub ed: Option<Clock>,
}

/// Why a text is not a movement message: its first fault from left to right. A place counts bytes
/// from 0.
#[derive(Clone, Copy, Debug, PartialEq, Eq)]
pub enum MvtFault {
    /// More than 4,000 bytes.
    TooLong,
    /// None of the first 21 lines is `MVT`.
    NoIdentifier,
    /// No line is left for the flight, or it has another form.
    BadFlightLine,
    /// The word at this place begins as an element, but has another form.
    BadElement(u32),
    /// The element at this place was read before.
    Twice(u32),
}
