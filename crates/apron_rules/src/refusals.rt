// Why an airport is refused.
use apron_base::Name;

/// Why parts are no airport: the first of these in their order.
#[derive(Clone, Copy, Debug, PartialEq, Eq)]
pub enum AirportFault {
    /// The first frontage, stand or type that has the name of an earlier one of its kind.
    DuplicateName(Name),
    /// The first frontage or stand that a stand or a pair restriction names and that doesn't exist.
    UnknownName(Name),
    /// The first stand that is a half, but of a stand that is a half itself, is on another
    /// frontage, or has more than two halves.
    BadHalf(Name),
    /// The first limit that is exceeded.
    LimitPassed(Limit),
    /// The first type whose span has no code letter.
    BadSpan(Name),
    /// The first type whose span with folded wing tips is 0 or greater than its wing span, or whose
    /// wing tips are unfolded for more than 60 minutes.
    BadFold(Name),
    /// Memory has run out.
    Memory,
}

/// The limits of an airport, in the order in which they are tested.
#[derive(Clone, Copy, Debug, PartialEq, Eq)]
pub enum Limit {
    /// 1 to 28 days.
    Days,
    /// 0 to 60 minutes from touchdown to on block.
    TaxiIn,
    /// 1 to 240 minutes of a tow.
    Tow,
    /// 50 frontages.
    Frontages,
    /// 50 objects on a frontage, each at 0 to 1,000,000 cm.
    Objects,
    /// 1 to 400 stands.
    Stands,
    /// A centreline at 0 to 1,000,000 cm.
    Centre,
    /// A buffer of 0 to 240 minutes.
    Buffer,
    /// 1,000 pair restrictions.
    Pairs,
    /// 1 to 400 types.
    Types,
    /// 1 to 600 least minutes.
    Least,
}
