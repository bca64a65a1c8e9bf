// The limits of an airport.
ghost use Rattle.std.specs.Prelude.{◌≡◌};
ghost use Rattle.apron_rules.specs.Limits.{greatest_place, most_buffer, most_days, most_fold, most_frontages, most_halves, most_least, most_objects, most_pairs, most_stands, most_taxi_in, most_tow, most_types};

/// The most days of a plan; the least is 1.
pub const MAX_DAYS: u32 = 28;

/// The most minutes from touchdown to on block.
pub const MAX_TAXI_IN: u32 = 60;

/// The most minutes of a tow; the least is 1.
pub const MAX_TOW: u32 = 240;

/// The most frontages.
pub const MAX_FRONTAGES: usize = 50;

/// The most objects on a frontage.
pub const MAX_OBJECTS: usize = 50;

/// The greatest place on a frontage, of an object or a centreline, in centimetres.
pub const MAX_PLACE: u32 = 1_000_000;

/// The most stands; the least is 1.
pub const MAX_STANDS: usize = 400;

/// The most halves of a stand.
pub const MAX_HALVES: u64 = 2;

/// The most minutes for which a stand stays held after a part ends.
pub const MAX_BUFFER: u32 = 240;

/// The most pair restrictions.
pub const MAX_PAIRS: usize = 1_000;

/// The most types; the least is 1.
pub const MAX_TYPES: usize = 400;

/// The most minutes for which wing tips are unfolded at the start and at the end of a part.
pub const MAX_FOLD: u32 = 60;

/// The greatest number that the least minutes of a type can be; the least is 1.
pub const MAX_LEAST: u32 = 600;

/// Each limit in the code is the number in its definition.
pub fn limits_are_as_defined()
    ensures days { MAX_DAYS ≡ most_days }
    ensures taxi_in { MAX_TAXI_IN ≡ most_taxi_in }
    ensures tow { MAX_TOW ≡ most_tow }
    ensures frontages { MAX_FRONTAGES ≡ most_frontages }
    ensures objects { MAX_OBJECTS ≡ most_objects }
    ensures place { MAX_PLACE ≡ greatest_place }
    ensures stands { MAX_STANDS ≡ most_stands }
    ensures halves { MAX_HALVES ≡ most_halves }
    ensures buffer { MAX_BUFFER ≡ most_buffer }
    ensures pairs { MAX_PAIRS ≡ most_pairs }
    ensures types { MAX_TYPES ≡ most_types }
    ensures fold { MAX_FOLD ≡ most_fold }
    ensures least { MAX_LEAST ≡ most_least }
{}
