// The rules of all pairs of stands, with all pairs of types on them.
ghost use Rattle.std.specs.Prelude.{◌<◌, length};

use apron_base::{StandNo, TypeNo};
use apron_rules::{Airport, Wing};

/// How many pairs there are, and how many of them exclude each other.
#[derive(Clone, Copy, Debug)]
pub(crate) struct Count {
    pub(crate) pairs: u64,
    pub(crate) excluded: u64,
}

/// The count of an airport.
pub(crate) fn count_of(airport: &Airport) -> Count {
    let mut count = Count {
        pairs: 0,
        excluded: 0,
    };
    for s in 0..airport.parts().stands.len() {
        for t in 0..airport.parts().types.len() {
            add_pairs_of(airport, StandNo(s as u16), TypeNo(t as u16), &mut count);
        }
    }
    count
}

// Counts the pairs of one type on one stand with all types on all stands.
fn add_pairs_of(airport: &Airport, s: StandNo, t: TypeNo, count: &mut Count)
    requires stand { s.0 < length airport.now.stands }
    requires kind { t.0 < length airport.now.types }
{
    for s2 in 0..airport.parts().stands.len() {
        for t2 in 0..airport.parts().types.len() {
            count.pairs = count.pairs.saturating_add(1);
            if airport
                .breaks(
                    s,
                    t,
                    Wing::Full,
                    StandNo(s2 as u16),
                    TypeNo(t2 as u16),
                    Wing::Full,
                )
                .is_some()
            {
                count.excluded = count.excluded.saturating_add(1);
            }
        }
    }
}
