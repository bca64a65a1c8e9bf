// Notes of a part that lost its stand twice, and what watches show of them.
use apron_base::{Minute, PartId, StandNo, VisitNo};
use apron_rules::Rule;
use watch_list::{Note, Shown};

// Stands, by their places.
const N1: u16 = 0;

const N2: u16 = 1;

/// A part that lost its stand: the entry, its visit and its class, the stand, the visit of the
/// blocker, and the minute.
pub(super) type Bumped = (u32, u32, u8, u16, u32, Minute);

fn part_one(visit: u32) -> PartId {
    PartId {
        visit: VisitNo(visit),
        part: 1,
    }
}

/// The note of this. Each clash of the cases is of two parts on one stand.
pub(super) fn note(bumped: &Bumped) -> Note {
    let (entry, visit, class, stand, blocker, minute) = *bumped;
    Note {
        entry,
        part: part_one(visit),
        class,
        stand: StandNo(stand),
        blocker: part_one(blocker),
        minute,
        rule: Rule::Same,
    }
}

/// The second visit lost N1 to an aircraft that a message made late.
pub(super) const BY_A_MESSAGE: Bumped = (5, 2, 5, N1, 1, 680);

/// Then it lost N2 to one that came on block there.
pub(super) const BY_A_REPORT: Bumped = (8, 2, 5, N2, 3, 710);

/// What a watch of each note shows.
pub(super) const ALL: Shown = Shown {
    top_class: 9,
    stand: None,
    from: 0,
    until: Minute::MAX,
};

/// What a watch of the classes 0 to 2 shows.
pub(super) const HIGH: Shown = Shown {
    top_class: 2,
    ..ALL
};

/// What a watch shows, an entry, and the notes after it in the feed.
pub(super) type Fed = (Shown, u32, &'static [Bumped]);

pub(super) const FEEDS: [Fed; 12] = [
    (ALL, 0, &[BY_A_MESSAGE, BY_A_REPORT]),
    (ALL, 4, &[BY_A_MESSAGE, BY_A_REPORT]),
    (ALL, 5, &[BY_A_REPORT]),
    (ALL, 7, &[BY_A_REPORT]),
    (ALL, 8, &[]),
    (HIGH, 0, &[]),
    (
        Shown {
            top_class: 4,
            ..ALL
        },
        0,
        &[],
    ),
    (
        Shown {
            top_class: 5,
            ..ALL
        },
        0,
        &[BY_A_MESSAGE, BY_A_REPORT],
    ),
    (
        Shown {
            stand: Some(StandNo(N2)),
            ..ALL
        },
        0,
        &[BY_A_REPORT],
    ),
    (
        Shown {
            from: 680,
            until: 710,
            ..ALL
        },
        0,
        &[BY_A_MESSAGE],
    ),
    (
        Shown {
            from: 681,
            until: 711,
            ..ALL
        },
        0,
        &[BY_A_REPORT],
    ),
    (
        Shown {
            stand: Some(StandNo(N1)),
            from: 681,
            until: 711,
            ..ALL
        },
        0,
        &[],
    ),
];
