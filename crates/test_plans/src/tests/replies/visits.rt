// Visits.
use super::{OK, has_text};
use apron_base::{Listed, Name, PartId, StandNo, TypeNo, VisitNo};
use apron_rules::Rule;
use desk_words::replies::ReplyBody;
use mvt_grammar::Flight;
use std::test::Fail;
use visit_book::{Bump, End, Key, Part, Parts, Place, Visit};

const BUMP: Bump = Bump {
    stand: StandNo(1),
    entry: 8,
    blocker: PartId {
        visit: VisitNo(40),
        part: 2,
    },
    minute: 615,
    rule: Rule::Pair,
};

fn first_visit(place: Place, on_block: bool, end: End) -> Visit {
    Visit {
        number: VisitNo(1),
        name: Name::literal(b"V1"),
        kind: TypeNo(0),
        class: 3,
        on: 600,
        off: 660,
        arr: None,
        dep: None,
        parts: Parts::one(Part {
            from: 600,
            to: 660,
            place,
        }),
        on_block,
        end,
        added: 1,
        edited: 1,
    }
}

fn last_visit() -> Visit {
    Visit {
        number: VisitNo(4294967295),
        name: Name::literal(b"KL-0641-27-A"),
        kind: TypeNo(0),
        class: 0,
        on: 0,
        off: 4319,
        arr: None,
        dep: Some(Key {
            flight: Flight {
                airline: Name::literal(b"AAL"),
                number: 0,
                suffix: Some(b'Z'),
            },
            day: 255,
        }),
        parts: Parts::one(Part {
            from: 1,
            to: 4320,
            place: Place::Planned(StandNo(1)),
        }),
        on_block: false,
        end: End::Live,
        added: 2,
        edited: 4294967294,
    }
}

// A visit with both flights.
fn connecting_visit() -> Visit {
    let airline = Name::literal(b"LH");
    let mut visit = first_visit(Place::Planned(StandNo(0)), false, End::Live);
    visit.arr = Some(Key {
        flight: Flight {
            airline,
            number: 27,
            suffix: None,
        },
        day: 0,
    });
    visit.dep = Some(Key {
        flight: Flight {
            airline,
            number: 1400,
            suffix: Some(b'A'),
        },
        day: 1,
    });
    visit
}

// The airport has two stands and one type.
fn nameless_visit() -> Visit {
    let mut visit = first_visit(Place::Planned(StandNo(2)), false, End::Live);
    visit.kind = TypeNo(1);
    visit
}

// The version, the place of the one part, whether the visit is on block, how it ended, and the
// body.
const ROWS: [(u32, Place, bool, End, &'static str); 6] = [
    (
        1,
        Place::Planned(StandNo(0)),
        false,
        End::Live,
        r#"{"arr":null,"class":3,"dep":null,"edited":1,"name":"V1","off":660,"on":600,"parts":[{"actual":false,"bump":null,"from":600,"stand":"N1","to":660}],"state":"expected","type":"A320","version":1,"visit":1}"#,
    ),
    (
        4294967294,
        Place::Actual(StandNo(1)),
        true,
        End::Live,
        r#"{"arr":null,"class":3,"dep":null,"edited":1,"name":"V1","off":660,"on":600,"parts":[{"actual":true,"bump":null,"from":600,"stand":"N2","to":660}],"state":"onblock","type":"A320","version":4294967294,"visit":1}"#,
    ),
    (
        12,
        Place::Actual(StandNo(1)),
        true,
        End::Gone,
        r#"{"arr":null,"class":3,"dep":null,"edited":1,"name":"V1","off":660,"on":600,"parts":[{"actual":true,"bump":null,"from":600,"stand":"N2","to":660}],"state":"gone","type":"A320","version":12,"visit":1}"#,
    ),
    (
        0,
        Place::Unplaced(None),
        true,
        End::Cancelled,
        r#"{"arr":null,"class":3,"dep":null,"edited":1,"name":"V1","off":660,"on":600,"parts":[{"actual":false,"bump":null,"from":600,"stand":null,"to":660}],"state":"cancelled","type":"A320","version":0,"visit":1}"#,
    ),
    (
        2,
        Place::Unplaced(None),
        false,
        End::Gone,
        r#"{"arr":null,"class":3,"dep":null,"edited":1,"name":"V1","off":660,"on":600,"parts":[{"actual":false,"bump":null,"from":600,"stand":null,"to":660}],"state":"gone","type":"A320","version":2,"visit":1}"#,
    ),
    (
        9,
        Place::Unplaced(Some(BUMP)),
        false,
        End::Live,
        r#"{"arr":null,"class":3,"dep":null,"edited":1,"name":"V1","off":660,"on":600,"parts":[{"actual":false,"bump":{"blocker":{"part":2,"visit":40},"entry":8,"minute":615,"rule":"pair","stand":"N2"},"from":600,"stand":null,"to":660}],"state":"expected","type":"A320","version":9,"visit":1}"#,
    ),
];

const LAST: &str =
    r#"{"arr":null,"class":0,"dep":{"day":255,"flight":"AAL0Z"},"edited":4294967294,"name":"KL-0641-27-A","off":4319,"on":0,"parts":[{"actual":false,"bump":null,"from":1,"stand":"N2","to":4320}],"state":"expected","type":"A320","version":4294967294,"visit":4294967295}"#;

const CONNECTING: &str =
    r#"{"arr":{"day":0,"flight":"LH27"},"class":3,"dep":{"day":1,"flight":"LH1400A"},"edited":1,"name":"V1","off":660,"on":600,"parts":[{"actual":false,"bump":null,"from":600,"stand":"N1","to":660}],"state":"expected","type":"A320","version":3,"visit":1}"#;

const NAMELESS: &str =
    r#"{"arr":null,"class":3,"dep":null,"edited":1,"name":"V1","off":660,"on":600,"parts":[{"actual":false,"bump":null,"from":600,"stand":null,"to":660}],"state":"expected","type":null,"version":1,"visit":1}"#;

// A visit whose part lost its stand, and one on a stand.
const DAY: &str =
    r#"{"version":7,"visits":[{"arr":null,"class":3,"dep":null,"edited":1,"name":"V1","off":660,"on":600,"parts":[{"actual":false,"bump":{"blocker":{"part":2,"visit":40},"entry":8,"minute":615,"rule":"pair","stand":"N2"},"from":600,"stand":null,"to":660}],"state":"expected","type":"A320","visit":1},{"arr":null,"class":0,"dep":{"day":255,"flight":"AAL0Z"},"edited":4294967294,"name":"KL-0641-27-A","off":4319,"on":0,"parts":[{"actual":false,"bump":null,"from":1,"stand":"N2","to":4320}],"state":"expected","type":"A320","visit":4294967295}]}"#;

const EMPTY_DAY: &str = r#"{"version":3,"visits":[]}"#;

#[test]
fn visits_are_these_bytes(rt: HostRuntime) -> Result<(), Fail> {
    for (version, place, on_block, end, body) in ROWS {
        let visit = first_visit(place, on_block, end);
        let is = has_text(rt.alloc(), version, ReplyBody::Visit(visit), OK, body)?;
        assert!(rt; is, "at {body}");
    }
    Ok(())
}

#[test]
fn flights_and_the_greatest_numbers_are_told(rt: HostRuntime) -> Result<(), Fail> {
    let last = has_text(
        rt.alloc(),
        4294967294,
        ReplyBody::Visit(last_visit()),
        OK,
        LAST,
    )?;
    let connecting = has_text(
        rt.alloc(),
        3,
        ReplyBody::Visit(connecting_visit()),
        OK,
        CONNECTING,
    )?;
    assert!(rt; last && connecting, "last {last}, connecting {connecting}");
    Ok(())
}

#[test]
fn a_stand_and_a_type_that_there_are_not_are_told_as_null(rt: HostRuntime) -> Result<(), Fail> {
    let is = has_text(
        rt.alloc(),
        1,
        ReplyBody::Visit(nameless_visit()),
        OK,
        NAMELESS,
    )?;
    assert!(rt; is);
    Ok(())
}

#[test]
fn days_are_these_bytes(rt: HostRuntime) -> Result<(), Fail> {
    let alloc = rt.alloc();
    let bumped = first_visit(Place::Unplaced(Some(BUMP)), false, End::Live);
    let visits = Vec::from_array(alloc, [bumped, last_visit()])?;
    let visits = Listed::from_vec(visits);
    let full = has_text(alloc, 7, ReplyBody::Day { visits }, OK, DAY)?;
    let visits = Listed::new(alloc);
    let empty = has_text(alloc, 3, ReplyBody::Day { visits }, OK, EMPTY_DAY)?;
    assert!(rt; full && empty, "full {full}, empty {empty}");
    Ok(())
}
