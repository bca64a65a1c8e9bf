// Refused edits.
use super::{CONFLICT, UNPROCESSABLE, has_text};
use apron_base::{PartId, VisitNo};
use apron_rules::{Clash, Rule, UnfitBy};
use desk_words::replies::ReplyBody;
use std::test::Fail;
use visit_book::EditFault;

const SAME: Clash = Clash {
    minute: 480,
    a: PartId {
        visit: VisitNo(3),
        part: 1,
    },
    b: PartId {
        visit: VisitNo(40),
        part: 2,
    },
    rule: Rule::Same,
};

// The version, why an edit is refused, the status and the body.
const ROWS: [(u32, EditFault, &'static str, &'static str); 13] = [
    (
        0,
        EditFault::UnknownVisit { edit: 1 },
        UNPROCESSABLE,
        r#"{"edit":1,"error":"unknown","version":0}"#,
    ),
    (
        10,
        EditFault::Overtaken {
            edit: 3,
            visit: VisitNo(12),
            edited: 8,
        },
        CONFLICT,
        r#"{"edit":3,"edited":8,"error":"overtaken","version":10,"visit":12}"#,
    ),
    (
        11,
        EditFault::Gone { edit: 4 },
        UNPROCESSABLE,
        r#"{"edit":4,"error":"gone","version":11}"#,
    ),
    (
        9,
        EditFault::NoSuchPart { edit: 64 },
        UNPROCESSABLE,
        r#"{"edit":64,"error":"part","version":9}"#,
    ),
    (
        5,
        EditFault::OnBlock { edit: 1 },
        UNPROCESSABLE,
        r#"{"edit":1,"error":"onblock","version":5}"#,
    ),
    (
        4294967294,
        EditFault::BadCut { edit: 17 },
        UNPROCESSABLE,
        r#"{"edit":17,"error":"cut","version":4294967294}"#,
    ),
    (
        6,
        EditFault::BadJoin { edit: 64 },
        UNPROCESSABLE,
        r#"{"edit":64,"error":"join","version":6}"#,
    ),
    (
        10,
        EditFault::Unfit {
            edit: 2,
            by: UnfitBy::Letter,
        },
        UNPROCESSABLE,
        r#"{"by":"letter","edit":2,"error":"unfit","version":10}"#,
    ),
    (
        10,
        EditFault::Unfit {
            edit: 2,
            by: UnfitBy::Object(3),
        },
        UNPROCESSABLE,
        r#"{"by":{"object":3},"edit":2,"error":"unfit","version":10}"#,
    ),
    (
        12,
        EditFault::Clash(Clash {
            rule: Rule::Same,
            ..SAME
        }),
        UNPROCESSABLE,
        r#"{"a":{"part":1,"visit":3},"b":{"part":2,"visit":40},"error":"clash","minute":480,"rule":"same","version":12}"#,
    ),
    (
        12,
        EditFault::Clash(Clash {
            rule: Rule::Split,
            ..SAME
        }),
        UNPROCESSABLE,
        r#"{"a":{"part":1,"visit":3},"b":{"part":2,"visit":40},"error":"clash","minute":480,"rule":"split","version":12}"#,
    ),
    (
        12,
        EditFault::Clash(Clash {
            rule: Rule::Clearance,
            ..SAME
        }),
        UNPROCESSABLE,
        r#"{"a":{"part":1,"visit":3},"b":{"part":2,"visit":40},"error":"clash","minute":480,"rule":"clearance","version":12}"#,
    ),
    (
        12,
        EditFault::Clash(Clash {
            rule: Rule::Pair,
            ..SAME
        }),
        UNPROCESSABLE,
        r#"{"a":{"part":1,"visit":3},"b":{"part":2,"visit":40},"error":"clash","minute":480,"rule":"pair","version":12}"#,
    ),
];

#[test]
fn refused_edits_are_these_bytes(rt: HostRuntime) -> Result<(), Fail> {
    for (version, fault, status, body) in ROWS {
        let is = has_text(rt.alloc(), version, ReplyBody::Edit(fault), status, body)?;
        assert!(rt; is, "at {body}");
    }
    Ok(())
}
