// What came of messages, reports and cancels.
use super::{OK, UNPROCESSABLE, has_text};
use apron_base::{Listed, PartId, VisitNo};
use desk_words::replies::{Denial, ReplyBody};
use std::alloc::Global;
use std::test::Fail;

// The version, the parts that lost their stands by a message, the visit that it changed, and the
// body.
const MESSAGES: [(u32, &'static [PartId], Option<VisitNo>, &'static str); 2] = [
    (
        9,
        &[
            PartId {
                visit: VisitNo(2),
                part: 255,
            },
            PartId {
                visit: VisitNo(40),
                part: 1,
            },
        ],
        Some(VisitNo(3)),
        r#"{"bumped":[{"part":255,"visit":2},{"part":1,"visit":40}],"version":9,"visit":3}"#,
    ),
    (10, &[], None, r#"{"bumped":[],"version":10,"visit":null}"#),
];

fn is_message_told(
    alloc: Global,
    version: u32,
    bumped: &[PartId],
    visit: Option<VisitNo>,
    body: &str,
) -> Result<bool, Fail> {
    let bumped = Listed::from_vec(Vec::from_slice(alloc, bumped)?);
    has_text(
        alloc,
        version,
        ReplyBody::Message { bumped, visit },
        OK,
        body,
    )
}

#[test]
fn replies_to_messages_are_these_bytes(rt: HostRuntime) -> Result<(), Fail> {
    for (version, bumped, visit, body) in MESSAGES {
        let is = is_message_told(rt.alloc(), version, bumped, visit, body)?;
        assert!(rt; is, "at {body}");
    }
    Ok(())
}

const REPORTED: &str = r#"{"bumped":[{"part":1,"visit":4294967295}],"version":4294967294}"#;

fn is_report_told(alloc: Global) -> Result<bool, Fail> {
    let bumped = Listed::from_vec(Vec::from_slice(
        alloc,
        &[PartId {
            visit: VisitNo(4294967295),
            part: 1,
        }],
    )?);
    has_text(
        alloc,
        4294967294,
        ReplyBody::Reported { bumped },
        OK,
        REPORTED,
    )
}

#[test]
fn replies_to_reports_and_cancels_are_these_bytes(rt: HostRuntime) -> Result<(), Fail> {
    let reported = is_report_told(rt.alloc())?;
    let cancelled = has_text(
        rt.alloc(),
        12,
        ReplyBody::Cancelled,
        OK,
        r#"{"version":12}"#,
    )?;
    assert!(rt; reported && cancelled);
    Ok(())
}

const DENIALS: [(u32, Denial, &'static str); 5] = [
    (0, Denial::Unknown, r#"{"error":"unknown","version":0}"#),
    (3, Denial::Gone, r#"{"error":"gone","version":3}"#),
    (3, Denial::NoSuchPart, r#"{"error":"part","version":3}"#),
    (3, Denial::Time, r#"{"error":"time","version":3}"#),
    (3, Denial::OnBlock, r#"{"error":"onblock","version":3}"#),
];

#[test]
fn denials_are_these_bytes(rt: HostRuntime) -> Result<(), Fail> {
    for (version, denial, body) in DENIALS {
        let is = has_text(
            rt.alloc(),
            version,
            ReplyBody::Denied(denial),
            UNPROCESSABLE,
            body,
        )?;
        assert!(rt; is, "at {body}");
    }
    Ok(())
}
