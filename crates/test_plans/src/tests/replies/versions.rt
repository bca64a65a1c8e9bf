// Replies that give a version and little else.
use super::{CONFLICT, NOT_FOUND, OK, has_text};
use apron_base::VisitNo;
use desk_words::replies::ReplyBody;
use std::alloc::Global;
use std::test::Fail;

// The version at the reply, that of the commit's entry, and the body.
const COMMITTED: [(u32, u32, &'static str); 3] = [
    (7, 7, r#"{"version":7}"#),
    (4294967294, 7, r#"{"version":7}"#),
    (4294967294, 4294967294, r#"{"version":4294967294}"#),
];

#[test]
fn replies_to_commits_tell_the_version_of_their_entry(rt: HostRuntime) -> Result<(), Fail> {
    for (version, entry, body) in COMMITTED {
        let is = has_text(
            rt.alloc(),
            version,
            ReplyBody::Committed { entry },
            OK,
            body,
        )?;
        assert!(rt; is, "{entry} at {version}");
    }
    Ok(())
}

// The version, its reply, and the reply if there is no visit of a number.
const VERSIONS: [(u32, &'static str, &'static str); 2] = [
    (0, r#"{"version":0}"#, r#"{"error":"visit","version":0}"#),
    (
        4294967294,
        r#"{"version":4294967294}"#,
        r#"{"error":"visit","version":4294967294}"#,
    ),
];

#[test]
fn versions_are_told_and_that_there_is_no_visit(rt: HostRuntime) -> Result<(), Fail> {
    for (version, told, no_visit) in VERSIONS {
        let is = has_text(rt.alloc(), version, ReplyBody::Version, OK, told)?;
        let is_none = has_text(rt.alloc(), version, ReplyBody::NoVisit, NOT_FOUND, no_visit)?;
        assert!(rt; is && is_none, "at {version}");
    }
    Ok(())
}

fn is_addition_told(alloc: Global) -> Result<bool, Fail> {
    let told = ReplyBody::Added {
        entry: 3,
        visit: VisitNo(2),
    };
    has_text(alloc, 9, told, OK, r#"{"version":3,"visit":2}"#)
}

fn is_other_name_told(alloc: Global) -> Result<bool, Fail> {
    let told = ReplyBody::OtherName {
        visit: VisitNo(20000),
    };
    has_text(
        alloc,
        41,
        told,
        CONFLICT,
        r#"{"error":"name","version":41,"visit":20000}"#,
    )
}

fn is_history_told_full(alloc: Global) -> Result<bool, Fail> {
    has_text(
        alloc,
        4294967294,
        ReplyBody::Full,
        CONFLICT,
        r#"{"error":"full","version":4294967294}"#,
    )
}

#[test]
fn additions_and_conflicts_are_these_bytes(rt: HostRuntime) -> Result<(), Fail> {
    let added = is_addition_told(rt.alloc())?;
    let ahead = has_text(
        rt.alloc(),
        3,
        ReplyBody::Ahead,
        CONFLICT,
        r#"{"error":"ahead","version":3}"#,
    )?;
    let full = is_history_told_full(rt.alloc())?;
    let other = is_other_name_told(rt.alloc())?;
    assert!(rt;
        added && ahead && full && other,
        "{added} {ahead} {full} {other}"
    );
    Ok(())
}
