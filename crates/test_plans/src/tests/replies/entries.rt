// Entries of the history.
use super::{NOT_FOUND, OK, has_text};
use apron_base::Name;
use desk_asks::EntryKind;
use desk_words::replies::ReplyBody;
use std::test::Fail;

// The version, the entry, its call, whether it is of the desk T2-EAST, its kind, and the body.
const ROWS: [(u32, u32, u64, bool, EntryKind, &'static str); 5] = [
    (
        1,
        1,
        1,
        false,
        EntryKind::Visit,
        r#"{"call":1,"desk":null,"entry":1,"kind":"visit","version":1}"#,
    ),
    (
        9,
        7,
        12,
        true,
        EntryKind::Commit,
        r#"{"call":12,"desk":"T2-EAST","entry":7,"kind":"commit","version":9}"#,
    ),
    (
        4294967294,
        4294967294,
        4611686018427387903,
        true,
        EntryKind::Message,
        r#"{"call":4611686018427387903,"desk":"T2-EAST","entry":4294967294,"kind":"message","version":4294967294}"#,
    ),
    (
        5,
        4,
        30,
        true,
        EntryKind::Report,
        r#"{"call":30,"desk":"T2-EAST","entry":4,"kind":"report","version":5}"#,
    ),
    (
        6,
        6,
        31,
        false,
        EntryKind::Cancel,
        r#"{"call":31,"desk":null,"entry":6,"kind":"cancel","version":6}"#,
    ),
];

fn desk(named: bool) -> Option<Name> {
    if named {
        Some(Name::literal(b"T2-EAST"))
    } else {
        None
    }
}

#[test]
fn entries_are_these_bytes(rt: HostRuntime) -> Result<(), Fail> {
    for (version, entry, call, named, kind, body) in ROWS {
        let told = ReplyBody::Entry {
            entry,
            call,
            desk: desk(named),
            kind,
        };
        let is = has_text(rt.alloc(), version, told, OK, body)?;
        assert!(rt; is, "at {body}");
    }
    Ok(())
}

const NO_ENTRY: &str = r#"{"error":"entry","version":3}"#;

#[test]
fn an_entry_that_there_is_not_is_not_found(rt: HostRuntime) -> Result<(), Fail> {
    let is = has_text(rt.alloc(), 3, ReplyBody::NoEntry, NOT_FOUND, NO_ENTRY)?;
    assert!(rt; is);
    Ok(())
}
