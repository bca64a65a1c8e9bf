// Bodies of commits, and what is read of them.
use desk_bodies::{EditText, read_commit};
use std::alloc::{AllocError, Global};

// Bodies, and whether they are commits.
const BODIES: [(&[u8], bool); 27] = [
    (b"", false),
    (b"{", false),
    (b"\xff", false),
    (b"null", false),
    (b"[]", false),
    (
        br#"{"desk":"D","draft":1,"base":2,"edits":[{"lift":{"visit":1,"part":1}}]}"#,
        true,
    ),
    (
        b"\n { \"desk\" : \"D\" , \"draft\":1,\"base\":2,\"edits\":[{\"lift\":{\"visit\":1,\"part\":1}}]}\r\n\t",
        true,
    ),
    (
        br#"{"edits":[{"lift":{"part":1,"visit":1}}],"base":2,"draft":1,"desk":"D"}"#,
        true,
    ),
    (
        br#"{"desk":"D","draft":1,"base":2,"more":[1.5,{"x":null}],"edits":[{"lift":{"visit":1,"part":1,"y":-1},"z":0}]}"#,
        true,
    ),
    (
        br#"{"desk":"D","draft":1,"base":2,"more":1e999,"edits":[{"lift":{"visit":1,"part":1}}]}"#,
        false,
    ),
    (
        br#"{"desk":"D","draft":1,"base":2,"more":01,"edits":[{"lift":{"visit":1,"part":1}}]}"#,
        false,
    ),
    (
        br#"{"desk":"D","draft":1,"base":2,"more":"\ud800","edits":[{"lift":{"visit":1,"part":1}}]}"#,
        false,
    ),
    (
        b"{\"desk\":\"D\",\"draft\":1,\"base\":2,\"more\":\"\xff\",\"edits\":[{\"lift\":{\"visit\":1,\"part\":1}}]}",
        false,
    ),
    (
        b"\xef\xbb\xbf{\"desk\":\"D\",\"draft\":1,\"base\":2,\"edits\":[{\"lift\":{\"visit\":1,\"part\":1}}]}",
        false,
    ),
    (
        br#"{"desk":"D","draft":1,"base":2,"edits":[{"lift":{"visit":1,"part":1}}]}x"#,
        false,
    ),
    (
        br#"{"desk":"D","draft":1,"base":2,"edits":[{"lift":{"visit":1,"part":1}},]}"#,
        false,
    ),
    (
        br#"{"draft":1,"base":2,"edits":[{"lift":{"visit":1,"part":1}}]}"#,
        false,
    ),
    (
        br#"{"desk":"D","base":2,"edits":[{"lift":{"visit":1,"part":1}}]}"#,
        false,
    ),
    (
        br#"{"desk":"D","draft":1,"edits":[{"lift":{"visit":1,"part":1}}]}"#,
        false,
    ),
    (br#"{"desk":"D","draft":1,"base":2}"#, false),
    (
        br#"{"desk":"D","draft":1,"base":2,"edits":{"lift":{"visit":1,"part":1}}}"#,
        false,
    ),
    (
        br#"{"desk":"ABCDEFGHI-12","draft":1,"base":2,"edits":[{"lift":{"visit":1,"part":1}}]}"#,
        true,
    ),
    (
        br#"{"desk":"ABCDEFGHI-123","draft":1,"base":2,"edits":[{"lift":{"visit":1,"part":1}}]}"#,
        false,
    ),
    (
        br#"{"desk":"d","draft":1,"base":2,"edits":[{"lift":{"visit":1,"part":1}}]}"#,
        false,
    ),
    (
        br#"{"desk":"","draft":1,"base":2,"edits":[{"lift":{"visit":1,"part":1}}]}"#,
        false,
    ),
    (
        br#"{"desk":"\u0044","draft":1,"base":2,"edits":[{"lift":{"visit":1,"part":1}}]}"#,
        true,
    ),
    (br#"{"desk":"D","draft":1,"base":2,"edits":[]}"#, false),
];

#[test]
fn bodies_are_json_in_utf8_of_the_form(rt: HostRuntime) {
    for (body, want) in &BODIES {
        let is = read_commit(rt.alloc(), body).is_ok();
        assert_eq!(rt; is, *want, "of {body:?}");
    }
}

// Numbers of drafts, and how they are read.
const NUMBERS: [(&str, Option<u32>); 17] = [
    ("0", Some(0)),
    ("7", Some(7)),
    ("4294967295", Some(4_294_967_295)),
    ("4294967296", None),
    ("18446744073709551616", None),
    ("1.0", None),
    ("1e0", None),
    ("-0", None),
    ("-1", None),
    ("01", None),
    ("+1", None),
    ("1e999", None),
    ("\"7\"", None),
    ("null", None),
    // The last value of a key counts, however the key is written.
    ("3,\"draft\":4", Some(4)),
    ("3,\"dr\\u0061ft\":5", Some(5)),
    ("3,\"draft\":null", None),
];

fn draft_of(alloc: Global, draft: &str) -> Option<u32> {
    let body = format!(in alloc;
        "{{\"desk\":\"D\",\"draft\":{draft},\"base\":2,\"edits\":[{{\"lift\":{{\"visit\":1,\"part\":1}}}}]}}"
    ).ok()?;
    let commit = read_commit(alloc, body.as_bytes()).ok()?;
    Some(commit.draft)
}

#[test]
fn whole_numbers_of_32_bits_are_numbers(rt: HostRuntime) {
    for (draft, want) in &NUMBERS {
        assert_eq!(rt; draft_of(rt.alloc(), draft), *want, "of {draft}");
    }
}

// Edits, and what is read of them, or nothing if they are refused.
const EDITS: [(&str, &str); 21] = [
    (r#"{"put":{"visit":1,"part":2,"stand":"N1"}}"#, "put 1 2 N1"),
    (r#"{"put":{"visit":0,"part":0,"stand":""}}"#, "put 0 0 "),
    (
        r#"{"put":{"visit":1,"part":255,"stand":"\u00e9"}}"#,
        "put 1 255 \u{e9}",
    ),
    (
        r#"{"lift":{"visit":4294967295,"part":3}}"#,
        "lift 4294967295 3",
    ),
    (
        r#"{"cut":{"visit":1,"part":2,"at":4294967295}}"#,
        "cut 1 2 4294967295",
    ),
    (r#"{"join":{"visit":1,"part":2}}"#, "join 1 2"),
    (
        r#"{"lift":{"visit":1,"part":1},"lift":{"visit":2,"part":1}}"#,
        "lift 2 1",
    ),
    (r#"{"l\u0069ft":{"visit":1,"part":1}}"#, "lift 1 1"),
    (r#"{"lift":{"visit":1,"part":256}}"#, ""),
    (r#"{"lift":{"visit":4294967296,"part":1}}"#, ""),
    (r#"{"cut":{"visit":1,"part":2,"at":4294967296}}"#, ""),
    (r#"{"put":{"visit":1,"part":2}}"#, ""),
    (r#"{"put":{"visit":1,"part":2,"stand":1}}"#, ""),
    (r#"{"lift":{"visit":1}}"#, ""),
    (r#"{"lift":null}"#, ""),
    (
        r#"{"lift":{"visit":1,"part":1},"join":{"visit":1,"part":1}}"#,
        "",
    ),
    (r#"{"lift":{"visit":1,"part":1},"cut":null}"#, ""),
    (r#"{"put":null,"join":{"visit":1,"part":1}}"#, ""),
    (r#"{"Lift":{"visit":1,"part":1}}"#, ""),
    (r#"{}"#, ""),
    (r#"7"#, ""),
];

fn words(alloc: Global, edit: &EditText) -> Result<String, AllocError> {
    match edit {
        EditText::Put { visit, part, stand } => format!(in alloc; "put {visit} {part} {stand}"),
        EditText::Lift { visit, part } => format!(in alloc; "lift {visit} {part}"),
        EditText::Cut { visit, part, at } => format!(in alloc; "cut {visit} {part} {at}"),
        EditText::Join { visit, part } => format!(in alloc; "join {visit} {part}"),
    }
}

fn edit_of(alloc: Global, edit: &str) -> Option<String> {
    let body = format!(in alloc;
        "{{\"desk\":\"D\",\"draft\":1,\"base\":2,\"edits\":[{edit}]}}"
    ).ok()?;
    let commit = read_commit(alloc, body.as_bytes()).ok()?;
    words(alloc, commit.edits.as_slice().first()?).ok()
}

#[test]
fn an_edit_is_of_one_kind(rt: HostRuntime) {
    for (edit, want) in &EDITS {
        let read = edit_of(rt.alloc(), edit);
        assert_eq!(rt; super::text_of(&read), *want, "of {edit}");
    }
}

fn joined(
    alloc: Global,
    before: &str,
    piece: &str,
    times: usize,
    after: &str,
) -> Result<String, AllocError> {
    let mut text = String::from_str(alloc, before)?;
    for _ in 0..times {
        text.push_str(piece)?;
    }
    text.push_str(after)?;
    Ok(text)
}

// Whether a commit of this many edits is read.
fn is_read_with(alloc: Global, edits: usize) -> Option<bool> {
    let before = r#"{"desk":"D","draft":1,"base":2,"edits":["#;
    let piece = r#"{"lift":{"visit":1,"part":1}},"#;
    let last = r#"{"lift":{"visit":1,"part":1}}]}"#;
    let body = joined(alloc, before, piece, edits.saturating_sub(1), last).ok()?;
    Some(read_commit(alloc, body.as_bytes()).is_ok())
}

#[test]
fn a_commit_has_1_to_64_edits(rt: HostRuntime) {
    for (edits, want) in [(1, true), (64, true), (65, false)] {
        assert_eq!(rt; is_read_with(rt.alloc(), edits), Some(want), "of {edits}");
    }
}

// Whether a commit nested this deep is read: its object is the first level.
fn is_read_nested(alloc: Global, deep: usize) -> Option<bool> {
    let before =
        r#"{"desk":"D","draft":1,"base":2,"edits":[{"lift":{"visit":1,"part":1}}],"more":"#;
    let lists = deep.saturating_sub(1);
    let opened = joined(alloc, before, "[", lists, "").ok()?;
    let body = joined(alloc, opened.as_str(), "]", lists, "}").ok()?;
    Some(read_commit(alloc, body.as_bytes()).is_ok())
}

#[test]
fn a_body_nests_at_most_127_deep(rt: HostRuntime) {
    for (deep, want) in [(127, true), (128, false)] {
        assert_eq!(rt; is_read_nested(rt.alloc(), deep), Some(want), "of {deep}");
    }
}
