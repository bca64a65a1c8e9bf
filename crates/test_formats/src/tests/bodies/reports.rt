// Bodies of reports and of cancels, and what is read of them.
use desk_bodies::{EventText, ReportText, read_cancel, read_report};
use std::alloc::{AllocError, Global};

// Bodies, and what is read of them, or nothing if they are refused.
const REPORTS: [(&str, &str); 25] = [
    (
        r#"{"visit":1,"on":{"part":2,"stand":"N1","minute":600}}"#,
        "1 on 2 N1 600",
    ),
    (
        r#"{"on":{"minute":4294967295,"stand":"","part":255,"x":1},"visit":4294967295,"y":null}"#,
        "4294967295 on 255  4294967295",
    ),
    (r#"{"visit":0,"off":{"minute":0}}"#, "0 off 0"),
    (
        r#"{"visit":1,"visit":7,"off":null,"off":{"minute":4294967295}}"#,
        "7 off 4294967295",
    ),
    (r#"{"off":{"minute":3}}"#, ""),
    (r#"{"visit":"1","off":{"minute":3}}"#, ""),
    (r#"{"visit":4294967296,"off":{"minute":3}}"#, ""),
    (r#"{"visit":1}"#, ""),
    (
        r#"{"visit":1,"on":{"part":2,"stand":"N1","minute":600},"off":{"minute":3}}"#,
        "",
    ),
    (
        r#"{"visit":1,"on":{"part":2,"stand":"N1","minute":600},"off":null}"#,
        "",
    ),
    (r#"{"visit":1,"on":null,"off":{"minute":3}}"#, ""),
    (r#"{"visit":1,"on":null}"#, ""),
    (r#"{"visit":1,"on":{"stand":"N1","minute":600}}"#, ""),
    (r#"{"visit":1,"on":{"part":2,"minute":600}}"#, ""),
    (r#"{"visit":1,"on":{"part":2,"stand":"N1"}}"#, ""),
    (
        r#"{"visit":1,"on":{"part":"2","stand":"N1","minute":600}}"#,
        "",
    ),
    (
        r#"{"visit":1,"on":{"part":256,"stand":"N1","minute":600}}"#,
        "",
    ),
    (r#"{"visit":1,"on":{"part":2,"stand":12,"minute":600}}"#, ""),
    (
        r#"{"visit":1,"on":{"part":2,"stand":"N1","minute":600.0}}"#,
        "",
    ),
    (
        r#"{"visit":1,"on":{"part":2,"stand":"N1","minute":4294967296}}"#,
        "",
    ),
    (r#"{"visit":1,"off":{}}"#, ""),
    (r#"{"visit":1,"off":{"minute":null}}"#, ""),
    (r#"{"visit":1,"off":{"minute":4294967296}}"#, ""),
    (r#"{"visit":1,"off":3}"#, ""),
    (r#"[]"#, ""),
];

fn words(alloc: Global, report: &ReportText) -> Result<String, AllocError> {
    match &report.event {
        EventText::On {
            part,
            stand,
            minute,
        } => format!(in alloc; "{} on {part} {stand} {minute}", report.visit),
        EventText::Off { minute } => format!(in alloc; "{} off {minute}", report.visit),
    }
}

fn report_of(alloc: Global, body: &str) -> Option<String> {
    let report = read_report(alloc, body.as_bytes()).ok()?;
    words(alloc, &report).ok()
}

#[test]
fn reports_are_of_one_event(rt: HostRuntime) {
    for (body, want) in &REPORTS {
        let read = report_of(rt.alloc(), body);
        assert_eq!(rt; super::text_of(&read), *want, "of {body}");
    }
}

const CANCELS: [(&str, Option<u32>); 8] = [
    (r#"{"visit":1}"#, Some(1)),
    (r#"{"more":[],"visit":4294967295}"#, Some(4294967295)),
    (r#"{"visit":4294967296}"#, None),
    (r#"{"visit":"1"}"#, None),
    (r#"{"visit":null}"#, None),
    (r#"{}"#, None),
    (r#"1"#, None),
    (r#"{"visit":1"#, None),
];

#[test]
fn cancels_are_of_one_visit(rt: HostRuntime) {
    for (body, want) in &CANCELS {
        let visit = read_cancel(rt.alloc(), body.as_bytes()).ok();
        assert_eq!(rt; visit, *want, "of {body}");
    }
}
