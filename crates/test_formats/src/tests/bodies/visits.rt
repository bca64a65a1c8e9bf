// Bodies of visits that are to be added, and what is read of them.
use desk_bodies::{VisitText, read_visit};
use std::alloc::{AllocError, Global};
use visit_book::Key;

// A flight by its airline, its number, its suffix as a byte or 0, and its day.
fn key_words(alloc: Global, key: &Option<Key>) -> Result<String, AllocError> {
    match key {
        Some(key) => {
            let airline = key.flight.airline.text();
            let suffix = key.flight.suffix.unwrap_or(0);
            format!(in alloc; "{airline}.{}.{suffix}.{}", key.flight.number, key.day)
        }
        None => String::from_str(alloc, "none"),
    }
}

fn words(alloc: Global, visit: &VisitText) -> Result<String, AllocError> {
    let arr = key_words(alloc, &visit.arr)?;
    let dep = key_words(alloc, &visit.dep)?;
    let name = visit.name.text();
    format!(in alloc;
        "{name} {} {} {} {} {arr} {dep}",
        visit.kind, visit.class, visit.on, visit.off
    )
}

fn visit_of(alloc: Global, body: &str) -> Option<String> {
    let visit = read_visit(alloc, body.as_bytes()).ok()?;
    words(alloc, &visit).ok()
}

// Bodies, and what is read of them, or nothing if they are refused.
const VISITS: [(&str, &str); 43] = [
    (
        r#"{"name":"V1","type":"A320","class":3,"on":600,"off":660}"#,
        "V1 A320 3 600 660 none none",
    ),
    (
        r#"{"name":"V1","type":"A320","class":3,"on":600,"off":660,"arr":null,"dep":null}"#,
        "V1 A320 3 600 660 none none",
    ),
    (
        r#"{"name":"V1","type":"A320","class":3,"on":600,"off":660,"arr":{"flight":"LH0027","day":0},"dep":{"day":255,"flight":"AAL1400A"}}"#,
        "V1 A320 3 600 660 LH.27.0.0 AAL.1400.65.255",
    ),
    (
        r#"{"name":"V1","type":"A320","class":3,"on":600,"off":660,"dep":{"flight":"4U0","day":1,"gate":null}}"#,
        "V1 A320 3 600 660 none 4U.0.0.1",
    ),
    (
        r#"{"off":4294967295,"on":4294967295,"class":9,"type":"","name":"ABCDEFGHI-12","more":[1.5]}"#,
        "ABCDEFGHI-12  9 4294967295 4294967295 none none",
    ),
    (
        r#"{"name":"V1","type":"A320","class":0,"class":1,"on":600,"off":660,"arr":7,"arr":null}"#,
        "V1 A320 1 600 660 none none",
    ),
    (r#"{"type":"A320","class":3,"on":600,"off":660}"#, ""),
    (r#"{"name":"V1","class":3,"on":600,"off":660}"#, ""),
    (r#"{"name":"V1","type":"A320","on":600,"off":660}"#, ""),
    (r#"{"name":"V1","type":"A320","class":3,"off":660}"#, ""),
    (r#"{"name":"V1","type":"A320","class":3,"on":600}"#, ""),
    (
        r#"{"name":null,"type":"A320","class":3,"on":600,"off":660}"#,
        "",
    ),
    (
        r#"{"name":"v1","type":"A320","class":3,"on":600,"off":660}"#,
        "",
    ),
    (
        r#"{"name":"ABCDEFGHI-123","type":"A320","class":3,"on":600,"off":660}"#,
        "",
    ),
    (
        r#"{"name":1,"type":"A320","class":3,"on":600,"off":660}"#,
        "",
    ),
    (
        r#"{"name":"V1","type":null,"class":3,"on":600,"off":660}"#,
        "",
    ),
    (
        r#"{"name":"V1","type":320,"class":3,"on":600,"off":660}"#,
        "",
    ),
    (
        r#"{"name":"V1","type":"A320","class":null,"on":600,"off":660}"#,
        "",
    ),
    (
        r#"{"name":"V1","type":"A320","class":10,"on":600,"off":660}"#,
        "",
    ),
    (
        r#"{"name":"V1","type":"A320","class":3.0,"on":600,"off":660}"#,
        "",
    ),
    (
        r#"{"name":"V1","type":"A320","class":"3","on":600,"off":660}"#,
        "",
    ),
    (
        r#"{"name":"V1","type":"A320","class":3,"on":-1,"off":660}"#,
        "",
    ),
    (
        r#"{"name":"V1","type":"A320","class":3,"on":4294967296,"off":660}"#,
        "",
    ),
    (
        r#"{"name":"V1","type":"A320","class":3,"on":600,"off":null}"#,
        "",
    ),
    (
        r#"{"name":"V1","type":"A320","class":3,"on":600,"off":4294967296}"#,
        "",
    ),
    (
        r#"{"name":"V1","type":"A320","class":3,"on":600,"off":660,"arr":false}"#,
        "",
    ),
    (
        r#"{"name":"V1","type":"A320","class":3,"on":600,"off":660,"arr":0}"#,
        "",
    ),
    (
        r#"{"name":"V1","type":"A320","class":3,"on":600,"off":660,"arr":[]}"#,
        "",
    ),
    (
        r#"{"name":"V1","type":"A320","class":3,"on":600,"off":660,"arr":"LH27"}"#,
        "",
    ),
    (
        r#"{"name":"V1","type":"A320","class":3,"on":600,"off":660,"arr":{}}"#,
        "",
    ),
    (
        r#"{"name":"V1","type":"A320","class":3,"on":600,"off":660,"arr":{"flight":"LH27"}}"#,
        "",
    ),
    (
        r#"{"name":"V1","type":"A320","class":3,"on":600,"off":660,"arr":{"day":1}}"#,
        "",
    ),
    (
        r#"{"name":"V1","type":"A320","class":3,"on":600,"off":660,"arr":{"flight":"LH27","day":null}}"#,
        "",
    ),
    (
        r#"{"name":"V1","type":"A320","class":3,"on":600,"off":660,"arr":{"flight":null,"day":1}}"#,
        "",
    ),
    (
        r#"{"name":"V1","type":"A320","class":3,"on":600,"off":660,"arr":{"flight":"LH27","day":256}}"#,
        "",
    ),
    (
        r#"{"name":"V1","type":"A320","class":3,"on":600,"off":660,"arr":{"flight":"LH27","day":"1"}}"#,
        "",
    ),
    (
        r#"{"name":"V1","type":"A320","class":3,"on":600,"off":660,"arr":{"flight":"lh27","day":1}}"#,
        "",
    ),
    (
        r#"{"name":"V1","type":"A320","class":3,"on":600,"off":660,"arr":{"flight":"LH","day":1}}"#,
        "",
    ),
    (
        r#"{"name":"V1","type":"A320","class":3,"on":600,"off":660,"arr":{"flight":"LH12345","day":1}}"#,
        "",
    ),
    (
        r#"{"name":"V1","type":"A320","class":3,"on":600,"off":660,"arr":{"flight":"LH27AB","day":1}}"#,
        "",
    ),
    (
        r#"{"name":"V1","type":"A320","class":3,"on":600,"off":660,"dep":{"flight":"LH27","day":-1}}"#,
        "",
    ),
    (r#"null"#, ""),
    (r#"[]"#, ""),
];

#[test]
fn visits_are_read_so(rt: HostRuntime) {
    for (body, want) in &VISITS {
        let read = visit_of(rt.alloc(), body);
        assert_eq!(rt; super::text_of(&read), *want, "of {body}");
    }
}
