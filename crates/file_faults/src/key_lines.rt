// Where a key of an airport file is, by a walk over the file's lines.

use crate::inline::inline_key_line;
use crate::rules::Rule;

/// The line of a key, from 1, and its value as it is written. Without the key it is the line of its
/// table, and without that 0.
#[derive(Clone, Copy)]
pub(crate) struct KeyLine<'a> {
    pub(crate) line: u64,
    pub(crate) value: Option<&'a [u8]>,
}

// How far the walk has come: the present line, the line of the table's header, how many headers of
// its kind have come, and whether the line is in the table.
#[derive(Clone, Copy)]
struct Walk {
    line: u64,
    header: u64,
    seen: u64,
    is_inside: bool,
}

/// Where the key of this rule is.
pub(crate) fn key_line_of<'a>(text: &'a [u8], rule: &Rule) -> KeyLine<'a> {
    let mut walk = Walk {
        line: 0,
        header: 0,
        seen: 0,
        is_inside: false,
    };
    let mut begin = 0usize;
    for raw in text.split(|byte| *byte == b'\n') {
        let line = raw.trim_ascii();
        walk.pass(line, rule);
        match walk.found_in(line, rule) {
            Some(Found::Value(value)) => {
                return KeyLine {
                    line: walk.line,
                    value: Some(value),
                };
            }
            Some(Found::Array) => return inline_key_line(text, begin, walk.line, rule),
            None => {}
        }
        begin = begin.saturating_add(raw.len()).saturating_add(1);
    }
    KeyLine {
        line: walk.header,
        value: None,
    }
}

// What a line has of a key: its value, or the beginning of the array in which its table is.
enum Found<'a> {
    Value(&'a [u8]),
    Array,
}

impl Walk {
    // Comes to this line.
    fn pass(&mut self, line: &[u8], rule: &Rule) {
        self.line = self.line.saturating_add(1);
        let Some(name) = header_of(line) else {
            return;
        };
        self.is_inside = false;
        if name == rule.section.as_bytes() {
            self.seen = self.seen.saturating_add(1);
            self.is_inside = self.seen == rule.row.max(1);
            if self.is_inside {
                self.header = self.line;
            }
        }
    }

    // What this line has of the key.
    fn found_in<'a>(&self, line: &'a [u8], rule: &Rule) -> Option<Found<'a>> {
        let (key, value) = key_and_value(line)?;
        let is_whole = self.seen == 0 && key == rule.section.as_bytes();
        if self.is_inside && key == rule.word.as_bytes() || is_whole && rule.word.is_empty() {
            Some(Found::Value(value))
        } else if is_whole {
            Some(Found::Array)
        } else {
            None
        }
    }
}

// The name in a header, as `[[stand]]` or `[airport]`.
fn header_of(line: &[u8]) -> Option<&[u8]> {
    let rest = line.strip_prefix(b"[")?;
    let rest = rest.strip_prefix(b"[").unwrap_or(rest);
    let end = rest.iter().position(|byte| *byte == b']')?;
    Some(rest.get(..end)?.trim_ascii())
}

// The key and the value of a line, without the comment after it.
fn key_and_value(line: &[u8]) -> Option<(&[u8], &[u8])> {
    let middle = line.iter().position(|byte| *byte == b'=')?;
    let key = line.get(..middle)?.trim_ascii();
    let key = key.strip_prefix(b"\"").unwrap_or(key);
    let key = key.strip_suffix(b"\"").unwrap_or(key);
    let value = line.get(middle.saturating_add(1)..)?;
    Some((key, without_comment(value).trim_ascii()))
}

// The part before the first `#` that is not in quotes.
fn without_comment(value: &[u8]) -> &[u8] {
    let mut is_quoted = false;
    for (i, byte) in value.iter().enumerate() {
        if *byte == b'"' {
            is_quoted = !is_quoted;
        } else if *byte == b'#' && !is_quoted {
            return value.get(..i).unwrap_or(value);
        }
    }
    value
}

/// The line, from 1, of the byte at this place.
pub(crate) fn line_at(text: &[u8], place: usize) -> u64 {
    let before = text.get(..place).unwrap_or(text);
    let mut line = 1u64;
    for byte in before {
        if *byte == b'\n' {
            line = line.saturating_add(1);
        }
    }
    line
}
