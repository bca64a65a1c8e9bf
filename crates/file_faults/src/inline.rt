// Where a key of a table is that is written within an array, as `stand = [{ name = "N1" }]`.

use crate::key_lines::KeyLine;
use crate::rules::Rule;

// How far the walk has come.
#[derive(Clone, Copy)]
struct Walk<'a> {
    text: &'a [u8],
    word: &'static [u8],
    row: u64,
    line: u64,
    // how many tables have begun, and whether the present byte is in the one that is sought
    seen: u64,
    is_inside: bool,
    // the line on which that one begins, and where its present key begins
    header: u64,
    token: usize,
    // the line of the key, and where its value begins
    found: Option<(u64, usize)>,
    brackets: u32,
    is_quoted: bool,
    is_comment: bool,
}

/// Where the key of this rule is in the array that begins at this place of the text, on this line.
pub(crate) fn inline_key_line<'a>(
    text: &'a [u8],
    begin: usize,
    line: u64,
    rule: &Rule,
) -> KeyLine<'a> {
    let mut walk = Walk {
        text,
        word: rule.word.as_bytes(),
        row: rule.row,
        line,
        seen: 0,
        is_inside: false,
        header: line,
        token: begin,
        found: None,
        brackets: 0,
        is_quoted: false,
        is_comment: false,
    };
    for (i, byte) in text.iter().enumerate().skip(begin) {
        if let Some(found) = walk.pass(i, *byte) {
            return found;
        }
    }
    KeyLine { line, value: None }
}

impl<'a> Walk<'a> {
    // Comes to a byte. The line of the key is known at the end of its value, or of its table.
    fn pass(&mut self, i: usize, byte: u8) -> Option<KeyLine<'a>> {
        if byte == b'\n' {
            self.line = self.line.saturating_add(1);
            self.is_comment = false;
        } else if byte == b'"' && !self.is_comment {
            self.is_quoted = !self.is_quoted;
        } else if !self.is_comment && !self.is_quoted {
            return self.pass_sign(i, byte);
        }
        None
    }

    // The same of a byte that is neither in quotes nor in a comment.
    fn pass_sign(&mut self, i: usize, byte: u8) -> Option<KeyLine<'a>> {
        match byte {
            b'#' => self.is_comment = true,
            b'[' => self.brackets = self.brackets.saturating_add(1),
            b']' => self.brackets = self.brackets.saturating_sub(1),
            b'{' => self.begin_table(i),
            b'}' if self.is_inside => return Some(self.key_line_before(i)),
            b',' if self.is_inside && self.brackets <= 1 => {
                if self.found.is_some() {
                    return Some(self.key_line_before(i));
                }
                self.token = i.saturating_add(1);
            }
            b'=' if self.is_inside && self.found.is_none() => self.end_key(i),
            _ => {}
        }
        None
    }

    fn begin_table(&mut self, i: usize) {
        self.seen = self.seen.saturating_add(1);
        if self.seen == self.row {
            self.is_inside = true;
            self.header = self.line;
            self.token = i.saturating_add(1);
        }
    }

    fn end_key(&mut self, i: usize) {
        let key = self.text.get(self.token..i).unwrap_or(b"");
        if key.trim_ascii() == self.word {
            self.found = Some((self.line, i.saturating_add(1)));
        }
    }

    // The line of the key, whose value ends before this byte; that of its table without the key.
    fn key_line_before(&self, i: usize) -> KeyLine<'a> {
        match self.found {
            Some((line, start)) => KeyLine {
                line,
                value: Some(self.text.get(start..i).unwrap_or(b"").trim_ascii()),
            },
            None => KeyLine {
                line: self.header,
                value: None,
            },
        }
    }
}
