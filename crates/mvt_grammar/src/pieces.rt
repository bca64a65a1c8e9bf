// A text cut into lines, and a line into words, as they come.
ghost use Rattle.std.specs.Prelude.{◌≡◌, ◌≤◌, [], ◌∷◌, ◌+◌, ◌<◌, ◌^◌, length, Some, MatchOption};
ghost use Rattle.mvt_grammar.specs.Pieces.{without_cr, without_spaces};

use crate::bytes::split_once;

// Bytes of a text, and the place of the first of them, counted from 0.
#[derive(Clone, Copy)]
pub(crate) struct Span<'a> {
    pub at: u32,
    pub text: &'a [u8],
    ghost inside: { at + length text.now < 2 ^ 32 },
}

impl<'a> Span<'a> {
    ghost use Rattle.mvt_grammar.specs.Spans.{piece_of, left_cut, rest_lines, left_words};
    ghost use Rattle.mvt_grammar.specs.Pieces.{split_at};

    // The piece before the first such byte, or the whole, and what is left after that byte.
    fn cut(self, byte: u8) -> (Span<'a>, Option<Span<'a>>)
        ensures value { split_at byte (piece_of self.entry)
            ≡ piece_of result.0 ∷ left_cut byte result.1 }
    {
        match split_once(self.text, byte) {
            Some((front, rest)) => {
                let behind = self.at + front.len() as u32 + 1;
                let front = Span {
                    at: self.at,
                    text: front,
                };
                let rest = Span {
                    at: behind,
                    text: rest,
                };
                (front, Some(rest))
            }
            None => (self, None),
        }
    }

    // The first line, and what is left after it.
    pub fn line(self) -> (Span<'a>, Option<Span<'a>>)
        ensures value { rest_lines (Some self.entry) ≡ piece_of result.0 ∷ rest_lines result.1 }
    {
        let (line, left) = self.cut(b'\n');
        let line = Span {
            at: line.at,
            text: without_spaces(without_cr(line.text)),
        };
        (line, left)
    }

    // The first word of what is left of a line, and what is left after it. `None` if there is no
    // word.
    pub fn word(line: Option<Span<'a>>) -> Option<(Span<'a>, Option<Span<'a>>)>
        ensures value { MatchOption result (left_words line.entry ≡ [])
            (λ found. left_words line.entry ≡ piece_of found.0 ∷ left_words found.1) }
    {
        let mut left = line;
        while let Some(span) = left {
            let (word, rest) = span.cut(b' ');
            if !word.text.is_empty() {
                return Some((word, rest));
            }
            left = rest;
        }
        None
    }
}

fn without_cr(text: &[u8]) -> &[u8]
    ensures value { result.now ≡ without_cr text.now }
    ensures shorter { length result.now ≤ length text.now }
{
    if !text.is_empty() && text[text.len() - 1] == b'\r' {
        &text[..text.len() - 1]
    } else {
        text
    }
}

fn without_spaces(text: &[u8]) -> &[u8]
    ensures value { result.now ≡ without_spaces text.now }
    ensures shorter { length result.now ≤ length text.now }
{
    let mut end = text.len();
    while end > 0 && text[end - 1] == b' ' {
        end -= 1;
    }
    &text[..end]
}
