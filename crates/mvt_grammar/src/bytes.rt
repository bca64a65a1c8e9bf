// Capitals and digits, and texts of fixed forms made of them.
ghost use Rattle.std.specs.Prelude.{◌≡◌, ◌==◌, ◌+◌, ◌<◌, length, option_map, position, slice_index, IfSome};
ghost use Rattle.std.specs.List.{list_all};
ghost use Rattle.mvt_grammar.specs.Bytes.{is_capital, is_digit, is_station, two_digits, split_once};

pub(crate) fn is_capital(byte: u8) -> bool
    ensures is { result ≡ is_capital byte }
{
    byte.is_ascii_uppercase()
}

pub(crate) fn is_digit(byte: u8) -> bool
    ensures is { result ≡ is_digit byte }
{
    byte.is_ascii_digit()
}

pub(crate) fn are_capitals(text: &[u8]) -> bool
    ensures is { result ≡ list_all is_capital text.now }
{
    text.iter().all(|byte| is_capital(*byte))
}

pub(crate) fn are_digits(text: &[u8]) -> bool
    ensures is { result ≡ list_all is_digit text.now }
{
    text.iter().all(|byte| is_digit(*byte))
}

pub(crate) fn third_is_capital(text: &[u8]) -> bool
    ensures is { result ≡ is_capital (slice_index text.now 2) }
{
    match text.get(2) {
        Some(third) => is_capital(*third),
        None => false,
    }
}

// Three capitals.
pub(crate) fn is_station(text: &[u8]) -> bool
    ensures is { result ≡ is_station text.now }
{
    text.len() == 3 && are_capitals(text)
}

// The number that a text of two digits writes.
pub(crate) fn two_digits(text: &[u8]) -> Option<u8>
    ensures value { result ≡ two_digits text.now }
{
    if text.len() == 2 && are_digits(text) {
        Some(10 * (text[0] - b'0') + (text[1] - b'0'))
    } else {
        None
    }
}

// The place of the first such byte.
fn place_of_byte(text: &[u8], byte: u8) -> Option<usize>
    ensures place { result ≡ position (λ b. b == byte) text.now }
    ensures inside { IfSome result (λ at. at < length text.now) }
{
    text.iter().position(|b| *b == byte)
}

// The text before the first such byte and the text after it, if there is one.
pub(crate) fn split_once(text: &[u8], byte: u8) -> Option<(&[u8], &[u8])>
    ensures parts { option_map (λ parts. (parts.0.now, parts.1.now)) result
        ≡ split_once byte text.now }
    ensures lengths { IfSome result
        (λ parts. length parts.0.now + 1 + length parts.1.now ≡ length text.now) }
{
    match place_of_byte(text, byte) {
        Some(at) => Some((&text[..at], &text[at + 1..])),
        None => None,
    }
}
