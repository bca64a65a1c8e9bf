// Numbers that are written in digits.
ghost use Rattle.std.specs.Prelude.{◌≡◌, ◌<◌, ◌≤◌, ◌^◌, IfSome};
ghost use Rattle.apron_base.specs.Digits.{number_of};

/// The most digits that a number is read from.
pub const MAX_DIGITS: usize = 10;

/// The number that a text of 1 to `most` digits writes, which is below `10^most`. `None` for every
/// other text.
#[tactic(auto, unfolding(crate::specs::Digits::number_of))]
pub fn number_of(text: &[u8], most: usize) -> Option<u64>
    requires most { most ≤ MAX_DIGITS }
    ensures number { result ≡ number_of text.now most }
    ensures small { IfSome result (λ number. number < 10 ^ most) }
{
    if text.is_empty() || text.len() > most {
        return None;
    }
    let mut number = 0u64;
    for byte in text {
        if !byte.is_ascii_digit() {
            return None;
        }
        number = number * 10 + u64::from(*byte - b'0');
    }
    Some(number)
}
