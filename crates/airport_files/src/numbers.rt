// Numbers of digits.
ghost use Rattle.std.specs.Prelude.{◌≡◌};
ghost use Rattle.airport_files.specs.Types.{number_named};

use apron_base::number_of;

/// The most digits of a number of a type file.
pub(crate) const MAX_NUMBER_DIGITS: usize = 9;

/// The number that a text of 1 to 9 digits writes.
pub(crate) fn number(text: &[u8]) -> Option<u32>
    ensures value { result ≡ number_named text.now }
{
    match number_of(text, MAX_NUMBER_DIGITS) {
        Some(number) => Some(number as u32),
        None => None,
    }
}
