// Numbers of 32 bits.
ghost use Rattle.std.specs.Prelude.{◌≡◌};
ghost use Rattle.desk_http.specs.Numbers.{within_32_bits as within_lem};

/// The number, if it has 32 bits.
pub(crate) fn within_32_bits(number: u64) -> Option<u32>
    ensures value { result ≡ within_lem number }
{
    if number <= u32::MAX as u64 {
        Some(number as u32)
    } else {
        None
    }
}
