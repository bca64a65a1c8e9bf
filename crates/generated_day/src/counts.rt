// Counts of a generated day.
ghost use Rattle.std.specs.Prelude.{◌≡◌, ◌+◌, IfOk};

use apron_base::Memory;

/// A count that grows. A day has far too little to overflow a count of 32 bits. Overflow is
/// answered as a lack of memory, so that nothing has to be proved about how much there can be.
pub(crate) fn more(count: u32, by: usize) -> Result<u32, Memory>
    ensures sum { IfOk result (λ sum. sum ≡ count + by) }
{
    match u32::try_from(by) {
        Ok(by) => match count.checked_add(by) {
            Some(sum) => Ok(sum),
            None => Err(Memory),
        },
        Err(_) => Err(Memory),
    }
}
