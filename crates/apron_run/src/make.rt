// The word `make`.
ghost use Rattle.std.specs.Prelude.{◌≡◌, ◌≤◌, IfOk};
ghost use Rattle.generated_day.specs.Days.{MakesDay, most_made};
ghost use Rattle.generated_day.specs.Summaries.{summary_text};
ghost use Rattle.generated_day.specs.declared.summary.Summary.{Summary};

use apron_base::{Listed, Memory};
use generated_day::{make_day, summary_line};
use std::alloc::Global;

/// The summary of a generated day of this many visits, 1 to 5,000.
pub(crate) fn day_line(alloc: Global, visits: u32) -> Result<Listed<u8>, Memory>
    requires some { 1 ≤ visits }
    requires few { visits ≤ most_made }
    ensures line { IfOk result
        (λ line. (summary : Summary) × MakesDay visits summary × (line ≡ summary_text summary)) }
{
    let summary = make_day(alloc, visits)?;
    summary_line(alloc, &summary)
}
