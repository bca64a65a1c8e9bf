// What there is at the end of a generated day.
ghost use Rattle.std.specs.Prelude.{◌≡◌, IfOk};
ghost use Rattle.generated_day.specs.Summaries.{summary_text};

use apron_base::{Listed, Memory};
use std::alloc::Global;

/// What there is at the end of a generated day. Its line is `visits V placed P unplaced U refused R
/// bumped B version N`.
#[derive(Clone, Copy, Debug, PartialEq, Eq)]
pub struct Summary {
    /// How many visits there are.
    pub visits: u32,
    /// How many of their parts are on a stand.
    pub placed: u32,
    /// How many of their parts are on no stand.
    pub unplaced: u32,
    /// How many commits were refused.
    pub refused: u32,
    /// How many parts lost their stands, as the replies to messages say.
    pub bumped: u32,
    /// The version of the plan.
    pub version: u32,
}

/// The line of a summary, with LF. `Err` if there is no memory.
pub fn summary_line(alloc: Global, summary: &Summary) -> Result<Listed<u8>, Memory>
    ensures text { IfOk result (λ line. line ≡ summary_text summary.now) }
{
    let line = format!(in alloc;
        "visits {} placed {} unplaced {} refused {} bumped {} version {}\n",
        summary.visits,
        summary.placed,
        summary.unplaced,
        summary.refused,
        summary.bumped,
        summary.version
    )?;
    Ok(Listed::from_vec(line.into_bytes()))
}
