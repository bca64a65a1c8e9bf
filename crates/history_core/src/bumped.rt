// The parts that lost their stands by an accepted command.
ghost use Rattle.std.specs.Prelude.{◌≡◌};
ghost use Rattle.history_core.specs.Bumped.{bumped_in};

use apron_base::{Listed, PartId};
use desk_words::replies::ReplyBody;
use std::alloc::Global;

/// The parts that a reply says to have lost their stands. It takes no memory.
pub(crate) fn bumped_in(alloc: Global, told: ReplyBody) -> Listed<PartId>
    ensures is { result ≡ bumped_in told }
{
    match told {
        ReplyBody::Message { bumped, .. } | ReplyBody::Reported { bumped } => bumped,
        _ => Listed::new(alloc),
    }
}
