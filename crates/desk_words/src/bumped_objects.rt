// What came of a message or a report, as replies give it.
#![tactic(auto, unfolding(serde_json::proofs::OnLiterals::serde_json_on_literals))]

ghost use Rattle.std.specs.Prelude.{◌≡◌, ◌++◌, OnOk};
ghost use Rattle.serde_json.specs.Written.{compact_text};
ghost use Rattle.desk_words.specs.Replies.{message_data, reported_data};

use crate::push_object;
use apron_base::{Listed, Memory, PartId, VisitNo};

pub(crate) fn push_message(
    bytes: &mut Vec<u8>,
    bumped: &Listed<PartId>,
    visit: Option<VisitNo>,
    version: u32,
) -> Result<(), Memory>
    ensures text { OnOk result
        (bytes.new.items
        ≡ bytes.old.items ++ compact_text (message_data bumped.now visit version)) }
{
    push_object!(bytes, &(), { "bumped": *bumped, "version": version, "visit": visit })
}

pub(crate) fn push_reported(
    bytes: &mut Vec<u8>,
    bumped: &Listed<PartId>,
    version: u32,
) -> Result<(), Memory>
    ensures text { OnOk result
        (bytes.new.items ≡ bytes.old.items ++ compact_text (reported_data bumped.now version)) }
{
    push_object!(bytes, &(), { "bumped": *bumped, "version": version })
}
