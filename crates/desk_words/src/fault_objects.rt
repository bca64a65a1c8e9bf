// Why a command is refused, as replies give it.
#![tactic(auto, unfolding(serde_json::proofs::OnLiterals::serde_json_on_literals))]

ghost use Rattle.std.specs.Prelude.{◌≡◌, ◌≢◌, ◌++◌, true, OnOk};
ghost use Rattle.serde_json.specs.Written.{compact_text};
ghost use Rattle.desk_words.specs.FaultObjects.{by_data, denial_word, edit_data, fault_data, other_name_data, refused_data};
ghost use Rattle.desk_words.specs.JsonText.{is_plain};

use crate::json_text::Json;
use crate::push_object;
use crate::replies::Denial;
use apron_base::{Memory, VisitNo};
use apron_rules::UnfitBy;
use visit_book::EditFault;

/// Writes a refusal at the end, as `{"error":WORD,"version":N}`. At `Err` memory has run out.
pub fn push_refused(bytes: &mut Vec<u8>, error: &str, version: u32) -> Result<(), Memory>
    requires plain { is_plain error.now ≡ true }
    ensures text { OnOk result
        (bytes.new.items ≡ bytes.old.items ++ compact_text (refused_data error.now version)) }
{
    push_object!(bytes, &(), { "error": error, "version": version })
}

// A visit of this number has the name, and was added with other data.
pub(crate) fn push_other_name(
    bytes: &mut Vec<u8>,
    visit: VisitNo,
    version: u32,
) -> Result<(), Memory>
    ensures text { OnOk result
        (bytes.new.items ≡ bytes.old.items ++ compact_text (other_name_data visit version)) }
{
    push_object!(bytes, &(), { "error": "name", "version": version, "visit": visit })
}

pub(crate) fn push_fault(bytes: &mut Vec<u8>, fault: EditFault, version: u32) -> Result<(), Memory>
    requires fault { fault ≢ EditFault.Memory }
    ensures text { OnOk result
        (bytes.new.items ≡ bytes.old.items ++ compact_text (fault_data fault version)) }
{
    match fault {
        EditFault::UnknownVisit { edit } => push_edit_fault(bytes, edit, "unknown", version),
        EditFault::Overtaken {
            edit,
            visit,
            edited,
        } => push_object!(bytes, &(), {
            "edit": edit,
            "edited": edited,
            "error": "overtaken",
            "version": version,
            "visit": visit,
        }),
        EditFault::Gone { edit } => push_edit_fault(bytes, edit, "gone", version),
        EditFault::NoSuchPart { edit } => push_edit_fault(bytes, edit, "part", version),
        EditFault::OnBlock { edit } => push_edit_fault(bytes, edit, "onblock", version),
        EditFault::BadCut { edit } => push_edit_fault(bytes, edit, "cut", version),
        EditFault::BadJoin { edit } => push_edit_fault(bytes, edit, "join", version),
        EditFault::Unfit { edit, by } => push_object!(bytes, &(), {
            "by": by,
            "edit": edit,
            "error": "unfit",
            "version": version,
        }),
        EditFault::Clash(clash) => push_object!(bytes, &(), {
            "a": clash.a,
            "b": clash.b,
            "error": "clash",
            "minute": clash.minute,
            "rule": clash.rule,
            "version": version,
        }),
        EditFault::Memory => unreachable!(),
    }
}

fn push_edit_fault(bytes: &mut Vec<u8>, edit: u8, error: &str, version: u32) -> Result<(), Memory>
    requires plain { is_plain error.now ≡ true }
    ensures text { OnOk result
        (bytes.new.items ≡ bytes.old.items ++ compact_text (edit_data edit error.now version)) }
{
    push_object!(bytes, &(), { "edit": edit, "error": error, "version": version })
}

impl<At> Json<At> for UnfitBy {
    ghost json = { λ _ by. by_data by };

    fn push(&self, bytes: &mut Vec<u8>, at: &At) -> Result<(), Memory> {
        match self {
            UnfitBy::Letter => "letter".push(bytes, at),
            UnfitBy::Object(object) => push_object!(bytes, at, { "object": *object }),
        }
    }
}

// The word for why a report or a cancel is refused.
pub(crate) fn denial_word(why: Denial) -> &'static str
    ensures text { result.now ≡ denial_word why }
    ensures plain { is_plain result.now ≡ true }
{
    match why {
        Denial::Unknown => "unknown",
        Denial::Gone => "gone",
        Denial::NoSuchPart => "part",
        Denial::Time => "time",
        Denial::OnBlock => "onblock",
    }
}
