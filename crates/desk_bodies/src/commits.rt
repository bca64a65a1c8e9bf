// The body of a commit.
ghost use Rattle.std.specs.Prelude.{◌≡◌, map, Some, None, Err, IfOk, IfSome, length, option_map};
ghost use Rattle.serde_json.specs.View.{view, items_view};
ghost use Rattle.desk_bodies.specs.Commits.{body_commit, json_commit, json_edit, json_edits, edits_within, json_part_number, json_visit_number, json_put, json_lift, json_cut, json_join};
ghost use Rattle.desk_bodies.specs.CommitsShown.{edit_shown, commit_shown, HasFewEdits};

use crate::BodyFault;
use crate::fields::{name_at, read_json, text_at, u8_at, u32_at};
use apron_base::{Listed, Memory, Name};
use serde_json::Value;
use std::alloc::Global;
use visit_book::MAX_EDITS;

/// An edit as a desk writes it, with its stand by name. Visits and parts are counted from 1, but
/// any number may be written.
#[derive(Debug, Drop)]
pub enum EditText {
    Put { visit: u32, part: u8, stand: String },
    Lift { visit: u32, part: u8 },
    /// At a minute from 00:00 UTC of the first day.
    Cut { visit: u32, part: u8, at: u32 },
    Join { visit: u32, part: u8 },
}

/// A commit as a desk writes it, with 1 to 64 edits.
#[derive(Debug, Drop)]
pub struct CommitText {
    pub desk: Name,
    /// The number of the desk's draft.
    pub draft: u32,
    /// The plan's version that the draft was made over.
    pub base: u32,
    pub edits: Listed<EditText>,
}

/// The commit of a body: `Form` if the body doesn't have the form, and `Memory` if there is no
/// memory.
pub fn read_commit(alloc: Global, body: &[u8]) -> Result<CommitText, BodyFault>
    ensures ok { IfOk result (λ c. body_commit body.now ≡ Some (commit_shown c)) }
    ensures few { IfOk result (λ c. HasFewEdits c.edits) }
    ensures form { result ≡ Err BodyFault.Form → body_commit body.now ≡ None }
{
    let value = read_json(alloc, body)?;
    match json_commit(alloc, &value)? {
        Some(commit) => Ok(commit),
        None => Err(BodyFault::Form),
    }
}

#[tactic(auto, unfolding(crate::specs::Commits::json_commit))]
fn json_commit(alloc: Global, value: &Value) -> Result<Option<CommitText>, Memory>
    ensures is { IfOk result (λ o. option_map commit_shown o ≡ json_commit (view value.now)) }
    ensures few { IfOk result (λ o. IfSome o (λ c. HasFewEdits c.edits)) }
{
    let (Some(desk), Some(draft), Some(base)) = (
        name_at(value, "desk"),
        u32_at(value, "draft"),
        u32_at(value, "base"),
    ) else {
        return Ok(None);
    };
    let Some(list) = value.get("edits").and_then(Value::as_array) else {
        return Ok(None);
    };
    match some_edits(alloc, list)? {
        Some(edits) => Ok(Some(CommitText {
            desk,
            draft,
            base,
            edits,
        })),
        None => Ok(None),
    }
}

/// The edits of a list of 1 to 64.
#[tactic(auto, unfolding(crate::specs::Commits::edits_within), using(crate::proofs::Facts::values_len))]
fn some_edits(alloc: Global, values: &[Value]) -> Result<Option<Listed<EditText>>, Memory>
    ensures are { IfOk result (λ o. option_map (λ es. map edit_shown es) o
        ≡ edits_within (items_view values.now)) }
    ensures few { IfOk result (λ o. IfSome o HasFewEdits) }
{
    if values.is_empty() || values.len() > MAX_EDITS {
        return Ok(None);
    }
    json_edits(alloc, values)
}

fn json_edits(alloc: Global, values: &[Value]) -> Result<Option<Listed<EditText>>, Memory>
    ensures are { IfOk result (λ o. option_map (λ es. map edit_shown es) o
        ≡ json_edits (items_view values.now)) }
    ensures count { IfOk result (λ o. IfSome o (λ es. length es ≡ length values.now)) }
{
    let mut edits = Vec::with_capacity(alloc, values.len())?;
    for value in values {
        match json_edit(alloc, value)? {
            Some(edit) => edits.push(edit)?,
            None => return Ok(None),
        }
    }
    Ok(Some(Listed::from_vec(edits)))
}

#[tactic(auto, unfolding(crate::specs::Commits::json_edit))]
fn json_edit(alloc: Global, value: &Value) -> Result<Option<EditText>, Memory>
    ensures is { IfOk result (λ o. option_map edit_shown o ≡ json_edit (view value.now)) }
{
    match (
        value.get("put"),
        value.get("lift"),
        value.get("cut"),
        value.get("join"),
    ) {
        (Some(object), None, None, None) => json_put(alloc, object),
        (None, Some(object), None, None) => Ok(json_lift(object)),
        (None, None, Some(object), None) => Ok(json_cut(object)),
        (None, None, None, Some(object)) => Ok(json_join(object)),
        _ => Ok(None),
    }
}

fn json_put(alloc: Global, object: &Value) -> Result<Option<EditText>, Memory>
    ensures is { IfOk result (λ o. option_map edit_shown o ≡ json_put (view object.now)) }
{
    let (Some(visit), Some(part), Some(stand)) = (
        json_visit_number(object),
        json_part_number(object),
        text_at(object, "stand"),
    ) else {
        return Ok(None);
    };
    let stand = String::from_str(alloc, stand)?;
    Ok(Some(EditText::Put { visit, part, stand }))
}

fn json_lift(object: &Value) -> Option<EditText>
    ensures is { option_map edit_shown result ≡ json_lift (view object.now) }
{
    let visit = json_visit_number(object)?;
    let part = json_part_number(object)?;
    Some(EditText::Lift { visit, part })
}

fn json_cut(object: &Value) -> Option<EditText>
    ensures is { option_map edit_shown result ≡ json_cut (view object.now) }
{
    let visit = json_visit_number(object)?;
    let part = json_part_number(object)?;
    let at = u32_at(object, "at")?;
    Some(EditText::Cut { visit, part, at })
}

fn json_join(object: &Value) -> Option<EditText>
    ensures is { option_map edit_shown result ≡ json_join (view object.now) }
{
    let visit = json_visit_number(object)?;
    let part = json_part_number(object)?;
    Some(EditText::Join { visit, part })
}

pub(crate) fn json_visit_number(object: &Value) -> Option<u32>
    ensures value { result ≡ json_visit_number (view object.now) }
{
    u32_at(object, "visit")
}

pub(crate) fn json_part_number(object: &Value) -> Option<u8>
    ensures value { result ≡ json_part_number (view object.now) }
{
    u8_at(object, "part")
}
