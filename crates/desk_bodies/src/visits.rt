// The body of a visit that is to be added.
ghost use Rattle.std.specs.Prelude.{◌≡◌, ◌≤◌, Some, None, Err, IfOk, IfSome, codes, option_map};
ghost use Rattle.serde_json.specs.View.{view};
ghost use Rattle.visit_book.specs.NewVisits.{HasFlight};
ghost use Rattle.visit_book.specs.WellFormed.{greatest_class};
ghost use Rattle.desk_bodies.specs.Fields.{number_at};
ghost use Rattle.desk_bodies.specs.Visits.{body_visit, json_key, json_key_at, json_visit};
ghost use Rattle.desk_bodies.specs.VisitsShown.{HasForm, visit_shown};

use crate::BodyFault;
use crate::fields::{name_at, number_at, read_json, text_at, u8_at, u32_at};
use apron_base::{Memory, Minute, Name};
use mvt_grammar::read_flight;
use serde_json::Value;
use std::alloc::Global;
use visit_book::Key;

// The greatest class of a visit.
const GREATEST_CLASS: u64 = 9;

/// A visit as a desk writes it, with its type by name.
#[derive(Debug, Drop)]
pub struct VisitText {
    pub name: Name,
    /// The text that names the type.
    pub kind: String,
    /// 0 to 9.
    pub class: u8,
    /// The scheduled minute on block, from 00:00 UTC of the first day; any number may be written.
    pub on: Minute,
    /// The scheduled minute off block, in the same way.
    pub off: Minute,
    /// The flight that the visit comes by, of any day.
    pub arr: Option<Key>,
    /// The flight that the visit leaves by, of any day.
    pub dep: Option<Key>,
}

/// The visit of a body: `Form` if the body doesn't have the form, and `Memory` if there is no
/// memory.
pub fn read_visit(alloc: Global, body: &[u8]) -> Result<VisitText, BodyFault>
    ensures ok { IfOk result (λ visit. body_visit body.now ≡ Some (visit_shown visit)) }
    ensures has_form { IfOk result HasForm }
    ensures form { result ≡ Err BodyFault.Form → body_visit body.now ≡ None }
{
    let value = read_json(alloc, body)?;
    match json_visit(alloc, &value)? {
        Some(visit) => Ok(visit),
        None => Err(BodyFault::Form),
    }
}

#[tactic(auto, unfolding(crate::specs::Visits::json_visit))]
fn json_visit(alloc: Global, value: &Value) -> Result<Option<VisitText>, Memory>
    ensures is { IfOk result (λ o. option_map visit_shown o ≡ json_visit (view value.now)) }
    ensures has_form { IfOk result (λ o. IfSome o HasForm) }
{
    let (Some(name), Some(kind), Some(class)) = (
        name_at(value, "name"),
        text_at(value, "type"),
        class(value),
    ) else {
        return Ok(None);
    };
    let (Some(on), Some(off)) = (u32_at(value, "on"), u32_at(value, "off")) else {
        return Ok(None);
    };
    let (Some(arr), Some(dep)) = (json_key_at(value, "arr"), json_key_at(value, "dep")) else {
        return Ok(None);
    };
    let kind = String::from_str(alloc, kind)?;
    Ok(Some(VisitText {
        name,
        kind,
        class,
        on,
        off,
        arr,
        dep,
    }))
}

fn class(object: &Value) -> Option<u8>
    ensures value { result ≡ number_at (codes "class") greatest_class (view object.now) }
    ensures most { IfSome result (λ class. class ≤ greatest_class) }
{
    let class = number_at(object, "class", GREATEST_CLASS)?;
    Some(class as u8)
}

// The key under a name; `Some(None)` if it is null or missing. `None` if it has another form.
#[tactic(auto, using(crate::proofs::Keys::null_key, crate::proofs::Keys::other_key))]
fn json_key_at(object: &Value, name: &str) -> Option<Option<Key>>
    ensures value { result ≡ json_key_at name.now (view object.now) }
    ensures flight { IfSome result (λ key. IfSome key HasFlight) }
{
    match object.get(name) {
        Some(key) if !key.is_null() => Some(Some(json_key(key)?)),
        _ => Some(None),
    }
}

fn json_key(object: &Value) -> Option<Key>
    ensures value { result ≡ json_key (view object.now) }
    ensures flight { IfSome result HasFlight }
{
    let flight = read_flight(text_at(object, "flight")?.as_bytes())?;
    let day = u8_at(object, "day")?;
    Some(Key { flight, day })
}
