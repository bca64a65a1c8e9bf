// The bodies of a report and of a cancel.
ghost use Rattle.std.specs.Prelude.{◌≡◌, Some, None, Err, IfOk, codes, option_map};
ghost use Rattle.serde_json.specs.Find.{get};
ghost use Rattle.serde_json.specs.View.{view};
ghost use Rattle.desk_bodies.specs.Reports.{body_cancel, body_report, json_off, json_on, json_report, only_event};
ghost use Rattle.desk_bodies.specs.ReportsShown.{event_shown, report_shown};

use crate::BodyFault;
use crate::commits::{json_part_number, json_visit_number};
use crate::fields::{read_json, text_at, u32_at};
use apron_base::{Memory, Minute};
use serde_json::Value;
use std::alloc::Global;

/// What happened to a visit, as a desk writes it.
#[derive(Debug, Drop)]
pub struct ReportText {
    /// The visit's number; any number may be written.
    pub visit: u32,
    pub event: EventText,
}

/// What happened, with the stand by name.
#[derive(Debug, Drop)]
pub enum EventText {
    /// It came on block with a part at a minute from 00:00 UTC of the first day, on the stand that
    /// the text names.
    On {
        part: u8,
        stand: String,
        minute: Minute,
    },
    /// It went off block at a minute.
    Off {
        minute: Minute,
    },
}

/// The report of a body: `Form` if the body doesn't have the form, and `Memory` if there is no
/// memory.
pub fn read_report(alloc: Global, body: &[u8]) -> Result<ReportText, BodyFault>
    ensures ok { IfOk result (λ report. body_report body.now ≡ Some (report_shown report)) }
    ensures form { result ≡ Err BodyFault.Form → body_report body.now ≡ None }
{
    let value = read_json(alloc, body)?;
    match json_report(alloc, &value)? {
        Some(report) => Ok(report),
        None => Err(BodyFault::Form),
    }
}

/// The number of the visit that a body cancels: `Form` if the body doesn't have the form, and
/// `Memory` if there is no memory.
pub fn read_cancel(alloc: Global, body: &[u8]) -> Result<u32, BodyFault>
    ensures ok { IfOk result (λ visit. body_cancel body.now ≡ Some visit) }
    ensures form { result ≡ Err BodyFault.Form → body_cancel body.now ≡ None }
{
    let value = read_json(alloc, body)?;
    match json_visit_number(&value) {
        Some(visit) => Ok(visit),
        None => Err(BodyFault::Form),
    }
}

#[tactic(auto, unfolding(crate::specs::Reports::json_report))]
fn json_report(alloc: Global, value: &Value) -> Result<Option<ReportText>, Memory>
    ensures is { IfOk result (λ o. option_map report_shown o ≡ json_report (view value.now)) }
{
    let Some(visit) = json_visit_number(value) else {
        return Ok(None);
    };
    match only_event(alloc, value)? {
        Some(event) => Ok(Some(ReportText { visit, event })),
        None => Ok(None),
    }
}

// The event if exactly one of the two keys is there.
fn only_event(alloc: Global, value: &Value) -> Result<Option<EventText>, Memory>
    ensures is { IfOk result (λ o. option_map event_shown o
        ≡ only_event (get (codes "on") (view value.now)) (get (codes "off") (view value.now))) }
{
    match (value.get("on"), value.get("off")) {
        (Some(object), None) => json_on(alloc, object),
        (None, Some(object)) => Ok(json_off(object)),
        _ => Ok(None),
    }
}

fn json_on(alloc: Global, object: &Value) -> Result<Option<EventText>, Memory>
    ensures is { IfOk result (λ o. option_map event_shown o ≡ json_on (view object.now)) }
{
    let (Some(part), Some(stand), Some(minute)) = (
        json_part_number(object),
        text_at(object, "stand"),
        u32_at(object, "minute"),
    ) else {
        return Ok(None);
    };
    let stand = String::from_str(alloc, stand)?;
    Ok(Some(EventText::On {
        part,
        stand,
        minute,
    }))
}

fn json_off(object: &Value) -> Option<EventText>
    ensures is { option_map event_shown result ≡ json_off (view object.now) }
{
    let minute = u32_at(object, "minute")?;
    Some(EventText::Off { minute })
}
