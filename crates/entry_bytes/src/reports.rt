// Reports and cancels as bytes.
ghost use Rattle.std.specs.Prelude.{◌≡◌, ◌++◌, OnOk};
ghost use Rattle.std.specs.Int.{w32};
ghost use Rattle.std.specs.List.{flat_map};
ghost use Rattle.apron_base.specs.Histories.{Every};
ghost use Rattle.entry_bytes.specs.Fields.{Fits, number_field, field_bytes};
ghost use Rattle.entry_bytes.specs.Gives.{GivesReading};
ghost use Rattle.entry_bytes.specs.Parsing.{parse_cancel, parse_event, parse_off, parse_on, parse_report};
ghost use Rattle.entry_bytes.specs.Reports.{event_fields, report_fields};

use crate::faults::ReadFault;
use crate::reader::{Reader, in_form};
use crate::writing::{push_u8, push_u16, push_u32};
use apron_base::{Memory, Name, StandNo, VisitNo};
use apron_rules::Airport;
use desk_asks::DeskReport;
use visit_book::Event;

pub(crate) fn push_cancel(out: &mut Vec<u8>, visit: VisitNo) -> Result<(), Memory>
    ensures text { OnOk result (out.new.items ≡ out.old.items ++ field_bytes (number_field w32 visit.0)) }
    ensures fits { Fits (number_field w32 visit.0) }
{
    push_u32(out, visit.0)
}

pub(crate) fn push_report(out: &mut Vec<u8>, report: &DeskReport) -> Result<(), Memory>
    ensures text { OnOk result
        (out.new.items ≡ out.old.items ++ flat_map field_bytes (report_fields report.now)) }
    ensures fits { OnOk result (Every Fits (report_fields report.now)) }
{
    push_u32(out, report.visit.0)?;
    push_event(out, &report.event)
}

fn push_event(out: &mut Vec<u8>, event: &Event) -> Result<(), Memory>
    ensures text { OnOk result
        (out.new.items ≡ out.old.items ++ flat_map field_bytes (event_fields event.now)) }
    ensures fits { OnOk result (Every Fits (event_fields event.now)) }
{
    match *event {
        Event::On {
            part,
            stand,
            minute,
        } => {
            push_u8(out, 1)?;
            push_u8(out, part)?;
            push_u16(out, stand.0)?;
            push_u32(out, minute)
        }
        Event::Off { minute } => {
            push_u8(out, 2)?;
            push_u32(out, minute)
        }
    }
}

#[tactic(auto, unfolding(crate::specs::Parsing::parse_on))]
fn parse_on(reader: &mut Reader<'_>, airport: &Airport) -> Result<Event, ReadFault>
    ensures is { GivesReading result reader.new (parse_on airport.now reader.old) }
{
    let part = reader.byte()?;
    let at = reader.at();
    let stand = reader.u16()?;
    in_form(at, usize::from(stand) < airport.parts().stands.len())?;
    let stand = StandNo(stand);
    let minute = reader.u32()?;
    Ok(Event::On {
        part,
        stand,
        minute,
    })
}

#[tactic(auto, unfolding(crate::specs::Parsing::parse_off))]
fn parse_off(reader: &mut Reader<'_>) -> Result<Event, ReadFault>
    ensures is { GivesReading result reader.new (parse_off reader.old) }
{
    let minute = reader.u32()?;
    Ok(Event::Off { minute })
}

#[tactic(auto, unfolding(crate::specs::Parsing::parse_event))]
fn parse_event(reader: &mut Reader<'_>, airport: &Airport) -> Result<Event, ReadFault>
    ensures is { GivesReading result reader.new (parse_event airport.now reader.old) }
{
    let at = reader.at();
    match reader.byte()? {
        1 => parse_on(reader, airport),
        2 => parse_off(reader),
        _ => Err(ReadFault::BadField(at)),
    }
}

#[tactic(auto, unfolding(crate::specs::Parsing::parse_report))]
pub(crate) fn parse_report(
    reader: &mut Reader<'_>,
    airport: &Airport,
    desk: Name,
) -> Result<DeskReport, ReadFault>
    ensures is { GivesReading result reader.new (parse_report airport.now desk reader.old) }
{
    let visit = VisitNo(reader.u32()?);
    let event = parse_event(reader, airport)?;
    Ok(DeskReport { desk, visit, event })
}

#[tactic(auto, unfolding(crate::specs::Parsing::parse_cancel))]
pub(crate) fn parse_cancel(reader: &mut Reader<'_>) -> Result<VisitNo, ReadFault>
    ensures is { GivesReading result reader.new (parse_cancel reader.old) }
{
    let visit = reader.u32()?;
    Ok(VisitNo(visit))
}
