// What a visit is added with, as bytes.
ghost use Rattle.std.specs.Prelude.{◌≡◌, ◌++◌, ◌<◌, length, IfSome, OnOk};
ghost use Rattle.apron_rules.specs.Rules.{least_of};
ghost use Rattle.apron_base.specs.Histories.{Every};
ghost use Rattle.entry_bytes.specs.Fields.{Fits, field_bytes};
ghost use Rattle.entry_bytes.specs.Gives.{GivesReading};
ghost use Rattle.entry_bytes.specs.NewVisits.{is_off_of, new_visit_fields};
ghost use Rattle.entry_bytes.specs.Parsing.{parse_new_visit};
ghost use Rattle.std.specs.List.{flat_map};

use crate::faults::ReadFault;
use crate::keys::{parse_optional_key, push_optional_key};
use crate::reader::{Reader, in_form};
use crate::writing::{push_name, push_u8, push_u16, push_u32};
use apron_base::{Memory, Minute, TypeNo};
use apron_rules::Airport;
use visit_book::NewVisit;

// The greatest class of a visit.
const GREATEST_CLASS: u8 = 9;

pub(crate) fn push_new_visit(out: &mut Vec<u8>, new: &NewVisit) -> Result<(), Memory>
    ensures text { OnOk result
        (out.new.items ≡ out.old.items ++ flat_map field_bytes (new_visit_fields new.now)) }
    ensures fits { OnOk result (Every Fits (new_visit_fields new.now)) }
{
    push_name(out, &new.name)?;
    push_u16(out, new.kind.0)?;
    push_u8(out, new.class)?;
    push_u32(out, new.on)?;
    push_u32(out, new.off)?;
    push_optional_key(out, &new.arr)?;
    push_optional_key(out, &new.dep)
}

// The least minutes of a type on a stand.
fn least_of(airport: &Airport, kind: TypeNo) -> u32
    ensures is { result ≡ least_of airport.now kind }
{
    match airport.parts().types.as_slice().get(usize::from(kind.0)) {
        Some(row) => row.least,
        None => 0,
    }
}

fn is_off_of(airport: &Airport, kind: TypeNo, on: Minute, off: Minute) -> bool
    ensures is { result ≡ is_off_of airport.now kind.0 on off }
{
    off <= airport.minutes() && on <= off && off - on >= least_of(airport, kind)
}

#[tactic(auto, unfolding(crate::specs::Parsing::parse_new_visit))]
pub(crate) fn parse_new_visit(
    reader: &mut Reader<'_>,
    airport: &Airport,
) -> Result<NewVisit, ReadFault>
    ensures is { GivesReading result reader.new (parse_new_visit airport.now reader.old) }
{
    let name = reader.name()?;
    let at = reader.at();
    let kind = reader.u16()?;
    in_form(at, usize::from(kind) < airport.parts().types.len())?;
    let at = reader.at();
    let class = reader.byte()?;
    in_form(at, class <= GREATEST_CLASS)?;
    let at = reader.at();
    let on = reader.u32()?;
    in_form(at, on < airport.minutes())?;
    let at = reader.at();
    let off = reader.u32()?;
    let kind = TypeNo(kind);
    in_form(at, is_off_of(airport, kind, on, off))?;
    let arr = parse_optional_key(reader, airport)?;
    let dep = parse_optional_key(reader, airport)?;
    Ok(NewVisit {
        name,
        kind,
        class,
        on,
        off,
        arr,
        dep,
    })
}
