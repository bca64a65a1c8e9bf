// Which stands can exclude each other at all. All rules get stricter with the span, so only the
// widest type is tried, and only with unfolded wing tips.
ghost use Rattle.std.specs.Prelude.{◌≡◌, ◌<◌, ◌≤◌, ◌++◌, ◌∷◌, [], IfOk, IfErr, OnOk, Contains, IsSome, None, length, if◌then◌else◌};
ghost use Rattle.apron_base.specs.declared.numbers.StandNo.{StandNo};
ghost use Rattle.apron_base.specs.declared.numbers.TypeNo.{TypeNo};
ghost use Rattle.apron_rules.specs.declared.parts.AirportParts.{AirportParts};
ghost use Rattle.apron_rules.specs.declared.rules.Wing.{Wing};
ghost use Rattle.apron_rules.specs.Refusals.{airport_fault};
ghost use Rattle.apron_rules.specs.Rules.{breaks_with_wings};
ghost use Rattle.apron_rules.specs.Kept.{AreAllNeighbours, IsLinked};
ghost use Rattle.apron_rules.specs.Limits.{most_types};
ghost use Rattle.apron_rules.specs.Neighbours.{neighbours_of};
ghost use Rattle.apron_rules.specs.Widest.{IsWidest};

use crate::links::{StandLinks, StandPair, breaks_by_place};
use crate::{AirportFault, AirportParts, TypeRow, Wing};
use apron_base::{Listed, StandNo, TypeNo};
use std::alloc::Global;

/// The neighbours of each stand.
pub(crate) fn stand_neighbours(
    alloc: Global,
    parts: &AirportParts,
    links: &[StandLinks],
    pairs: &[Listed<StandPair>],
) -> Result<Vec<Listed<StandNo>>, AirportFault>
    requires linked { IsLinked parts.now links.now pairs.now }
    ensures all { IfOk result (λ neighbours. AreAllNeighbours parts.now neighbours.items) }
    ensures memory { IfErr result (λ fault. fault ≡ AirportFault.Memory) }
{
    let widest = widest_of(parts.types.as_slice());
    let mut all = Vec::new(alloc);
    for stand in 0..parts.stands.len() as u16 {
        let neighbours = neighbours_of(alloc, parts, links, pairs, widest, StandNo(stand))?;
        if all.push(neighbours).is_err() {
            return Err(AirportFault::Memory);
        }
    }
    Ok(all)
}

// The neighbours of one stand.
fn neighbours_of(
    alloc: Global,
    parts: &AirportParts,
    links: &[StandLinks],
    pairs: &[Listed<StandPair>],
    widest: TypeNo,
    stand: StandNo,
) -> Result<Listed<StandNo>, AirportFault>
    requires linked { IsLinked parts.now links.now pairs.now }
    requires stand { stand.0 < length parts.now.stands }
    requires widest { IsWidest parts.now.types widest }
    ensures neighbours { IfOk result (λ neighbours. neighbours ≡ neighbours_of parts.now stand) }
    ensures memory { IfErr result (λ fault. fault ≡ AirportFault.Memory) }
{
    let mut neighbours = Listed::new(alloc);
    for other in 0..parts.stands.len() as u16 {
        let other = StandNo(other);
        let rule = breaks_by_place(
            parts,
            links,
            pairs,
            stand,
            widest,
            Wing::Full,
            other,
            widest,
            Wing::Full,
        );
        push_neighbour_if(&mut neighbours, other, rule.is_some())?;
    }
    Ok(neighbours)
}

// Puts a stand last, if it is a neighbour.
fn push_neighbour_if(
    neighbours: &mut Listed<StandNo>,
    other: StandNo,
    is_neighbour: bool,
) -> Result<(), AirportFault>
    ensures ok { OnOk result
        (neighbours.new ≡ (if is_neighbour then neighbours.old ++ other ∷ [] else neighbours.old)) }
    ensures memory { IfErr result (λ fault. fault ≡ AirportFault.Memory) }
{
    if is_neighbour && neighbours.push(other).is_err() {
        return Err(AirportFault::Memory);
    }
    Ok(())
}

// The first of the types with the greatest span.
fn widest_of(types: &[TypeRow]) -> TypeNo
    requires some { 0 < length types.now }
    requires few { length types.now ≤ most_types }
    ensures widest { IsWidest types.now result }
{
    let mut widest = 0;
    for index in 0..types.len() {
        if types[index].span > types[widest].span {
            widest = index;
        }
    }
    TypeNo(widest as u16)
}

/// The neighbours of a stand of an airport are all the stands with which some types have a rule,
/// whatever their wing tips, and no others.
pub fn neighbours_are_all_that_break()
    ensures all { (airport : AirportParts) (s : StandNo) (t : TypeNo) (w : Wing) (s2 : StandNo)
        (t2 : TypeNo) (w2 : Wing)
        → airport_fault airport ≡ None
        → IsSome (breaks_with_wings airport s t w s2 t2 w2)
        → Contains (neighbours_of airport s) s2 }
    ensures no_others { (airport : AirportParts) (s s2 : StandNo)
        → Contains (neighbours_of airport s) s2
        → (t t2 : TypeNo) × IsSome (breaks_with_wings airport s t Wing.Full s2 t2 Wing.Full) }
{}
