// What follows from the definitions alone.
ghost use Rattle.std.specs.Prelude.{◌≡◌, ◌<◌, ◌↔◌, [], ℕ, List, AllPairs, Contains, None, Some};
ghost use Rattle.apron_base.specs.declared.numbers.VisitNo.{VisitNo};
ghost use Rattle.apron_base.specs.declared.slot.Slot.{Slot};
ghost use Rattle.apron_rules.specs.declared.parts.AirportParts.{AirportParts};
ghost use Rattle.apron_rules.specs.Clash.{IsBefore, rule_at};
ghost use Rattle.clash_check.specs.Clear.{HasPartsOnce, IsClear};
ghost use Rattle.apron_rules.specs.declared.rules.Meeting.{Meeting};
ghost use Rattle.clash_check.specs.Meetings.{by_part, meeting};
ghost use Rattle.stand_index.specs.Slots.{StandSlots};

/// Slots meet at the first minute at which they clash, and not at all if they never clash.
pub fn meetings_are_first()
    ensures first { (airport : AirportParts) (slot other : Slot) (at : Meeting)
        → meeting airport slot other ≡ Some at
        → (rule_at airport slot other at.minute ≡ Some at.rule)
        × ((minute : ℕ) → minute < at.minute → rule_at airport slot other minute ≡ None) }
    ensures never { (airport : AirportParts) (slot other : Slot) (minute : ℕ)
        → meeting airport slot other ≡ None
        → rule_at airport slot other minute ≡ None }
    ensures either_way { (airport : AirportParts) (slot other : Slot)
        → meeting airport slot other ≡ meeting airport other slot }
{}

/// Slots of which no two are of the same part have exactly one order by their parts.
pub fn order_by_part_is_one()
    ensures one { (slots ordered : List Slot)
        → HasPartsOnce slots
        → AllPairs (λ slot other. IsBefore slot.part other.part) ordered
        → ((slot : Slot) → Contains slots slot ↔ Contains ordered slot)
        → by_part slots ≡ ordered }
{}

/// An index in which each clash is between two actual slots stays so without the slots of any
/// visits.
pub fn clear_is_clear_without_any()
    ensures clear { (airport : AirportParts) (index : List StandSlots) (without : List VisitNo)
        → IsClear airport index []
        → IsClear airport index without }
{}
