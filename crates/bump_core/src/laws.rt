// Laws of settling.
ghost use Rattle.std.specs.Prelude.{◌≡◌, ◌≤◌, ◌<◌, ◌+◌, ◌↔◌, ℕ, true, false, All, Contains, IfSome, List, Option, Some, length, map};
ghost use Rattle.apron_rules.specs.declared.parts.AirportParts.{AirportParts};
ghost use Rattle.apron_rules.specs.Clash.{IsSound};
ghost use Rattle.apron_base.specs.declared.numbers.StandNo.{StandNo};
ghost use Rattle.visit_book.specs.declared.visits.Bump.{Bump};
ghost use Rattle.visit_book.specs.declared.visits.Part.{Part};
ghost use Rattle.visit_book.specs.declared.visits.Place.TheVariants.{Planned, Unplaced};
ghost use Rattle.visit_book.specs.declared.visits.Visit.{Visit};
ghost use Rattle.visit_book.specs.Numbers.{IsNumbered, with_visit};
ghost use Rattle.visit_book.specs.Slots.{slot_on, slots_of};
ghost use Rattle.visit_book.specs.WellFormed.{IsWellFormed};
ghost use Rattle.plan_core.specs.PlanState.{IsPlan, PlanState, version_limit};
ghost use Rattle.bump_core.specs.declared.ranks.Ranked.{Ranked};
ghost use Rattle.bump_core.specs.Kept.{StaysBut};
ghost use Rattle.bump_core.specs.Near.{meets, others, settled_near};
ghost use Rattle.bump_core.specs.Ranks.{Stay, all_parts_on, blocks, blocks_before, kept_of, parts_on, ranked_part};
ghost use Rattle.bump_core.specs.Records.{IsRecordOf};
ghost use Rattle.bump_core.specs.Settle.{settle, settled_place, settled_visit};
ghost use Rattle.bump_core.specs.Settled.{IsChanged, with_changed, with_settled};

/// There is exactly one way for parts to stay: each that is in place in fact stays, and each planned
/// one, unless a better one that stays clashes with it.
pub fn parts_stay_in_one_way()
    ensures kept { (airport : AirportParts) (parts kept : List Ranked)
        → Stay airport parts kept ↔ (kept ≡ kept_of airport parts) }
    ensures settled { (airport : AirportParts) (entry : ℕ) (visits : List Visit)
        → Stay airport (all_parts_on airport visits)
        (all_parts_on airport (settle airport entry visits)) }
{}

/// Visits are the settling of others exactly if they are the others settled against the parts that
/// they themselves have on stands.
pub fn settling_is_one()
    ensures one { (airport : AirportParts) (entry : ℕ) (visits new : List Visit)
        → (new ≡ map (settled_visit airport entry (all_parts_on airport new)) visits)
        ↔ (new ≡ settle airport entry visits) }
{}

/// Settled visits are sound, and sound visits are their own settling.
pub fn settled_is_sound()
    ensures sound { (airport : AirportParts) (entry : ℕ) (visits : List Visit)
        → IsSound airport (slots_of airport (settle airport entry visits)) }
    ensures own { (airport : AirportParts) (entry : ℕ) (visits : List Visit)
        → IsSound airport (slots_of airport visits)
        → settle airport entry visits ≡ visits }
{}

/// If visits were sound, and one of them is replaced by a changed one, settling near it is
/// settling.
pub fn near_is_settled()
    ensures near { (airport : AirportParts) (entry : ℕ) (visits : List Visit) (changed : Visit)
        → IsNumbered visits
        → 1 ≤ changed.number.0
        → changed.number.0 ≤ length visits
        → IsSound airport (slots_of airport visits)
        → settled_near airport entry visits changed
        ≡ settle airport entry (with_visit visits changed) }
{}

/// Settling takes stands from planned parts and changes nothing else, so visits stay well formed
/// and numbered. They also stay numbered when a changed one is put in.
pub fn settling_takes_stands_alone()
    ensures stays { (airport : AirportParts) (entry : ℕ) (kept : List Ranked) (visit : Visit)
        → StaysBut entry visit (settled_visit airport entry kept visit) }
    ensures well_formed { (airport : AirportParts) (entry : ℕ) (visits : List Visit)
        → All (IsWellFormed airport) visits
        → All (IsWellFormed airport) (settle airport entry visits) }
    ensures numbered { (airport : AirportParts) (entry : ℕ) (visits : List Visit)
        → IsNumbered visits
        → IsNumbered (settle airport entry visits) }
    ensures changed { (visits : List Visit) (changed : Option Visit)
        → IsNumbered visits
        → IsNumbered (with_changed visits changed) }
{}

/// A plan is a plan after an entry that changes one of its visits, or none.
pub fn settled_plan_is_plan()
    ensures plan { (plan : PlanState) (changed : Option Visit)
        → IsPlan plan
        → IfSome changed (IsChanged plan)
        → plan.version + 1 < version_limit
        → IsPlan (with_settled plan changed) }
{}

/// If visits were sound, and one of them is replaced by a changed one, then a part of another visit
/// that clashes with no part of the changed one stays; and a part of another visit that is better
/// than a planned part of the changed visit loses its stand only to actual parts of the changed
/// visit.
pub fn changed_visit_decides()
    ensures untouched { (airport : AirportParts) (entry : ℕ) (visits : List Visit)
        (changed : Visit) (part : Ranked)
        → IsNumbered visits
        → 1 ≤ changed.number.0
        → changed.number.0 ≤ length visits
        → IsSound airport (slots_of airport visits)
        → Contains (all_parts_on airport (others visits changed)) part
        → All (λ own. meets airport own.slot part.slot ≡ false) (parts_on airport changed)
        → Contains (all_parts_on airport (settle airport entry (with_visit visits changed))) part }
    ensures better { (airport : AirportParts) (visit : Visit) (own part other : Ranked)
        → Contains (parts_on airport visit) own
        → Contains (parts_on airport visit) other
        → (part.slot.part.visit.0 ≡ visit.number.0 → ⊥)
        → other.slot.actual ≡ false
        → blocks_before part other ≡ true
        → blocks airport own part ≡ true
        → own.slot.actual ≡ true }
{}

/// The record of a part that loses its stand names a part that keeps its own, the first minute at
/// which the two clash and the rule of that minute. No better part that keeps its stand clashes
/// with the one that lost it: actual parts are better than planned ones, and otherwise the rank
/// decides.
pub fn record_names_the_best_blocker()
    ensures names { (airport : AirportParts) (entry : ℕ) (visits : List Visit) (visit : Visit)
        (number : ℕ) (part : Part) (stand : StandNo) (bump : Bump)
        → settled_place airport entry (kept_of airport (all_parts_on airport visits)) visit number
        part (Planned stand)
        ≡ Unplaced (Some bump)
        → IsRecordOf airport (all_parts_on airport (settle airport entry visits))
        (ranked_part visit (slot_on airport visit number part stand)) bump }
{}
