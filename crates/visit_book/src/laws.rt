// Laws of well-formed visits.
ghost use Rattle.std.specs.Prelude.{ℕ};
ghost use Rattle.apron_rules.specs.declared.parts.AirportParts.{AirportParts};
ghost use Rattle.apron_rules.specs.Rules.{IsAirport};
ghost use Rattle.visit_book.specs.declared.visits.NewVisit.{NewVisit};
ghost use Rattle.visit_book.specs.NewVisits.{IsNewVisitOf, added_visit};
ghost use Rattle.visit_book.specs.WellFormed.{IsWellFormed};

/// A visit that is added with data valid at the airport is well formed.
pub fn added_visits_are_well_formed()
    ensures well_formed { (airport : AirportParts) (number version : ℕ) (new : NewVisit)
        → IsAirport airport
        → IsNewVisitOf airport new
        → IsWellFormed airport (added_visit number version new) }
{}
