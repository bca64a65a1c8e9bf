// The names that requests tell, and the types and stands that bodies name.
ghost use Rattle.std.specs.Prelude.{◌≡◌, ◌<◌, IfSome, length};
ghost use Rattle.desk_bodies.specs.Commits.{if_name};
ghost use Rattle.desk_http.specs.Names.{stand_named as stand_named_lem, type_named as type_named_lem};

use apron_base::{Name, StandNo, TypeNo};
use apron_rules::Airport;

/// The text as a name, if it is one.
pub(crate) fn name_told(text: &[u8]) -> Option<Name>
    ensures name { result ≡ if_name text.now }
{
    Name::new(text)
}

/// The stand of this name.
pub(crate) fn stand_named(airport: &Airport, text: &[u8]) -> Option<StandNo>
    ensures named { result ≡ stand_named_lem airport.now text.now }
    ensures inside { IfSome result (λ stand. stand.0 < length airport.now.stands) }
{
    match Name::new(text) {
        Some(name) => airport.stand_of(&name),
        None => None,
    }
}

/// The type of this name.
pub(crate) fn type_named(airport: &Airport, text: &[u8]) -> Option<TypeNo>
    ensures named { result ≡ type_named_lem airport.now text.now }
    ensures inside { IfSome result (λ kind. kind.0 < length airport.now.types) }
{
    match Name::new(text) {
        Some(name) => airport.type_of(&name),
        None => None,
    }
}
