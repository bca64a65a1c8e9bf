// The desk that a request names.
ghost use Rattle.std.specs.Prelude.{◌≡◌};
ghost use Rattle.http_framing.specs.Fields.{text_shown};
ghost use Rattle.desk_http.specs.Desks.{desk_named as desk_named_lem, no_desk as no_desk_lem};

use crate::names::name_told;
use apron_base::Name;
use http_framing::FieldText;

/// The name of a desk that gives none: `-`.
pub(crate) fn no_desk() -> Name
    ensures name { result ≡ no_desk_lem }
{
    Name::literal(b"-")
}

/// The name of the desk that a field tells. None comes if there are two fields, or one that tells
/// no name.
pub(crate) fn desk_named(desk: FieldText<'_>) -> Option<Name>
    ensures name { result ≡ desk_named_lem (text_shown desk.entry) }
{
    match desk {
        FieldText::Absent => Some(no_desk()),
        FieldText::Written(text) => name_told(text),
        FieldText::Twice => None,
    }
}
