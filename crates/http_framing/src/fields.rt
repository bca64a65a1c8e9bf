// What the fields of one name say.
ghost use Rattle.std.specs.Prelude.{◌≡◌, map, length, All};
ghost use Rattle.httparse.specs.Spans.{IsHeaderWithin, header_bytes};
ghost use Rattle.http_framing.specs.Fields.{is_same_name, number_field, text_field, text_shown};

use apron_base::{MAX_DIGITS, number_of};
use httparse::spans::HeaderSpan;

/// What the fields of one name say, as a text.
#[derive(Clone, Copy, Debug, PartialEq, Eq)]
pub enum FieldText<'b> {
    /// No field has the name.
    Absent,
    /// The value of the only field of the name, without the spaces and tabs around it.
    Written(&'b [u8]),
    /// Two or more fields have the name.
    Twice,
}

/// What the fields of one name say of a number.
#[derive(Clone, Copy, Debug, PartialEq, Eq)]
pub enum FieldNumber {
    /// No field has the name.
    Absent,
    /// The only field of the name writes this number, in 1 to 10 digits.
    Written(u64),
    /// Two or more fields have the name, or the value of the only one is anything else.
    Wrong,
}

/// What the fields of a name, in any case, say.
pub(crate) fn field_text<'b>(bytes: &'b [u8], fields: &[HeaderSpan], name: &[u8]) -> FieldText<'b>
    requires fields { All (IsHeaderWithin (length bytes.now)) fields.now }
    ensures value { text_shown result
        ≡ text_field name.now (map (header_bytes bytes.now) fields.now) }
{
    let mut found = FieldText::Absent;
    for field in fields {
        if is_named(field.name.of(bytes), name) {
            found = match found {
                FieldText::Absent => FieldText::Written(field.value.of(bytes)),
                _ => return FieldText::Twice,
            };
        }
    }
    found
}

/// The number that the only field of a name writes.
pub(crate) fn field_number(bytes: &[u8], fields: &[HeaderSpan], name: &[u8]) -> FieldNumber
    requires fields { All (IsHeaderWithin (length bytes.now)) fields.now }
    ensures value { result ≡ number_field name.now (map (header_bytes bytes.now) fields.now) }
{
    match field_text(bytes, fields, name) {
        FieldText::Absent => FieldNumber::Absent,
        FieldText::Written(value) => match number_of(value, MAX_DIGITS) {
            Some(number) => FieldNumber::Written(number),
            None => FieldNumber::Wrong,
        },
        FieldText::Twice => FieldNumber::Wrong,
    }
}

/// Whether two names are the same in any case.
pub(crate) fn is_named(text: &[u8], name: &[u8]) -> bool
    ensures same { result ≡ is_same_name text.now name.now }
{
    text.eq_ignore_ascii_case(name)
}
