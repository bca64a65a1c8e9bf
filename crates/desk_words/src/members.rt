// Objects, member by member.
ghost use Rattle.std.specs.Prelude.{◌≡◌, ◌++◌, codes, OnOk};
ghost use Rattle.serde_json.specs.Written.{compact_text};

use crate::json_text::Json;
use apron_base::Memory;

/// The members of an object from one on, and its end.
pub trait Members<At> {
    ghost use Rattle.std.specs.Prelude.{ℕ, List, ⊤};

    /// Their text.
    ghost text: { At → Self → List ℕ };

    /// Whether they can be written.
    ghost can_push: { At → Self → Type 0 } = { λ _ _. ⊤ };

    /// Writes them at the end. At `Err` memory has run out.
    fn push(&self, bytes: &mut Vec<u8>, at: &At) -> Result<(), Memory>
        requires can { can_push at.now self.now }
        ensures text { OnOk result (bytes.new.items ≡ bytes.old.items ++ text at.now self.now) };
}

/// A member: what stands before its value, the value, and the members after it.
#[derive(Drop)]
pub struct Member<'a, V, M>(pub &'a str, pub &'a V, pub M);

impl<At, V: Json<At>, M: Members<At>> Members<At> for Member<'_, V, M> {
    ghost text = { λ at member. member.0.now
        ++ (compact_text (V.json at member.1.now) ++ M.text at member.2) };

    ghost can_push = { λ at member. V.Json.can_push at member.1.now
        × M.Members.can_push at member.2 };

    fn push(&self, bytes: &mut Vec<u8>, at: &At) -> Result<(), Memory> {
        bytes.extend_from_slice(self.0.as_bytes())?;
        self.1.push(bytes, at)?;
        self.2.push(bytes, at)
    }
}

/// The end of an object.
#[derive(Drop)]
pub struct End;

impl<At> Members<At> for End {
    ghost text = { λ _ _. codes "}" };

    fn push(&self, bytes: &mut Vec<u8>, _at: &At) -> Result<(), Memory> {
        bytes.push(b'}')?;
        Ok(())
    }
}

/// Writes an object at the end: each member's key, which needs no escape, and its value; `..` puts
/// members that are made already after them. At `Err` memory has run out.
#[macro_export]
macro_rules! push_object {
    (@more) => { $crate::members::End };
    (@more ..$members:expr) => { $members };
    (@more $key:literal: $value:expr $(, $($more:tt)*)?) => {
        $crate::members::Member(
            concat!(",\"", $key, "\":"),
            &$value,
            $crate::push_object!(@more $($($more)*)?),
        )
    };
    ($bytes:expr, $at:expr, { $key:literal: $value:expr $(, $($more:tt)*)? }) => {
        $crate::members::Members::push(
            &$crate::members::Member(
                concat!("{\"", $key, "\":"),
                &$value,
                $crate::push_object!(@more $($($more)*)?),
            ),
            $bytes,
            $at,
        )
    };
}
