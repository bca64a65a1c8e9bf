// The JSON of a body, and the fields of its objects.
ghost use Rattle.std.specs.Prelude.{◌≡◌, ◌≤◌, Some, None, Err, IfOk, IfSome, option_map};
ghost use Rattle.serde_json.specs.View.{view};
ghost use Rattle.desk_bodies.specs.Commits.{name_at};
ghost use Rattle.desk_bodies.specs.Fields.{body_data, max_u32, max_u8, number_at, text_at};

use apron_base::Name;
use serde_json::Value;
use std::alloc::Global;

/// Why a body wasn't read.
#[derive(Clone, Copy, Debug, PartialEq, Eq)]
pub enum BodyFault {
    /// It doesn't have the form.
    Form,
    /// There is no memory; nothing is known of the body.
    Memory,
}

impl From<apron_base::Memory> for BodyFault {
    ghost use Rattle.std.specs.Prelude.{◌≡◌};
    ghost use Rattle.desk_bodies.specs.declared.fields.BodyFault.TheVariants.{Memory};

    ghost from_gives = { λ _ e. e ≡ Memory };

    fn from(_: apron_base::Memory) -> Self {
        BodyFault::Memory
    }
}

/// The JSON of a body: `Form` if it isn't JSON in UTF-8, or nests more than 127 deep.
#[tactic(auto, unfolding(crate::specs::Fields::body_data))]
pub fn read_json(alloc: Global, body: &[u8]) -> Result<Value, BodyFault>
    ensures ok { IfOk result (λ v. body_data body.now ≡ Some (view v)) }
    ensures form { result ≡ Err BodyFault.Form → body_data body.now ≡ None }
{
    match Value::from_slice(alloc, body) {
        Ok(value) => Ok(value),
        Err(e) => if e.is_memory() {
            Err(BodyFault::Memory)
        } else {
            Err(BodyFault::Form)
        },
    }
}

/// The whole number under a key, at most `most`. `None` if there is none.
pub fn number_at(object: &Value, key: &str, most: u64) -> Option<u64>
    ensures value { result ≡ number_at key.now most (view object.now) }
    ensures most { IfSome result (λ n. n ≤ most) }
{
    let n = object.get(key)?.as_u64()?;
    if n <= most { Some(n) } else { None }
}

/// The whole number of 32 bits under a key. `None` if there is none.
pub fn u32_at(object: &Value, key: &str) -> Option<u32>
    ensures value { result ≡ number_at key.now max_u32 (view object.now) }
{
    let n = number_at(object, key, u32::MAX as u64)?;
    Some(n as u32)
}

/// The whole number of 8 bits under a key. `None` if there is none.
pub fn u8_at(object: &Value, key: &str) -> Option<u8>
    ensures value { result ≡ number_at key.now max_u8 (view object.now) }
{
    let n = number_at(object, key, u8::MAX as u64)?;
    Some(n as u8)
}

/// The text under a key. `None` if there is none.
pub fn text_at<'v>(object: &'v Value, key: &str) -> Option<&'v str>
    ensures text { option_map (λ s. s.now) result ≡ text_at key.now (view object.now) }
{
    object.get(key)?.as_str()
}

/// The name under a key. `None` if there is none.
#[tactic(auto, using(crate::proofs::Names::named), unfolding(crate::specs::Commits::name_at))]
pub fn name_at(object: &Value, key: &str) -> Option<Name>
    ensures value { result ≡ name_at key.now (view object.now) }
{
    Name::new(text_at(object, key)?.as_bytes())
}
