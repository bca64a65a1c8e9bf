// The fields that entries are made of, as they are written.
ghost use Rattle.std.specs.Prelude.{◌≡◌, ◌++◌, OnOk};
ghost use Rattle.std.specs.Int.{w8, w16, w32};
ghost use Rattle.entry_bytes.specs.Fields.{Fits, name_field, number_field, field_bytes};

use apron_base::{Memory, Name};

pub(crate) fn push_u8(out: &mut Vec<u8>, number: u8) -> Result<(), Memory>
    ensures text { OnOk result (out.new.items ≡ out.old.items ++ field_bytes (number_field w8 number)) }
    ensures fits { Fits (number_field w8 number) }
{
    out.push(number)?;
    Ok(())
}

pub(crate) fn push_u16(out: &mut Vec<u8>, number: u16) -> Result<(), Memory>
    ensures text { OnOk result (out.new.items ≡ out.old.items ++ field_bytes (number_field w16 number)) }
    ensures fits { Fits (number_field w16 number) }
{
    out.extend_from_slice(&number.to_le_bytes())?;
    Ok(())
}

pub(crate) fn push_u32(out: &mut Vec<u8>, number: u32) -> Result<(), Memory>
    ensures text { OnOk result (out.new.items ≡ out.old.items ++ field_bytes (number_field w32 number)) }
    ensures fits { Fits (number_field w32 number) }
{
    out.extend_from_slice(&number.to_le_bytes())?;
    Ok(())
}

// A byte that says how many bytes the name has, and these bytes.
#[tactic(auto, using(apron_base::proofs::NameTests::name_decides))]
pub(crate) fn push_name(out: &mut Vec<u8>, name: &Name) -> Result<(), Memory>
    ensures text { OnOk result (out.new.items ≡ out.old.items ++ field_bytes (name_field name.now)) }
    ensures fits { Fits (name_field name.now) }
{
    let text = name.bytes();
    out.push(text.len() as u8)?;
    out.extend_from_slice(text)?;
    Ok(())
}
