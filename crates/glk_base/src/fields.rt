// Records and headers as lists of fields.
ghost use Rattle.std.specs.Prelude.{◌≡◌, ◌++◌, OnOk, OnErr, map, ℕ, List};
ghost use Rattle.glk_base.specs.Fields.{field_bytes, fields_bytes, field_view};

use super::fault::OutOfMemory;

/// A number in one, two, four or eight bytes, the lowest byte first.
#[derive(Clone, Copy, Debug)]
pub enum Field {
    Byte(u8),
    U16(u16),
    U32(u32),
    U64(u64),
}

// Adds a field at the end.
fn push_field(out: &mut Vec<u8>, field: Field) -> Result<(), OutOfMemory>
    ensures whole { OnOk result (out.new.items ≡ out.old.items ++ field_bytes (field_view field)) }
    ensures stays { OnErr result (out.new.items ≡ out.old.items) }
{
    match field {
        Field::Byte(n) => out.push(n)?,
        Field::U16(n) => out.extend_from_slice(&n.to_le_bytes())?,
        Field::U32(n) => out.extend_from_slice(&n.to_le_bytes())?,
        Field::U64(n) => out.extend_from_slice(&n.to_le_bytes())?,
    }
    Ok(())
}

/// Adds the bytes of fields at the end.
///
/// # Errors
/// Out of memory: what was there stays, and some of the new bytes may follow it.
#[tactic(auto, unfolding(crate::specs::Fields::fields_bytes))]
pub fn push_fields(out: &mut Vec<u8>, fields: &[Field]) -> Result<(), OutOfMemory>
    ensures whole { OnOk result (out.new.items ≡ out.old.items ++ fields_bytes (map field_view fields.now)) }
    ensures stays { (behind : List ℕ) × (out.new.items ≡ out.old.items ++ behind) }
{
    let mut rest = fields;
    while let [first, after @ ..] = rest {
        push_field(out, *first)?;
        rest = after;
    }
    Ok(())
}
