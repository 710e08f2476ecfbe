// Names: a byte of flags, the length as a varint, the bytes.
ghost use Rattle.std.specs.Prelude.{◌≡◌};
ghost use Rattle.std.specs.Option.{option_copied};
ghost use Rattle.glk_types.specs.Names.{name_from as name_in, name_at, string_of};

use crate::targets::offset_of;
use glk_base::read_varint;

// The longest varint of a name, in bytes.
const LONGEST_VARINT: u32 = 5;

// A bound on lengths that says no more: five groups of seven bits are below it.
const LENGTH_LIMIT: u64 = 1 << 35;

// The name that the bytes begin with.
fn name_from(bytes: &[u8]) -> Option<&[u8]>
    ensures { option_copied result ≡ name_in bytes.now }
{
    let (_, rest) = bytes.split_first()?;
    let length = read_varint(rest, LONGEST_VARINT, LENGTH_LIMIT)?;
    let after = &rest[length.size..];
    if length.value > after.len() as u64 {
        return None;
    }
    Some(&after[..length.value as usize])
}

/// The name in the data of a relocation's target at its addend. None is rule Y7, at the relocation's
/// offset: the name does not end inside the data, or its length has more than five bytes.
#[tactic(auto, unfolding(crate::specs::Names::name_at))]
pub fn name(bytes: &[u8], start: i64) -> Option<&[u8]>
    ensures { option_copied result ≡ name_at bytes.now start }
{
    let at = offset_of(start)?;
    if at >= bytes.len() as u64 {
        return None;
    }
    name_from(&bytes[at as usize..])
}

/// A type's string, of the name that its field `Str` refers to: with an extra star the name has one
/// byte more as its first. None is rule Y7, at the field: with an extra star the name is empty.
pub fn type_string(name: &[u8], extra_star: bool) -> Option<&[u8]>
    ensures { option_copied result ≡ string_of extra_star name.now }
{
    if !extra_star {
        return Some(name);
    }
    if name.is_empty() {
        return None;
    }
    Some(&name[1..])
}
