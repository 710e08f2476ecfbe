// What the header of a type says: its kind, its flags, and where the uncommon part starts.
ghost use Rattle.std.specs.Prelude.{◌≡◌, ◌≤◌, Some, None, IfOk, OnOk, IfErr};
ghost use Rattle.glk_types.specs.Abi.{own_bytes as own_bytes_of};
ghost use Rattle.glk_types.specs.Faults.{fault_of, header_fault};
ghost use Rattle.glk_types.specs.Rules.{HasHeader};
ghost use Rattle.glk_types.specs.Types.{kind_of as kind_in, has_uncommon as has_uncommon_in, has_extra_star as has_extra_star_in, uncommon_offset as uncommon_offset_in};

use crate::abi::{
    ARRAY_BYTES, CHAN_BYTES, FUNC_BYTES, KIND_ARRAY, KIND_CHAN, KIND_FUNC, KIND_MAP, KIND_MASK,
    KIND_POINTER, KIND_SLICE, KIND_STRUCT, MAP_BYTES, POINTER_BYTES, SLICE_BYTES, STRUCT_BYTES,
    TFLAG_EXTRA_STAR, TFLAG_UNCOMMON, TYPE_BYTES, TYPE_KIND, TYPE_TFLAG,
};

/// The rule that type data break, and the offset that it reports.
#[derive(Clone, Copy, Debug, PartialEq, Eq)]
pub struct TypeBad {
    /// The rule's number, 1 to 6 for Y1 to Y6: the least of the broken ones that the call looks at.
    pub rule: u8,
    /// An offset in the symbol that the rule speaks of.
    pub offset: u32,
}

// Y1: whether the data are long enough for a header.
#[tactic(auto, unfolding(crate::specs::Faults::header_fault))]
pub(crate) fn check_header(bytes: &[u8]) -> Result<(), TypeBad>
    ensures ok { OnOk result (HasHeader bytes.now) }
    ensures kept { OnOk result (header_fault bytes.now ≡ None) }
    ensures err { IfErr result (λ bad. header_fault bytes.now ≡ Some (fault_of bad)) }
{
    if bytes.len() < TYPE_BYTES as usize {
        return Err(TypeBad {
            rule: 1,
            offset: bytes.len() as u32,
        });
    }
    Ok(())
}

// The kind of a type.
#[tactic(auto, unfolding(crate::specs::Types::kind_of))]
pub(crate) fn kind_of(bytes: &[u8]) -> u8
    requires { HasHeader bytes.now }
    ensures { result ≡ kind_in bytes.now }
{
    bytes[TYPE_KIND as usize] & KIND_MASK
}

// Whether an uncommon part follows.
#[tactic(auto, unfolding(crate::specs::Types::has_uncommon))]
pub(crate) fn has_uncommon(bytes: &[u8]) -> bool
    requires { HasHeader bytes.now }
    ensures { result ≡ has_uncommon_in bytes.now }
{
    bytes[TYPE_TFLAG as usize] & TFLAG_UNCOMMON != 0
}

// Whether the first byte of the string is a star that is not the type's.
#[tactic(auto, unfolding(crate::specs::Types::has_extra_star))]
fn has_extra_star(bytes: &[u8]) -> bool
    requires { HasHeader bytes.now }
    ensures { result ≡ has_extra_star_in bytes.now }
{
    bytes[TYPE_TFLAG as usize] & TFLAG_EXTRA_STAR != 0
}

// How many bytes of its own a kind has between the header and the uncommon part.
#[tactic(auto, unfolding(crate::specs::Abi::own_bytes))]
fn own_bytes(kind: u8) -> u32
    ensures value { result ≡ own_bytes_of kind }
    ensures small { result ≤ 40 }
{
    match kind {
        KIND_ARRAY => ARRAY_BYTES,
        KIND_CHAN => CHAN_BYTES,
        KIND_FUNC => FUNC_BYTES,
        KIND_MAP => MAP_BYTES,
        KIND_POINTER => POINTER_BYTES,
        KIND_SLICE => SLICE_BYTES,
        KIND_STRUCT => STRUCT_BYTES,
        _ => 0,
    }
}

// Where the uncommon part starts.
#[tactic(auto, unfolding(crate::specs::Types::uncommon_offset))]
pub(crate) fn uncommon_offset(bytes: &[u8]) -> u32
    requires { HasHeader bytes.now }
    ensures value { result ≡ uncommon_offset_in bytes.now }
    ensures small { result ≤ 88 }
{
    TYPE_BYTES + own_bytes(kind_of(bytes))
}

/// The kind of the type with these data, from 0 to 31.
///
/// # Errors
/// Y1 at the data's length.
pub fn kind(bytes: &[u8]) -> Result<u8, TypeBad>
    ensures ok { IfOk result (λ found. found ≡ kind_in bytes.now) }
    ensures kept { OnOk result (header_fault bytes.now ≡ None) }
    ensures err { IfErr result (λ bad. header_fault bytes.now ≡ Some (fault_of bad)) }
{
    check_header(bytes)?;
    Ok(kind_of(bytes))
}

/// Whether the first byte of the string of the type with these data is a star that is not the type's.
///
/// # Errors
/// Y1 at the data's length.
pub fn extra_star(bytes: &[u8]) -> Result<bool, TypeBad>
    ensures ok { IfOk result (λ found. found ≡ has_extra_star_in bytes.now) }
    ensures kept { OnOk result (header_fault bytes.now ≡ None) }
    ensures err { IfErr result (λ bad. header_fault bytes.now ≡ Some (fault_of bad)) }
{
    check_header(bytes)?;
    Ok(has_extra_star(bytes))
}
