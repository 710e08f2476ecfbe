// Addends as offsets in a target's data, and the targets of relocations by their offset.
ghost use Rattle.std.specs.Prelude.{◌≡◌, ◌+◌, ◌<◌, ◌^◌, Some, IfOk, IfErr};
ghost use Rattle.std.specs.List.Sorted.{IsNonDecreasingBy};
ghost use Rattle.glk_types.specs.Abi.{abi_type, abi_method, abi_imethod, abi_itab};
ghost use Rattle.glk_types.specs.Faults.{fault_of, target_fault};
ghost use Rattle.glk_types.specs.Targets.{offset_of as offset_in, target_of};

use crate::abi::{IMETHOD_NAME, IMETHOD_TYP, ITAB_TYP, METHOD_NAME, TYPE_STR};
use crate::header::TypeBad;

// The offset that an addend means, or none where it is negative.
#[tactic(auto, unfolding(crate::specs::Targets::offset_of))]
pub(crate) fn offset_of(addend: i64) -> Option<u64>
    ensures { result ≡ offset_in addend }
{
    u64::try_from(addend).ok()
}

/// The target of the first relocation at an offset, by binary search in pairs of an offset and the
/// caller's number of a target.
///
/// # Errors
/// Y6 at that offset, where there is none.
pub fn target_at(at: &[(u32, u32)], offset: u32) -> Result<u32, TypeBad>
    requires { IsNonDecreasingBy (λ entry. entry.0) at.now }
    ensures ok { IfOk result (λ target. target_of at.now offset ≡ Some target) }
    ensures err { IfErr result (λ bad. target_fault at.now offset ≡ Some (fault_of bad)) }
{
    let first = at.partition_point(|entry| entry.0 < offset);
    if first < at.len() && at[first].0 == offset {
        return Ok(at[first].1);
    }
    Err(TypeBad { rule: 6, offset })
}

/// The target whose data have the name of a type's string, of the relocations of the type.
///
/// # Errors
/// Y6 at the type's field for it.
pub fn type_string_target(at: &[(u32, u32)]) -> Result<u32, TypeBad>
    requires { IsNonDecreasingBy (λ entry. entry.0) at.now }
    ensures ok { IfOk result (λ target. target_of at.now abi_type.str ≡ Some target) }
    ensures err { IfErr result (λ bad. target_fault at.now abi_type.str ≡ Some (fault_of bad)) }
{
    target_at(at, TYPE_STR)
}

/// The target whose data have the name of a method, of the relocations of the type and the offset of
/// the method's entry.
///
/// # Errors
/// Y6 at the entry's field for it.
pub fn method_name_target(at: &[(u32, u32)], entry: u32) -> Result<u32, TypeBad>
    requires sorted { IsNonDecreasingBy (λ pair. pair.0) at.now }
    requires room { entry + abi_method.bytes < 2 ^ 32 }
    ensures ok { IfOk result (λ target. target_of at.now (entry + abi_method.name) ≡ Some target) }
    ensures err { IfErr result (λ bad. target_fault at.now (entry + abi_method.name) ≡ Some (fault_of bad)) }
{
    target_at(at, entry + METHOD_NAME)
}

/// The target whose data have the name of an interface's method, of the relocations of the interface
/// type and the offset of the method's entry.
///
/// # Errors
/// Y6 at the entry's field for it.
pub fn imethod_name_target(at: &[(u32, u32)], entry: u32) -> Result<u32, TypeBad>
    requires sorted { IsNonDecreasingBy (λ pair. pair.0) at.now }
    requires room { entry + abi_imethod.bytes < 2 ^ 32 }
    ensures ok { IfOk result (λ target. target_of at.now (entry + abi_imethod.name) ≡ Some target) }
    ensures err { IfErr result (λ bad. target_fault at.now (entry + abi_imethod.name) ≡ Some (fault_of bad)) }
{
    target_at(at, entry + IMETHOD_NAME)
}

/// The target that is the type of an interface's method, of the relocations of the interface type and
/// the offset of the method's entry.
///
/// # Errors
/// Y6 at the entry's field for it.
pub fn imethod_type_target(at: &[(u32, u32)], entry: u32) -> Result<u32, TypeBad>
    requires sorted { IsNonDecreasingBy (λ pair. pair.0) at.now }
    requires room { entry + abi_imethod.bytes < 2 ^ 32 }
    ensures ok { IfOk result (λ target. target_of at.now (entry + abi_imethod.typ) ≡ Some target) }
    ensures err { IfErr result (λ bad. target_fault at.now (entry + abi_imethod.typ) ≡ Some (fault_of bad)) }
{
    target_at(at, entry + IMETHOD_TYP)
}

/// The target that is the type of an interface table, of the table's relocations.
///
/// # Errors
/// Y6 at the table's field for it.
pub fn itab_type_target(at: &[(u32, u32)]) -> Result<u32, TypeBad>
    requires { IsNonDecreasingBy (λ entry. entry.0) at.now }
    ensures ok { IfOk result (λ target. target_of at.now abi_itab.typ ≡ Some target) }
    ensures err { IfErr result (λ bad. target_fault at.now abi_itab.typ ≡ Some (fault_of bad)) }
{
    target_at(at, ITAB_TYP)
}
