// The methods of an interface type.
ghost use Rattle.std.specs.Prelude.{◌≡◌, ◌<◌, ◌≤◌, ◌+◌, ◌^◌, length, Some, None, OnOk, IfOk, IfErr};
ghost use Rattle.glk_types.specs.Abi.{abi_imethod};
ghost use Rattle.glk_types.specs.Faults.{fault_of, interface_fault, imethod_inside_fault, imethod_fault};
ghost use Rattle.glk_types.specs.Rules.{HasHeader};
ghost use Rattle.glk_types.specs.Targets.{offset_of as offset_in};

use crate::abi::{IMETHOD_BYTES, KIND_INTERFACE, TYPE_KIND};
use crate::header::{TypeBad, check_header, kind_of};
use crate::targets::offset_of;

// Y2: whether a type is an interface.
#[tactic(auto, unfolding(crate::specs::Faults::interface_fault))]
fn check_interface(bytes: &[u8]) -> Result<(), TypeBad>
    requires { HasHeader bytes.now }
    ensures ok { OnOk result (interface_fault bytes.now ≡ None) }
    ensures err { IfErr result (λ bad. interface_fault bytes.now ≡ Some (fault_of bad)) }
{
    if kind_of(bytes) != KIND_INTERFACE {
        return Err(TypeBad {
            rule: 2,
            offset: TYPE_KIND,
        });
    }
    Ok(())
}

// Y4: the offset of a method that is inside the data.
#[tactic(auto, unfolding(crate::specs::Faults::imethod_inside_fault))]
fn entry_at(bytes: &[u8], addend: i64) -> Result<u32, TypeBad>
    requires header { HasHeader bytes.now }
    requires small { length bytes.now < 2 ^ 32 }
    ensures ok { IfOk result (λ at. offset_in addend ≡ Some at) }
    ensures inside { IfOk result (λ at. at + abi_imethod.bytes ≤ length bytes.now) }
    ensures kept { OnOk result (imethod_inside_fault bytes.now addend ≡ None) }
    ensures err { IfErr result (λ bad. imethod_inside_fault bytes.now addend ≡ Some (fault_of bad)) }
{
    let Some(at) = offset_of(addend) else {
        return Err(TypeBad { rule: 4, offset: 0 });
    };
    let last = bytes.len() as u64 - u64::from(IMETHOD_BYTES);
    if at > last {
        return Err(TypeBad {
            rule: 4,
            offset: (at % (1 << 32)) as u32,
        });
    }
    Ok(at as u32)
}

/// Where the entry of the method of the interface type with these data is that a relocation's addend
/// means.
///
/// # Errors
/// Y1 at the data's length, Y2 at the kind, or Y4 at the addend's low 32 bits, 0 where it is negative.
#[tactic(auto, unfolding(crate::specs::Faults::imethod_fault))]
pub fn imethod(bytes: &[u8], offset: i64) -> Result<u32, TypeBad>
    requires { length bytes.now < 2 ^ 32 }
    ensures ok { IfOk result (λ at. offset_in offset ≡ Some at) }
    ensures inside { IfOk result (λ at. at + abi_imethod.bytes ≤ length bytes.now) }
    ensures kept { OnOk result (imethod_fault bytes.now offset ≡ None) }
    ensures err { IfErr result (λ bad. imethod_fault bytes.now offset ≡ Some (fault_of bad)) }
{
    check_header(bytes)?;
    check_interface(bytes)?;
    entry_at(bytes, offset)
}
