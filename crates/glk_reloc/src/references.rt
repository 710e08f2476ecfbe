// The value of any field, whether the link keeps its target or not.
ghost use Rattle.std.specs.Prelude.{◌≡◌};
ghost use Rattle.glk_reloc.specs.References.{kept_value as kept_value_of, unkept_value as unkept_value_of, field_value as field_value_of};

use crate::values::value;
use glk_obj::RelocKind;

// What stands for the offset of a method that the link does not keep.
const NO_METHOD: i128 = -1;

/// A kept target: its address, and the address at which its section starts.
#[derive(Clone, Copy, Debug, PartialEq, Eq)]
pub struct Target {
    pub address: u64,
    pub section: u64,
}

/// The addresses of `runtime.unreachableMethod` and `runtime.mapinitnoop`, which stand in for the
/// targets of weak addresses and calls that are not kept.
#[derive(Clone, Copy, Debug, PartialEq, Eq)]
pub struct StandIns {
    pub unreachable_method: Option<u64>,
    pub mapinit_noop: Option<u64>,
}

/// The value of a field, or None where it keeps the object's data. `a` is the addend, `p` the
/// address of the field, `n` its size in bytes. The target is None where it is not kept, as that of
/// a weak reference, or of a method.
pub fn field_value(
    kind: RelocKind,
    target: Option<Target>,
    stand_ins: StandIns,
    a: i64,
    p: u64,
    n: u8,
) -> Option<i128>
    ensures { result ≡ field_value_of kind target stand_ins a p n }
{
    match target {
        Some(target) => kept_value(kind, target, a, p, n),
        None => unkept_value(kind, stand_ins, a, p, n),
    }
}

#[tactic(auto, unfolding(crate::specs::References::kept_value))]
fn kept_value(kind: RelocKind, target: Target, a: i64, p: u64, n: u8) -> Option<i128>
    ensures { result ≡ kept_value_of kind target a p n }
{
    match kind {
        RelocKind::Addr
        | RelocKind::Call
        | RelocKind::PcRel
        | RelocKind::AddrOff
        | RelocKind::MethodOff
        | RelocKind::TlsLe => Some(value(kind, target.address, a, p, n, target.section)),
        RelocKind::UseIface
        | RelocKind::UseIfaceMethod
        | RelocKind::UseNamedMethod
        | RelocKind::UseType
        | RelocKind::InitOrder
        | RelocKind::CallInd
        | RelocKind::Keep
        | RelocKind::Ignore => None,
    }
}

#[tactic(auto, unfolding(crate::specs::References::unkept_value))]
fn unkept_value(kind: RelocKind, stand_ins: StandIns, a: i64, p: u64, n: u8) -> Option<i128>
    ensures { result ≡ unkept_value_of kind stand_ins a p n }
{
    match kind {
        RelocKind::MethodOff => Some(NO_METHOD),
        RelocKind::Addr => match stand_ins.unreachable_method {
            Some(at) => Some(value(kind, at, a, p, n, 0)),
            None => None,
        },
        RelocKind::Call => match stand_ins.mapinit_noop {
            Some(at) => Some(value(kind, at, a, p, n, 0)),
            None => None,
        },
        RelocKind::TlsLe => Some(value(kind, 0, a, p, n, 0)),
        RelocKind::PcRel
        | RelocKind::AddrOff
        | RelocKind::UseIface
        | RelocKind::UseIfaceMethod
        | RelocKind::UseNamedMethod
        | RelocKind::UseType
        | RelocKind::InitOrder
        | RelocKind::CallInd
        | RelocKind::Keep
        | RelocKind::Ignore => None,
    }
}
