// What a function's auxes name.
ghost use Rattle.std.specs.Prelude.{◌≡◌, ◌<◌, ◌^◌, OnOk, map, length};
ghost use Rattle.std.specs.List.{All};
ghost use Rattle.glk_keys.specs.Programs.{Program};
ghost use Rattle.glk_merge.specs.Mergings.{IsDefinitionRow, IsTargetKey};
ghost use Rattle.glk_tables.specs.Function.{IsSmall};
ghost use Rattle.glk_tables.specs.Views.{target_view};
ghost use Rattle.glk_functions.specs.Auxes.{named_auxes, is_named as is_named_of, names_as as names_as_of, named_count as named_count_of, first_named as first_named_of, all_named, bytes_of as bytes_named, funcdata_of as funcdata_named, funcdata_typed as typed};

use crate::definition::type_of_key;
use glk_base::{OutOfMemory, SymId};
use glk_keys::Target;
use glk_merge::Merged;
use glk_obj::SymKind;
use glk_reach::{data, is_defined};
use glk_tables::{AuxTarget, FuncdataTarget};

/// An aux of a function: the number of its kind, and what it means.
#[derive(Clone, Copy, Debug, PartialEq, Eq)]
pub struct NamedAux {
    pub kind: u8,
    pub target: Target,
}

/// Replaces what is in a buffer by the auxes of a definition, in their order.
///
/// # Errors
/// Out of memory: some of the auxes may be in the buffer.
pub fn fill_auxes(
    merged: &Merged<'_>,
    id: SymId,
    out: &mut Vec<NamedAux>,
) -> Result<(), OutOfMemory>
    requires { IsDefinitionRow merged.now.program id.0 }
    ensures value { OnOk result (out.new.items ≡ named_auxes merged.now.program id.0) }
    ensures keys { OnOk result (All (λ aux. IsTargetKey merged.now.program aux.target) out.new.items) }
    ensures few { OnOk result (length out.new.items < 2 ^ 32) }
{
    out.clear();
    for i in 0..merged.auxes(id) {
        let kind = merged.aux(id, i).kind;
        let target = merged.aux_target(id, i);
        out.push(NamedAux { kind, target })?;
    }
    Ok(())
}

/// Whether something is meant: the place is not empty.
pub fn is_named(target: Target) -> bool
    ensures { result ≡ is_named_of target }
{
    match target {
        Target::Nothing => false,
        Target::Key(_) => true,
        Target::Missing { .. } => true,
    }
}

// Whether an aux is of a kind, and its place is not empty.
fn names_as(aux: NamedAux, kind: u8) -> bool
    ensures { result ≡ names_as_of kind aux }
{
    aux.kind == kind && is_named(aux.target)
}

/// How many auxes of a kind there are, empty places not counted.
pub(crate) fn named_count(auxes: &[NamedAux], kind: u8) -> u32
    requires { length auxes.now < 2 ^ 32 }
    ensures { result ≡ named_count_of kind auxes.now }
{
    let mut count = 0;
    let mut rest = auxes;
    while let [first, after @ ..] = rest {
        if names_as(*first, kind) {
            count += 1;
        }
        rest = after;
    }
    count
}

// What the first aux of a kind means whose place is not empty.
fn first_named(auxes: &[NamedAux], kind: u8) -> Target
    ensures { result ≡ first_named_of kind auxes.now }
{
    let mut rest = auxes;
    while let [first, after @ ..] = rest {
        if names_as(*first, kind) {
            return first.target;
        }
        rest = after;
    }
    Target::Nothing
}

/// The bytes that are meant: the data of a symbol that has a definition.
#[tactic(auto, unfolding(crate::specs::Auxes::bytes_of))]
pub fn bytes_of<'a>(merged: &Merged<'a>, target: Target) -> AuxTarget<'a>
    requires { IsTargetKey merged.now.program target }
    ensures value { target_view result ≡ bytes_named merged.now.program target }
    ensures small { IsSmall (target_view result) }
{
    match target {
        Target::Nothing => AuxTarget::Absent,
        Target::Key(key) => {
            if is_defined(merged, key.0) {
                AuxTarget::Defined(data(merged, key.0))
            } else {
                AuxTarget::Undefined
            }
        }
        Target::Missing { .. } => AuxTarget::Undefined,
    }
}

/// The bytes that the first aux of a kind means whose place is not empty.
pub fn first_bytes<'a>(merged: &Merged<'a>, auxes: &[NamedAux], kind: u8) -> AuxTarget<'a>
    requires { All (λ aux. IsTargetKey merged.now.program aux.target) auxes.now }
    ensures value { target_view result
        ≡ bytes_named merged.now.program (first_named_of kind auxes.now) }
    ensures small { IsSmall (target_view result) }
{
    bytes_of(merged, first_named(auxes, kind))
}

/// Replaces what is in a buffer by the bytes that each aux of a kind means, empty places among them.
///
/// # Errors
/// Out of memory: some of them may be in the buffer.
pub fn fill_bytes<'a>(
    merged: &Merged<'a>,
    auxes: &[NamedAux],
    kind: u8,
    out: &mut Vec<AuxTarget<'a>>,
) -> Result<(), OutOfMemory>
    requires { All (λ aux. IsTargetKey merged.now.program aux.target) auxes.now }
    ensures value { OnOk result (map target_view out.new.items
        ≡ map (bytes_named merged.now.program) (all_named kind auxes.now)) }
    ensures small { OnOk result (All (λ target. IsSmall (target_view target)) out.new.items) }
{
    out.clear();
    let mut rest = auxes;
    while let [first, after @ ..] = rest {
        if first.kind == kind {
            out.push(bytes_of(merged, first.target))?;
        }
        rest = after;
    }
    Ok(())
}

// A symbol of a type, or of none, as a funcdata.
fn funcdata_typed(kind: Option<SymKind>) -> FuncdataTarget
    ensures { result ≡ typed kind }
{
    match kind {
        Some(kind) => FuncdataTarget::Typed(kind),
        None => FuncdataTarget::Untyped,
    }
}

// The funcdata that is meant.
#[tactic(auto, unfolding(crate::specs::Auxes::funcdata_of))]
fn funcdata_of(merged: &Merged<'_>, target: Target) -> FuncdataTarget
    requires { IsTargetKey merged.now.program target }
    ensures { result ≡ funcdata_named merged.now.program target }
{
    match target {
        Target::Nothing => FuncdataTarget::Empty,
        Target::Key(key) => funcdata_typed(type_of_key(merged, key.0)),
        Target::Missing { .. } => FuncdataTarget::Untyped,
    }
}

/// Replaces what is in a buffer by what each funcdata means, of the auxes of a kind.
pub(crate) fn fill_funcdata(
    merged: &Merged<'_>,
    auxes: &[NamedAux],
    kind: u8,
    out: &mut Vec<FuncdataTarget>,
) -> Result<(), OutOfMemory>
    requires { All (λ aux. IsTargetKey merged.now.program aux.target) auxes.now }
    ensures { OnOk result (out.new.items
        ≡ map (funcdata_named merged.now.program) (all_named kind auxes.now)) }
{
    out.clear();
    let mut rest = auxes;
    while let [first, after @ ..] = rest {
        if first.kind == kind {
            out.push(funcdata_of(merged, first.target))?;
        }
        rest = after;
    }
    Ok(())
}
