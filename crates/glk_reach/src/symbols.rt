// The symbols of a merged program, by their keys.
ghost use Rattle.std.specs.Prelude.{◌≡◌, ◌<◌, ◌≤◌, ◌^◌, length, slice_get, Some, IfSome};
ghost use Rattle.glk_keys.specs.Rows.{row_at, row_count};
ghost use Rattle.glk_merge.specs.Accessors.{row_numbers};
ghost use Rattle.glk_merge.specs.Mergings.{IsDefinitionRow, IsRow};
ghost use Rattle.glk_obj.specs.declared.kinds.RelocKind.TheVariants.{MethodOff};
ghost use Rattle.glk_reach.specs.Chosen.{relocations_of, chosen_row, definition_row, is_defined as is_defined_in, is_type as is_type_in, is_interface_table as is_interface_table_in, calls_by_reflection as calls_by_reflection_in, content_of, target_symbol as target_symbol_of};
ghost use Rattle.glk_reach.specs.RelocKinds.{is_kind};
ghost use Rattle.glk_reach.specs.RelocationLists.{AreRelocationsOf, AreOfProgram};
ghost use Rattle.glk_reach.specs.Views.{IsDefinition};
ghost use Rattle.glk_readings.specs.Offsets.{IsIndexOf};
ghost use Rattle.glk_readings.specs.References.{reference_at};
ghost use Rattle.glk_readings.specs.Symbols.{IsWithin};

use crate::relocations::RowRelocations;
use glk_base::{KeyId, SymId};
use glk_keys::Target;
use glk_merge::Merged;
use glk_obj::{Block, RelocKind};
use glk_readings::{OffsetIndex, Relocation, Relocations, TargetSymbol};

// The row of the chosen definition of a key, a made name's among them.
#[tactic(auto, unfolding(crate::specs::Chosen::chosen_row))]
fn chosen(merged: &Merged<'_>, key: u32) -> Option<SymId>
    requires { key < row_count merged.now.program }
    ensures value { row_numbers result ≡ chosen_row merged.now.program key }
    ensures within { IsRow merged.now.program (row_numbers result) }
{
    if merged.key(SymId(key)).0 != key {
        return None;
    }
    merged.chosen(KeyId(key))
}

/// Whether a key has a definition.
pub fn is_defined(merged: &Merged<'_>, key: u32) -> bool
    requires { key < row_count merged.now.program }
    ensures { result ≡ is_defined_in merged.now.program key }
{
    chosen(merged, key).is_some()
}

/// The row of the chosen definition of a key in an object.
#[tactic(auto, unfolding(crate::specs::Chosen::definition_row))]
pub fn definition(merged: &Merged<'_>, key: u32) -> Option<SymId>
    requires { key < row_count merged.now.program }
    ensures value { row_numbers result ≡ definition_row merged.now.program key }
    ensures definition { IsDefinition merged.now.program (row_numbers result) }
{
    let id = chosen(merged, key)?;
    if !merged.is_def(id) {
        return None;
    }
    Some(id)
}

/// Whether a key is the data of a Go type.
#[tactic(auto, unfolding(crate::specs::Chosen::symbol_of))]
pub fn is_type(merged: &Merged<'_>, key: u32) -> bool
    requires { key < row_count merged.now.program }
    ensures { result ≡ is_type_in merged.now.program key }
{
    match definition(merged, key) {
        Some(id) => merged.row(id).is_gotype(),
        None => false,
    }
}

/// Whether a key is a table of an interface's methods.
#[tactic(auto, unfolding(crate::specs::Chosen::symbol_of))]
pub fn is_interface_table(merged: &Merged<'_>, key: u32) -> bool
    requires { key < row_count merged.now.program }
    ensures { result ≡ is_interface_table_in merged.now.program key }
{
    match definition(merged, key) {
        Some(id) => merged.row(id).is_itab(),
        None => false,
    }
}

/// Whether a key calls methods by reflection.
#[tactic(auto, unfolding(crate::specs::Chosen::symbol_of))]
pub fn calls_by_reflection(merged: &Merged<'_>, key: u32) -> bool
    requires { key < row_count merged.now.program }
    ensures { result ≡ calls_by_reflection_in merged.now.program key }
{
    match definition(merged, key) {
        Some(id) => merged.row(id).is_reflectmethod(),
        None => false,
    }
}

// The data of a definition, no longer than those of its object.
fn data_below<'a>(merged: &Merged<'a>, id: SymId, _all: u32) -> &'a [u8]
    requires row { IsDefinitionRow merged.now.program id.0 }
    requires all { length (row_at merged.now.program id.0).content ≤ _all }
    ensures value { result.now ≡ (row_at merged.now.program id.0).content }
    ensures small { length result.now < 2 ^ 32 }
{
    merged.data(id)
}

// The data of a definition, which are among those of its object.
fn definition_data<'a>(merged: &Merged<'a>, id: SymId) -> &'a [u8]
    requires { IsDefinitionRow merged.now.program id.0 }
    ensures value { result.now ≡ (row_at merged.now.program id.0).content }
    ensures small { length result.now < 2 ^ 32 }
{
    let (o, _) = merged.owner(id);
    data_below(merged, id, merged.object(o).count(Block::Data))
}

/// The data of a key.
#[tactic(auto, unfolding(crate::specs::Chosen::content_of))]
pub fn data<'a>(merged: &Merged<'a>, key: u32) -> &'a [u8]
    requires { key < row_count merged.now.program }
    ensures value { result.now ≡ content_of merged.now.program key }
    ensures small { length result.now < 2 ^ 32 }
{
    match definition(merged, key) {
        Some(id) => definition_data(merged, id),
        None => &[],
    }
}

/// The symbol that is meant, if one is.
pub fn target_symbol(target: Target) -> Option<TargetSymbol>
    ensures { result ≡ target_symbol_of target }
{
    match target {
        Target::Nothing => None,
        Target::Key(key) => Some(TargetSymbol::Key(key.0)),
        Target::Missing { pkg, index } => Some(TargetSymbol::Missing { pkg, index }),
    }
}

// Whether a relocation is a METHODOFF.
pub(crate) fn is_methodoff(kind: Option<RelocKind>) -> bool
    ensures { result ≡ is_kind MethodOff kind }
{
    match kind {
        Some(RelocKind::MethodOff) => true,
        _ => false,
    }
}

/// The relocations of a key, where it has a definition in an object.
#[tactic(auto, unfolding(crate::specs::Chosen::relocations_of))]
pub fn key_relocations<'m, 'a>(merged: &'m Merged<'a>, key: u32) -> Option<RowRelocations<'m, 'a>>
    requires { key < row_count merged.now.program }
    ensures list { AreRelocationsOf merged.now.program key result }
    ensures program { AreOfProgram merged.now.program result }
{
    match definition(merged, key) {
        Some(id) => Some(RowRelocations { merged, id }),
        None => None,
    }
}

// How many relocations a key has.
pub(crate) fn reloc_count(merged: &Merged<'_>, key: u32) -> u32
    requires { key < row_count merged.now.program }
    ensures { result ≡ length (relocations_of merged.now.program key) }
{
    match key_relocations(merged, key) {
        Some(relocs) => relocs.count(),
        None => 0,
    }
}

// Relocation `i` of a key.
pub(crate) fn nth_reloc(merged: &Merged<'_>, key: u32, i: u32) -> Relocation
    requires key { key < row_count merged.now.program }
    requires index { i < length (relocations_of merged.now.program key) }
    ensures value { slice_get (relocations_of merged.now.program key) i ≡ Some result }
    ensures within { IsWithin (row_count merged.now.program) result.target }
{
    match key_relocations(merged, key) {
        Some(relocs) => relocs.nth(i),
        None => unreachable!(),
    }
}

// The first relocation of a key that has this offset and a target, by the index of its relocations.
pub(crate) fn find_reloc(
    merged: &Merged<'_>,
    index: &OffsetIndex,
    key: u32,
    offset: u32,
) -> Option<Relocation>
    requires key { key < row_count merged.now.program }
    requires index { IsIndexOf (relocations_of merged.now.program key) index.now }
    ensures value { result ≡ reference_at (relocations_of merged.now.program key) offset }
    ensures within { IfSome result (λ reloc. IsWithin (row_count merged.now.program) reloc.target) }
{
    match key_relocations(merged, key) {
        Some(relocs) => relocs.find(index, offset),
        None => None,
    }
}
