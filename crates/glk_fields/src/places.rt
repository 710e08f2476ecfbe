// The fields of one symbol.
ghost use Rattle.std.specs.Prelude.{◌≡◌, ◌<◌, ◌≤◌, ◌-◌, ◌++◌, ◌∷◌, [], ◌^◌, All, Some, length, slice_index_or, IsTrue, IfSome, OnOk, IfOk};
ghost use Rattle.std.specs.List.Sorted.{IsNonDecreasingBy};
ghost use Rattle.glk_keys.specs.Definitions.{chosen_of};
ghost use Rattle.glk_keys.specs.Relocations.{relocs_of};
ghost use Rattle.glk_merge.specs.Mergings.{IsDefinitionRow};
ghost use Rattle.glk_placing.specs.Programs.{key_at};
ghost use Rattle.glk_fields.specs.Ready.{EndsInside};
ghost use Rattle.glk_fields.specs.declared.places.FieldPlace.{FieldPlace};
ghost use Rattle.glk_fields.specs.Places.{AreOrdered, place_at as place_at_of, row_places, symbol_places};

use crate::values::FieldValues;
use glk_base::{KeyId, OutOfMemory, SymId};
use glk_reloc::Field;

/// The place of a field of the image.
#[derive(Clone, Copy, Debug, PartialEq, Eq)]
pub struct FieldPlace {
    /// Its symbol, by the index in the list of kept keys.
    pub index: u32,
    /// Where it begins in the symbol, in bytes.
    pub offset: u32,
    /// Its relocation, by the index among those of the symbol.
    pub reloc: u32,
}

// The place of the field of relocation `j` of a definition, if it writes one; the definition is that of
// kept symbol `i`.
fn place_at(
    values: &FieldValues<'_, '_, '_>,
    i: u32,
    id: SymId,
    address: u64,
    j: u32,
) -> Option<FieldPlace>
    requires row { IsDefinitionRow values.now.program id.0 }
    requires index { j < length (relocs_of values.now.program id.0) }
    requires low { address ≤ 2 ^ 62 }
    requires chosen { chosen_of values.now.program (key_at values.now i) ≡ Some id.0 }
    ensures value { result ≡ place_at_of values.now i id.0 address j }
    ensures inside { IfSome result (EndsInside values.now) }
{
    if values.reloc_field(id, address, j).is_none() {
        return None;
    }
    Some(FieldPlace {
        index: i,
        offset: values.placement().merged().reloc(id, j).field_start(),
        reloc: j,
    })
}

// Whether a place is not before the last one of a list.
fn rises_to(places: &[FieldPlace], place: FieldPlace) -> bool
    ensures { IsTrue result → (d : FieldPlace) → 0 < length places.now
        → (slice_index_or places.now (length places.now - 1) d).offset ≤ place.offset }
{
    match places.last() {
        Some(last) => last.offset <= place.offset,
        None => true,
    }
}

// Adds a place to a list. Answers whether the list rises, if that it rose before is told.
fn push_place(
    places: &mut Vec<FieldPlace>,
    place: FieldPlace,
    rose: bool,
) -> Result<bool, OutOfMemory>
    ensures places { OnOk result (places.new.items ≡ places.old.items ++ place ∷ []) }
    ensures rose { IfOk result (λ rises. IsTrue rises → IsTrue rose) }
    ensures rising { IfOk result (λ rises. IsTrue rises
        → IsNonDecreasingBy (λ f. f.offset) places.old.items
        → IsNonDecreasingBy (λ f. f.offset) places.new.items) }
{
    let rises = rises_to(places, place);
    places.push(place)?;
    if !rose {
        return Ok(false);
    }
    Ok(rises)
}

// Replaces what is in a buffer by the places of a definition's fields, in the order of its relocations.
// Answers whether their offsets rise.
fn fill_places(
    values: &FieldValues<'_, '_, '_>,
    i: u32,
    id: SymId,
    address: u64,
    places: &mut Vec<FieldPlace>,
) -> Result<bool, OutOfMemory>
    requires row { IsDefinitionRow values.now.program id.0 }
    requires low { address ≤ 2 ^ 62 }
    requires chosen { chosen_of values.now.program (key_at values.now i) ≡ Some id.0 }
    ensures inside { OnOk result (All (EndsInside values.now) places.new.items) }
    ensures places { OnOk result (places.new.items ≡ row_places values.now i id.0 address) }
    ensures rising { IfOk result
        (λ rises. IsTrue rises → IsNonDecreasingBy (λ f. f.offset) places.new.items) }
{
    places.clear();
    let mut rises = true;
    for j in 0..values.placement().merged().relocs(id) {
        let Some(place) = place_at(values, i, id, address, j) else {
            continue;
        };
        rises = push_place(places, place, rises)?;
    }
    Ok(rises)
}

// Replaces what is in a buffer by the places of a definition's fields, by their offsets.
fn order_places(
    values: &FieldValues<'_, '_, '_>,
    i: u32,
    id: SymId,
    address: u64,
    places: &mut Vec<FieldPlace>,
) -> Result<(), OutOfMemory>
    requires row { IsDefinitionRow values.now.program id.0 }
    requires low { address ≤ 2 ^ 62 }
    requires chosen { chosen_of values.now.program (key_at values.now i) ≡ Some id.0 }
    ensures ordered { OnOk result (AreOrdered (row_places values.now i id.0 address) places.new.items) }
    ensures inside { OnOk result (All (EndsInside values.now) places.new.items) }
{
    if fill_places(values, i, id, address, places)? {
        return Ok(());
    }
    places.sort_by_key(|place| place.offset)?;
    Ok(())
}

// Replaces what is in a buffer by the places of the fields of kept symbol `i`, by their offsets.
#[tactic(auto, unfolding(crate::specs::Places::symbol_places))]
pub(crate) fn fill_symbol(
    values: &FieldValues<'_, '_, '_>,
    i: u32,
    places: &mut Vec<FieldPlace>,
) -> Result<(), OutOfMemory>
    requires { i < length values.now.kept }
    ensures ordered { OnOk result (AreOrdered (symbol_places values.now i) places.new.items) }
    ensures inside { OnOk result (All (EndsInside values.now) places.new.items) }
{
    let placement = values.placement();
    let merged = placement.merged();
    places.clear();
    let Some(id) = merged.chosen(KeyId(placement.kept()[i as usize])) else {
        return Ok(());
    };
    let Some(location) = placement.kept_location(i) else {
        return Ok(());
    };
    if !merged.is_def(id) {
        return Ok(());
    }
    order_places(values, i, id, location.address, places)
}
