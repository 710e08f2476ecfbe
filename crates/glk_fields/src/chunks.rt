// The fields of an image, chunk after chunk.
ghost use Rattle.std.specs.Prelude.{◌≡◌, ◌<◌, ◌≤◌, ◌^◌, ◌++◌, OnOk};
ghost use Rattle.glk_keys.specs.Rows.{row_count};
ghost use Rattle.glk_fields.specs.Places.{fields_at, place_field as place_field_of, row_field as row_field_of, symbol_field as symbol_field_of};

use crate::places::FieldPlace;
use crate::values::FieldValues;
use glk_base::{KeyId, OutOfMemory, SymId};
use glk_obj::RelocKind;
use glk_reloc::{Field, FieldChunks};

// How many fields a chunk has.
const CHUNK: usize = 1 << 16;

// What stands for no field.
const NO_FIELD: Field = Field {
    at: 0,
    size: 0,
    kind: RelocKind::Ignore,
    value: 0,
};

// The field of relocation `j` of a row, whose symbol is at an address.
#[tactic(auto, unfolding(crate::specs::Places::row_field))]
fn row_field(values: &FieldValues<'_, '_, '_>, id: SymId, address: u64, j: u32) -> Option<Field>
    requires row { id.0 < row_count values.now.program }
    requires low { address ≤ 2 ^ 62 }
    ensures { result ≡ row_field_of values.now j id.0 address }
{
    let merged = values.placement().merged();
    if !merged.is_def(id) {
        return None;
    }
    if j >= merged.relocs(id) {
        return None;
    }
    values.reloc_field(id, address, j)
}

// The field of relocation `j` of kept symbol `i`.
#[tactic(auto, unfolding(crate::specs::Places::symbol_field))]
fn symbol_field(values: &FieldValues<'_, '_, '_>, i: u32, j: u32) -> Option<Field>
    ensures { result ≡ symbol_field_of values.now i j }
{
    let placement = values.placement();
    let kept = placement.kept();
    if i as usize >= kept.len() {
        return None;
    }
    let id = placement.merged().chosen(KeyId(kept[i as usize]))?;
    let location = placement.kept_location(i)?;
    row_field(values, id, location.address, j)
}

// The field of a place.
fn place_field(values: &FieldValues<'_, '_, '_>, place: FieldPlace) -> Field
    ensures { result ≡ place_field_of values.now place }
{
    symbol_field(values, place.index, place.reloc).unwrap_or(NO_FIELD)
}

// Adds the fields of places.
fn push_fields(
    values: &FieldValues<'_, '_, '_>,
    places: &[FieldPlace],
    fields: &mut Vec<Field>,
) -> Result<(), OutOfMemory>
    ensures { OnOk result (fields.new.items ≡ fields.old.items ++ fields_at values.now places.now) }
{
    for place in places {
        fields.push(place_field(values, *place))?;
    }
    Ok(())
}

/// The fields of an image at given places, made chunk after chunk of some 65,000.
#[derive(Drop)]
pub struct ImageFields<'v, 'p, 'm, 'a> {
    values: &'v FieldValues<'p, 'm, 'a>,
    // those that are still to come
    places: &'v [FieldPlace],
}

impl<'v, 'p, 'm, 'a> ImageFields<'v, 'p, 'm, 'a> {
    /// The fields at these places.
    pub fn new(
        values: &'v FieldValues<'p, 'm, 'a>,
        places: &'v [FieldPlace],
    ) -> ImageFields<'v, 'p, 'm, 'a>
        ensures values { result.values.now ≡ values.now }
        ensures places { result.places.now ≡ places.now }
    {
        ImageFields { values, places }
    }
}

impl FieldChunks for ImageFields<'_, '_, '_, '_> {
    ghost fields = { λ c. fields_at c.values.now c.places.now };

    fn next_chunk(&mut self, chunk: &mut Vec<Field>) -> Result<(), OutOfMemory> {
        chunk.clear();
        let count = self.places.len().min(CHUNK);
        let (here, later) = self.places.split_at(count);
        push_fields(self.values, here, chunk)?;
        self.places = later;
        Ok(())
    }
}
