// The places of all fields of an image, by address.
ghost use Rattle.std.specs.Prelude.{◌≡◌, ◌<◌, ◌≤◌, ◌∷◌, ◌^◌, [], All, length, IfOk, OnOk};
ghost use Rattle.glk_elf.specs.Sections.{text};
ghost use Rattle.glk_placing.specs.Members.{indices_in};
ghost use Rattle.glk_fields.specs.Added.{AddsPlaces};
ghost use Rattle.glk_fields.specs.Ready.{EndsInside};
ghost use Rattle.glk_fields.specs.Places.{AreFieldPlaces};

use crate::places::{FieldPlace, fill_symbol};
use crate::values::FieldValues;
use glk_base::OutOfMemory;
use glk_elf::Section;
use std::alloc::Global;

// A field is told by its index, a number of four bytes.
const MOST_FIELDS: usize = u32::MAX as usize;

// Adds the places of the fields of kept symbol `i`. The buffer is for the symbol alone.
fn push_symbol(
    values: &FieldValues<'_, '_, '_>,
    i: u32,
    buffer: &mut Vec<FieldPlace>,
    places: &mut Vec<FieldPlace>,
) -> Result<(), OutOfMemory>
    requires { i < length values.now.kept }
    ensures { OnOk result (AddsPlaces values.now (i ∷ []) places.old.items places.new.items) }
{
    fill_symbol(values, i, buffer)?;
    places.extend_from_slice(buffer)?;
    Ok(())
}

// Adds the places of the fields of a section's symbols.
fn push_section(
    values: &FieldValues<'_, '_, '_>,
    number: u8,
    buffer: &mut Vec<FieldPlace>,
    places: &mut Vec<FieldPlace>,
) -> Result<(), OutOfMemory>
    requires { text ≤ number }
    ensures { OnOk result
        (AddsPlaces values.now (indices_in values.now number) places.old.items places.new.items) }
{
    let count = values.placement().kept().len();
    for i in 0..count as u32 {
        if !values.placement().holds(number, i) {
            continue;
        }
        push_symbol(values, i, buffer, places)?;
    }
    Ok(())
}

/// The places of all fields of an image, by their addresses: section after section, symbol after symbol, and
/// in each symbol by their offsets. It goes four times over the kept symbols and once over their
/// relocations, and takes twelve bytes a field.
///
/// # Errors
/// Out of memory, also for 2^32 fields, which would take 48 GiB.
pub fn field_places(
    alloc: Global,
    values: &FieldValues<'_, '_, '_>,
) -> Result<Vec<FieldPlace>, OutOfMemory>
    ensures places { IfOk result (λ places. AreFieldPlaces values.now places.items) }
    ensures inside { IfOk result (λ places. All (EndsInside values.now) places.items) }
    ensures few { IfOk result (λ places. length places.items < 2 ^ 32) }
{
    let mut buffer = Vec::new(alloc);
    let mut places = Vec::new(alloc);
    push_section(values, Section::Text.number(), &mut buffer, &mut places)?;
    push_section(values, Section::Rodata.number(), &mut buffer, &mut places)?;
    push_section(
        values,
        Section::Noptrdata.number(),
        &mut buffer,
        &mut places,
    )?;
    push_section(values, Section::Data.number(), &mut buffer, &mut places)?;
    if places.len() > MOST_FIELDS {
        return Err(OutOfMemory);
    }
    Ok(places)
}
