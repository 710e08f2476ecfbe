// The indices of relocations by offset that are kept.
ghost use Rattle.std.specs.Prelude.{◌<◌, ◌+◌, IfOk, OnOk};
ghost use Rattle.glk_keys.specs.Rows.{row_count};
ghost use Rattle.glk_readings.specs.Offsets.{IsIndexOf};
ghost use Rattle.glk_reach.specs.Chosen.{relocations_of};
ghost use Rattle.glk_reach.specs.Indices.{AreIndices};

use crate::symbols::key_relocations;
use glk_base::OutOfMemory;
use glk_merge::Merged;
use glk_readings::OffsetIndex;
use std::alloc::Global;
use std::collections::HashMap;

// The index of the relocations of a key.
fn key_index(alloc: Global, merged: &Merged<'_>, key: u32) -> Result<OffsetIndex, OutOfMemory>
    requires { key < row_count merged.now.program }
    ensures { IfOk result (IsIndexOf (relocations_of merged.now.program key)) }
{
    match key_relocations(merged, key) {
        Some(relocs) => OffsetIndex::new(alloc, &relocs),
        None => Ok(OffsetIndex::rising()),
    }
}

// Keeps the index of a key, where its offsets fall.
fn keep_index(
    alloc: Global,
    merged: &Merged<'_>,
    key: u32,
    indices: &mut HashMap<u32, OffsetIndex>,
) -> Result<(), OutOfMemory>
    requires key { key < row_count merged.now.program }
    requires earlier { AreIndices merged.now.program key indices.old }
    ensures { OnOk result (AreIndices merged.now.program (key + 1) indices.new) }
{
    let index = key_index(alloc, merged, key)?;
    if index.keeps_nothing() {
        return Ok(());
    }
    indices.insert(key, index)?;
    Ok(())
}

// The indices of all keys.
pub(crate) fn all_indices(
    alloc: Global,
    merged: &Merged<'_>,
) -> Result<HashMap<u32, OffsetIndex>, OutOfMemory>
    ensures { IfOk result (λ indices. AreIndices merged.now.program (row_count merged.now.program) indices) }
{
    let mut indices = HashMap::new(alloc);
    for key in 0..merged.rows() {
        keep_index(alloc, merged, key, &mut indices)?;
    }
    Ok(indices)
}
