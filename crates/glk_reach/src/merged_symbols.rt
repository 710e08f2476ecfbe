// The symbols of a merged program, as readings ask for them.
ghost use Rattle.std.specs.Prelude.{◌≡◌, ◌<◌, IfOk};
ghost use Rattle.glk_keys.specs.Rows.{row_count};
ghost use Rattle.glk_readings.specs.Offsets.{IsIndexOf};
ghost use Rattle.glk_reach.specs.Chosen.{relocations_of, symbols_of};

use crate::indices::all_indices;
use crate::symbols;
use glk_base::OutOfMemory;
use glk_merge::Merged;
use glk_readings::{OffsetIndex, Relocation, Symbols};
use std::alloc::Global;
use std::collections::HashMap;
use std::marker::Model;

/// The symbols of a merged program, as readings ask for them. Contracts see the program. For each
/// key whose relocations do not stand in the order of their offsets an index of them is kept, in eight bytes for each that has a
/// target; compilers write them in order, and then nothing is kept.
#[derive(Drop)]
pub struct MergedSymbols<'m, 'a> {
    merged: &'m Merged<'a>,
    // by the keys whose offsets fall
    indices: HashMap<u32, OffsetIndex>,
    // that of all other keys
    rising: OffsetIndex,
}

impl<'m, 'a> Model for MergedSymbols<'m, 'a> {
    ghost use Rattle.glk_keys.specs.Programs.{Program};
    ghost use Rattle.glk_reach.specs.Indices.{AreAllIndices};

    ghost Value = { Program };

    ghost view = { λ s. s.merged.now.program };

    ghost invariant = { λ s. AreAllIndices s.merged.now.program s.indices s.rising };
}

impl<'m, 'a> MergedSymbols<'m, 'a> {
    /// The symbols of a merged program. It goes once over all relocations.
    ///
    /// # Errors
    /// Out of memory.
    pub fn new(alloc: Global, merged: &'m Merged<'a>) -> Result<MergedSymbols<'m, 'a>, OutOfMemory>
        ensures { IfOk result (λ symbols. symbols ≡ merged.now.program) }
    {
        let indices = all_indices(alloc, merged)?;
        Ok(MergedSymbols {
            merged,
            indices,
            rising: OffsetIndex::rising(),
        })
    }

    // The index of the relocations of a key.
    fn index(&self, key: u32) -> &OffsetIndex
        requires { key < row_count self.now }
        ensures { IsIndexOf (relocations_of self.now key) result.now }
    {
        match self.indices.get(&key) {
            Some(index) => index,
            None => &self.rising,
        }
    }
}

impl Symbols for MergedSymbols<'_, '_> {
    ghost table = { λ p. symbols_of p };

    fn is_defined(&self, key: u32) -> bool {
        symbols::is_defined(self.merged, key)
    }

    fn data(&self, key: u32) -> &[u8] {
        symbols::data(self.merged, key)
    }

    fn reloc_count(&self, key: u32) -> u32 {
        symbols::reloc_count(self.merged, key)
    }

    fn reloc(&self, key: u32, i: u32) -> Relocation {
        symbols::nth_reloc(self.merged, key, i)
    }

    fn reloc_at(&self, key: u32, offset: u32) -> Option<Relocation> {
        symbols::find_reloc(self.merged, self.index(key), key, offset)
    }
}
