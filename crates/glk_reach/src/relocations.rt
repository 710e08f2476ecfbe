// The relocations of a definition.
ghost use Rattle.std.specs.Prelude.{◌≡◌, ◌<◌, length, slice_get, Some, IfSome};
ghost use Rattle.glk_keys.specs.Rows.{row_count};
ghost use Rattle.glk_readings.specs.Offsets.{IsIndexOf};
ghost use Rattle.glk_readings.specs.References.{reference_at};
ghost use Rattle.glk_readings.specs.Symbols.{IsWithin};
ghost use Rattle.glk_reach.specs.Chosen.{row_relocations};
ghost use Rattle.glk_merge.specs.Mergings.{IsDefinitionRow};

use crate::symbols::{is_methodoff, target_symbol};
use glk_base::SymId;
use glk_merge::Merged;
use glk_readings::{OffsetIndex, Relocation, Relocations};

/// The relocations of a definition, as they are read.
#[derive(Drop)]
pub struct RowRelocations<'m, 'a> {
    pub(crate) merged: &'m Merged<'a>,
    pub(crate) id: SymId,
    ghost definition: { IsDefinitionRow merged.now.program id.0 },
}

impl Relocations for RowRelocations<'_, '_> {
    ghost list = { λ s. row_relocations s.merged.now.program s.id.0 };

    fn count(&self) -> u32 {
        self.merged.relocs(self.id)
    }

    fn reloc(&self, i: u32) -> Relocation {
        let reloc = self.merged.reloc(self.id, i);
        Relocation {
            offset: reloc.field_start(),
            addend: reloc.add,
            target: target_symbol(self.merged.reloc_target(self.id, i)),
            is_methodoff: is_methodoff(self.merged.reloc_kind(self.id, i)),
        }
    }
}

impl RowRelocations<'_, '_> {
    // Relocation `i`, whose target is one of the program's keys.
    pub(crate) fn nth(&self, i: u32) -> Relocation
        requires { i < length (row_relocations self.now.merged.now.program self.now.id.0) }
        ensures value { slice_get (row_relocations self.now.merged.now.program self.now.id.0) i
            ≡ Some result }
        ensures within { IsWithin (row_count self.now.merged.now.program) result.target }
    {
        self.reloc(i)
    }

    // The first one that has this offset and a target, by their index.
    pub(crate) fn find(&self, index: &OffsetIndex, offset: u32) -> Option<Relocation>
        requires { IsIndexOf (row_relocations self.now.merged.now.program self.now.id.0) index.now }
        ensures value { result
            ≡ reference_at (row_relocations self.now.merged.now.program self.now.id.0) offset }
        ensures within { IfSome result (λ reloc.
            IsWithin (row_count self.now.merged.now.program) reloc.target) }
    {
        index.find(self, offset)
    }
}
