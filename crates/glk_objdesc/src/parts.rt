// What definitions have in the blocks.
ghost use Rattle.std.specs.Prelude.{◌≡◌, ◌+◌};
ghost use Rattle.glk_objdesc.specs.Canonical.{amount};

use crate::desc::DefDesc;

/// A part of a definition that has a block of its own.
#[derive(Clone, Copy, Debug)]
pub(crate) enum Part {
    Hash,
    Content,
    Relocs,
    Auxes,
}

impl Part {
    /// How many bytes or records a definition has there.
    pub(crate) fn amount(self, def: &DefDesc) -> usize
        ensures { result ≡ amount self def.now }
    {
        match self {
            Part::Hash => def.hash.as_bytes().len(),
            Part::Content => def.content.as_bytes().len(),
            Part::Relocs => def.relocs.as_slice().len(),
            Part::Auxes => def.auxes.as_slice().len(),
        }
    }
}
