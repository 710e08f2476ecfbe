// What the definitions among the rows hold: their data, relocations and auxes.
ghost use Rattle.std.specs.Prelude.{◌≡◌, ◌<◌, length, get_or, true, IsTrue};
ghost use Rattle.glk_arena.specs.World.{objects_of};
ghost use Rattle.glk_keys.specs.Blocks.{starts_of};
ghost use Rattle.glk_keys.specs.Relocations.{relocs_of, auxes_of, no_reloc, no_aux};
ghost use Rattle.glk_keys.specs.Rows.{is_definition, is_from_definition, origin_at, object_at, object_row, row_at, row_count};
ghost use Rattle.glk_obj.specs.Positive.{IsTarget, HasDataWithin, HasFieldWithin};
ghost use Rattle.glk_obj.specs.Records.{symbols, definitions};
ghost use Rattle.glk_obj.specs.Views.{ref_view, reloc_view, aux_view};

use crate::blocks::{BlockStarts, SymbolBlock};
use crate::objects::LocalSymbol;
use crate::rows::Rows;
use glk_base::{ObjId, SymId};
use glk_obj::{AuxRec, ObjView, RelocRec};

// Whether symbol `i` of an object is a definition.
fn is_definition_in(object: &ObjView<'_>, starts: BlockStarts, i: u32) -> bool
    requires starts { starts ≡ starts_of object.now }
    requires symbol { i < symbols object.now }
    ensures { result ≡ is_from_definition (origin_at object.now i) }
{
    match starts.block(object, i) {
        SymbolBlock::Symdef => true,
        SymbolBlock::Hashed64def => true,
        SymbolBlock::Hasheddef => true,
        SymbolBlock::Nonpkgdef => true,
        SymbolBlock::Nonpkgref => false,
    }
}

impl<'a> Rows<'a> {
    /// Whether a row is a definition of an object; the others are references.
    pub fn is_def(&self, id: SymId) -> bool
        requires { id.0 < row_count self.now }
        ensures { result ≡ is_definition (row_at self.now id.0) }
    {
        if id.0 < self.of_objects() {
            let at = self.place(id.0);
            is_definition_in(
                self.object(ObjId(at.object)),
                self.blocks(at.object),
                at.index,
            )
        } else {
            false
        }
    }

    // The symbol that a definition is.
    fn definition(&self, id: u32) -> LocalSymbol
        requires row { id < row_count self.now }
        requires definition { is_definition (row_at self.now id) ≡ true }
        ensures object { result.object < length (objects_of self.now.world) }
        ensures index { result.index < definitions (object_at self.now result.object) }
        ensures row { row_at self.now id
            ≡ object_row result.object (object_at self.now result.object) result.index }
    {
        self.place(id)
    }

    /// The data of a definition.
    pub fn data(&self, id: SymId) -> &'a [u8]
        requires row { id.0 < row_count self.now }
        requires definition { is_definition (row_at self.now id.0) ≡ true }
        ensures value { result.now ≡ (row_at self.now id.0).content }
        ensures within { HasDataWithin (row_at self.now id.0).symbol (length result.now) }
    {
        let at = self.definition(id.0);
        self.object(ObjId(at.object)).data(at.index)
    }

    /// How many relocations a definition has.
    pub fn relocs(&self, id: SymId) -> u32
        requires row { id.0 < row_count self.now }
        requires definition { is_definition (row_at self.now id.0) ≡ true }
        ensures { result ≡ length (relocs_of self.now id.0) }
    {
        let at = self.definition(id.0);
        self.object(ObjId(at.object)).relocs(at.index)
    }

    /// Relocation `k` of a definition.
    pub fn reloc(&self, id: SymId, k: u32) -> RelocRec
        requires row { id.0 < row_count self.now }
        requires definition { is_definition (row_at self.now id.0) ≡ true }
        requires index { k < length (relocs_of self.now id.0) }
        ensures value { reloc_view result ≡ get_or (relocs_of self.now id.0) k no_reloc }
        ensures target { IsTarget (object_at self.now (row_at self.now id.0).object)
            (ref_view result.target) }
        ensures within { HasFieldWithin (row_at self.now id.0).symbol (reloc_view result) }
    {
        let at = self.definition(id.0);
        self.object(ObjId(at.object)).reloc(at.index, k)
    }

    /// How many auxes a definition has.
    pub fn auxes(&self, id: SymId) -> u32
        requires row { id.0 < row_count self.now }
        requires definition { is_definition (row_at self.now id.0) ≡ true }
        ensures { result ≡ length (auxes_of self.now id.0) }
    {
        let at = self.definition(id.0);
        self.object(ObjId(at.object)).auxes(at.index)
    }

    /// Aux `k` of a definition.
    pub fn aux(&self, id: SymId, k: u32) -> AuxRec
        requires row { id.0 < row_count self.now }
        requires definition { is_definition (row_at self.now id.0) ≡ true }
        requires index { k < length (auxes_of self.now id.0) }
        ensures value { aux_view result ≡ get_or (auxes_of self.now id.0) k no_aux }
        ensures target { IsTarget (object_at self.now (row_at self.now id.0).object)
            (ref_view result.target) }
    {
        let at = self.definition(id.0);
        self.object(ObjId(at.object)).aux(at.index, k)
    }
}
