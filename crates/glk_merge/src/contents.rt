// What a merged program answers of its rows: the rows of objects and their contents.
ghost use Rattle.std.specs.Prelude.{◌≡◌, ◌<◌, ◌≤◌, length, get_or, true};
ghost use Rattle.glk_arena.specs.World.{objects_of};
ghost use Rattle.glk_keys.specs.Packages.{package_path};
ghost use Rattle.glk_keys.specs.Relocations.{relocs_of, auxes_of, no_reloc, no_aux, is_weak, reloc_kind, reloc_target, aux_target};
ghost use Rattle.glk_keys.specs.Rows.{row_at, row_count, row_limit, object_at, is_definition};
ghost use Rattle.glk_keys.specs.Targets.{target_of};
ghost use Rattle.glk_merge.specs.Mergings.{IsDefinitionRow, IsTargetKey};
ghost use Rattle.glk_obj.specs.Numbers.{kind_of};
ghost use Rattle.glk_obj.specs.Object.{IsObject};
ghost use Rattle.glk_obj.specs.Positive.{IsTarget, HasDataWithin, HasFieldWithin};
ghost use Rattle.glk_obj.specs.Views.{ref_view, symbol_view, reloc_view, aux_view};

use crate::merged::Merged;
use glk_base::{ObjId, SymId};
use glk_keys::Target;
use glk_obj::{AuxRec, ObjView, RelocKind, RelocRec, SymRec, SymRef};

// The bit of a relocation's number that says that it is weak.
const WEAK: u16 = 1 << 15;

impl<'a> Merged<'a> {
    /// How many rows there are: those of the objects, and after them the linker's own.
    pub fn rows(&self) -> u32
        ensures value { result ≡ row_count self.now.program }
        ensures small { row_count self.now.program ≤ row_limit }
    {
        self.rows.count()
    }

    /// The symbol of a row. Of the linker's own symbols the name, the ABI and the size are told.
    pub fn row(&self, id: SymId) -> SymRec<'a>
        requires { id.0 < row_count self.now.program }
        ensures { symbol_view result ≡ (row_at self.now.program id.0).symbol }
    {
        self.rows.row(id)
    }

    /// The object of a row, and the row's local index there. The linker's own rows are in one object more.
    pub fn owner(&self, id: SymId) -> (ObjId, u32)
        requires { id.0 < row_count self.now.program }
        ensures object { result.0.0 ≡ (row_at self.now.program id.0).object }
        ensures local { result.1 ≡ (row_at self.now.program id.0).local }
    {
        self.rows.owner(id)
    }

    /// How many objects there are.
    pub fn objects(&self) -> u32
        ensures { result ≡ length (objects_of self.now.program.world) }
    {
        self.rows.objects()
    }

    /// An object.
    pub fn object(&self, o: ObjId) -> &ObjView<'a>
        requires { o.0 < length (objects_of self.now.program.world) }
        ensures object { IsObject result.now }
        ensures value { result.now ≡ object_at self.now.program o.0 }
    {
        self.rows.object(o)
    }

    /// The path of the package that holds an object. The time is logarithmic in the packages.
    pub fn package(&self, o: ObjId) -> &'a [u8]
        requires { o.0 < length (objects_of self.now.program.world) }
        ensures { result.now ≡ package_path self.now.program o.0 }
    {
        self.rows.package(o)
    }

    /// The kind that a number of relocations means, if it means one. The bit that says weak is no part
    /// of the number.
    pub fn kind(&self, number: u16) -> Option<RelocKind>
        ensures { result ≡ kind_of self.now.program.numbers number }
    {
        self.rows.kind(number)
    }

    /// Whether a row is a definition of an object; the others are references.
    pub fn is_def(&self, id: SymId) -> bool
        requires { id.0 < row_count self.now.program }
        ensures { result ≡ is_definition (row_at self.now.program id.0) }
    {
        self.rows.is_def(id)
    }

    /// The data of a definition.
    pub fn data(&self, id: SymId) -> &'a [u8]
        requires { IsDefinitionRow self.now.program id.0 }
        ensures value { result.now ≡ (row_at self.now.program id.0).content }
        ensures within { HasDataWithin (row_at self.now.program id.0).symbol (length result.now) }
    {
        self.rows.data(id)
    }

    /// How many relocations a definition has.
    pub fn relocs(&self, id: SymId) -> u32
        requires { IsDefinitionRow self.now.program id.0 }
        ensures { result ≡ length (relocs_of self.now.program id.0) }
    {
        self.rows.relocs(id)
    }

    /// Relocation `k` of a definition.
    pub fn reloc(&self, id: SymId, k: u32) -> RelocRec
        requires row { IsDefinitionRow self.now.program id.0 }
        requires index { k < length (relocs_of self.now.program id.0) }
        ensures value { reloc_view result ≡ get_or (relocs_of self.now.program id.0) k no_reloc }
        ensures target { IsTarget (object_at self.now.program (row_at self.now.program id.0).object)
            (ref_view result.target) }
        ensures within { HasFieldWithin (row_at self.now.program id.0).symbol (reloc_view result) }
    {
        self.rows.reloc(id, k)
    }

    /// The kind of relocation `k` of a definition, if its number means one.
    pub fn reloc_kind(&self, id: SymId, k: u32) -> Option<RelocKind>
        requires row { IsDefinitionRow self.now.program id.0 }
        requires index { k < length (relocs_of self.now.program id.0) }
        ensures { result
            ≡ reloc_kind self.now.program (get_or (relocs_of self.now.program id.0) k no_reloc) }
    {
        self.kind(self.reloc(id, k).kind % WEAK)
    }

    /// Whether relocation `k` of a definition is weak.
    pub fn is_weak(&self, id: SymId, k: u32) -> bool
        requires row { IsDefinitionRow self.now.program id.0 }
        requires index { k < length (relocs_of self.now.program id.0) }
        ensures { result ≡ is_weak (get_or (relocs_of self.now.program id.0) k no_reloc) }
    {
        self.reloc(id, k).kind & WEAK != 0
    }

    /// What relocation `k` of a definition means.
    pub fn reloc_target(&self, id: SymId, k: u32) -> Target
        requires row { IsDefinitionRow self.now.program id.0 }
        requires index { k < length (relocs_of self.now.program id.0) }
        ensures value { result
            ≡ reloc_target self.now.program id.0 (get_or (relocs_of self.now.program id.0) k no_reloc) }
        ensures key { IsTargetKey self.now.program result }
    {
        let target = self.reloc(id, k).target;
        self.target_from(id, target)
    }

    /// How many auxes a definition has.
    pub fn auxes(&self, id: SymId) -> u32
        requires { IsDefinitionRow self.now.program id.0 }
        ensures { result ≡ length (auxes_of self.now.program id.0) }
    {
        self.rows.auxes(id)
    }

    /// Aux `k` of a definition.
    pub fn aux(&self, id: SymId, k: u32) -> AuxRec
        requires row { IsDefinitionRow self.now.program id.0 }
        requires index { k < length (auxes_of self.now.program id.0) }
        ensures value { aux_view result ≡ get_or (auxes_of self.now.program id.0) k no_aux }
        ensures target { IsTarget (object_at self.now.program (row_at self.now.program id.0).object)
            (ref_view result.target) }
    {
        self.rows.aux(id, k)
    }

    /// What aux `k` of a definition means.
    pub fn aux_target(&self, id: SymId, k: u32) -> Target
        requires row { IsDefinitionRow self.now.program id.0 }
        requires index { k < length (auxes_of self.now.program id.0) }
        ensures value { result
            ≡ aux_target self.now.program id.0 (get_or (auxes_of self.now.program id.0) k no_aux) }
        ensures key { IsTargetKey self.now.program result }
    {
        let target = self.aux(id, k).target;
        self.target_from(id, target)
    }

    // What a reference of a definition means.
    fn target_from(&self, id: SymId, r: SymRef) -> Target
        requires { IsDefinitionRow self.now.program id.0 }
        ensures value { result
            ≡ target_of self.now.program (row_at self.now.program id.0).object (ref_view r) }
        ensures key { IsTargetKey self.now.program result }
    {
        let (o, _) = self.owner(id);
        self.target(o, r)
    }
}
