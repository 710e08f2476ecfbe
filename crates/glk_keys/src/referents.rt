// The rows that references mean.
ghost use Rattle.std.specs.Prelude.{◌≡◌, ◌+◌, ◌<◌, ◌≤◌, length, IfSome};
ghost use Rattle.glk_arena.specs.World.{objects_of};
ghost use Rattle.glk_keys.specs.Blocks.{starts_of, range_view};
ghost use Rattle.glk_keys.specs.LocalIndices.{symdef_symbols, hashed64_symbols, hashed_symbols, unpackaged_symbols};
ghost use Rattle.glk_keys.specs.Rows.{object_at};
ghost use Rattle.glk_keys.specs.Targets.{row_among, builtin_referent, package_referent, package_of_entry as package_of, referent_of, IsRowOf};
ghost use Rattle.glk_obj.specs.Object.{IsObject};
ghost use Rattle.glk_obj.specs.Records.{symbols};
ghost use Rattle.glk_obj.specs.Views.{ref_view};

use crate::blocks::IndexRange;
use crate::own_symbols::OWN_COUNT;
use crate::rows::Rows;
use crate::target::Referent;
use glk_base::{ObjId, SymId};
use glk_obj::{
    BUILTIN_PACKAGE, Block, HASHED_PACKAGE, HASHED64_PACKAGE, NIL_PACKAGE, NONE_PACKAGE,
    SELF_PACKAGE, SymRef,
};

impl<'a> Rows<'a> {
    // The row of an index among some symbols of an object.
    #[tactic(auto, unfolding(crate::specs::Targets::row_among))]
    fn among(&self, n: u32, range: IndexRange, index: u32) -> Referent
        requires object { n < length (objects_of self.now.world) }
        requires range { range.first + range.size ≤ symbols (object_at self.now n) }
        ensures row { result ≡ row_among self.now n (range_view range) index }
        ensures within { IsRowOf self.now result }
    {
        let _rows = self.of_objects();
        let first = self.first_row(n);
        if index < range.size {
            Referent::Row(SymId(first + (range.first + index)))
        } else {
            Referent::Missing
        }
    }

    // The row of an index in the builtin list.
    #[tactic(auto, unfolding(crate::specs::Targets::builtin_referent, crate::specs::Rows::builtin_row))]
    fn builtin_row(&self, index: u32) -> Referent
        ensures row { result ≡ builtin_referent self.now index }
        ensures within { IsRowOf self.now result }
    {
        let count = self.count();
        let first = self.of_objects() + OWN_COUNT;
        if index < count - first {
            Referent::Row(SymId(first + index))
        } else {
            Referent::Missing
        }
    }

    // The row of an index in a loaded package.
    fn package_row(&self, found: Option<u32>, index: u32) -> Referent
        requires { IfSome found (λ q. q < length self.now.world) }
        ensures row { result ≡ package_referent self.now found index }
        ensures within { IsRowOf self.now result }
    {
        match found {
            Some(q) => {
                if self.has_object(q) {
                    let first = self.first_object(q);
                    let range = self.blocks(first).symdef(self.object(ObjId(first)));
                    self.among(first, range, index)
                } else {
                    Referent::Missing
                }
            }
            None => Referent::Missing,
        }
    }

    // The number of the loaded package that an entry of PkgIdx means.
    #[tactic(auto, unfolding(crate::specs::Targets::package_of_entry))]
    fn package_of_entry(&self, o: ObjId, pkg: u32) -> Option<u32>
        requires { o.0 < length (objects_of self.now.world) }
        ensures value { result ≡ package_of self.now o.0 pkg }
        ensures inside { IfSome result (λ q. q < length self.now.world) }
    {
        let object = self.object(o);
        if pkg < object.count(Block::PkgIdx) {
            self.find_package(object.pkg(pkg))
        } else {
            None
        }
    }

    /// The row that a reference in an object means. It takes no memory, and for a reference into
    /// another package the time of a look-up of its path.
    #[tactic(auto, unfolding(crate::specs::Targets::referent_of))]
    pub fn referent(&self, o: ObjId, r: SymRef) -> Referent
        requires { o.0 < length (objects_of self.now.world) }
        ensures row { result ≡ referent_of self.now o.0 (ref_view r) }
        ensures within { IsRowOf self.now result }
    {
        let object = self.object(o);
        let starts = self.blocks(o.0);
        if r.pkg == NIL_PACKAGE {
            if r.sym == 0 {
                Referent::Nothing
            } else {
                Referent::Missing
            }
        } else if r.pkg == NONE_PACKAGE {
            self.among(o.0, starts.unpackaged(object), r.sym)
        } else if r.pkg == HASHED64_PACKAGE {
            self.among(o.0, starts.short_hashed(object), r.sym)
        } else if r.pkg == HASHED_PACKAGE {
            self.among(o.0, starts.long_hashed(object), r.sym)
        } else if r.pkg == SELF_PACKAGE {
            self.among(o.0, starts.symdef(object), r.sym)
        } else if r.pkg == BUILTIN_PACKAGE {
            self.builtin_row(r.sym)
        } else {
            self.package_row(self.package_of_entry(o, r.pkg), r.sym)
        }
    }
}
