// What packages offer to the objects that refer to them, so that a path is looked up once for each entry of
// an object's list of packages, and not for each reference.
ghost use Rattle.std.specs.Prelude.{◌≡◌, ◌+◌, ◌<◌, ◌≤◌, ℕ, length, IfOk, IfSome, OnOk};
ghost use Rattle.glk_arena.specs.World.{objects_of};
ghost use Rattle.glk_keys.specs.LocalIndices.{symdef_symbols};
ghost use Rattle.glk_keys.specs.Names.{is_special as is_special_number};
ghost use Rattle.glk_keys.specs.Rows.{object_at, row_count};
ghost use Rattle.glk_keys.specs.Targets.{row_among, package_of_entry, referent_of, IsRowOf};
ghost use Rattle.glk_merge.specs.Offers.{offered, IsOffer, AppendsOffers, AreOffers};
ghost use Rattle.glk_obj.specs.Blocks.{count, pkg_idx};
ghost use Rattle.glk_obj.specs.Views.{ref_view};

use glk_arena::Loaded;
use glk_base::{ObjId, OutOfMemory, SymId};
use glk_keys::{Referent, Rows};
use glk_obj::{
    BUILTIN_PACKAGE, Block, HASHED_PACKAGE, HASHED64_PACKAGE, NIL_PACKAGE, NONE_PACKAGE,
    SELF_PACKAGE, SymRef,
};
use std::alloc::{AllocError, Global};

// Rows that are offered, one after the other.
#[derive(Clone, Copy, Debug)]
pub(crate) struct Offer {
    pub first: u32,
    pub count: u32,
}

// The offers to all objects, one for each entry of each list of packages.
#[derive(Drop)]
pub(crate) struct Offers {
    // where the offers to each object begin, and after the last one where they end
    pub starts: Vec<usize>,
    pub list: Vec<Offer>,
}

// The symbols of Symdef of an object.
fn object_offer(rows: &Rows<'_>, o: u32) -> Offer
    requires { o < length (objects_of rows.now.world) }
    ensures rows { (index : ℕ)
        → row_among rows.now o (symdef_symbols (object_at rows.now o)) index ≡ offered result index }
    ensures within { result.first + result.count ≤ row_count rows.now }
{
    let count = rows.object(ObjId(o)).count(Block::Symdef);
    let first = SymRef {
        pkg: SELF_PACKAGE,
        sym: 0,
    };
    match rows.referent(ObjId(o), first) {
        Referent::Row(id) => Offer { first: id.0, count },
        Referent::Nothing => Offer { first: 0, count: 0 },
        Referent::Missing => Offer { first: 0, count: 0 },
    }
}

// What a package offers, if there is one.
fn package_offer(rows: &Rows<'_>, loaded: &Loaded, found: Option<u32>) -> Offer
    requires world { loaded.now ≡ rows.now.world }
    requires found { IfSome found (λ q. q < length loaded.now) }
    ensures { IsOffer rows.now found result }
{
    match found {
        Some(q) => {
            if loaded.object_count(q) == 0 {
                Offer { first: 0, count: 0 }
            } else {
                object_offer(rows, loaded.first_object(q))
            }
        }
        None => Offer { first: 0, count: 0 },
    }
}

// What is offered to entry `k` of object `n`.
fn entry_offer(rows: &Rows<'_>, loaded: &Loaded, n: u32, k: u32) -> Offer
    requires world { loaded.now ≡ rows.now.world }
    requires object { n < length (objects_of rows.now.world) }
    requires entry { k < count (object_at rows.now n) pkg_idx }
    ensures { IsOffer rows.now (package_of_entry rows.now n k) result }
{
    let path = rows.object(ObjId(n)).pkg(k);
    package_offer(rows, loaded, loaded.find_package(path))
}

// Adds what is offered to object `n`.
fn push_offers(
    offers: &mut Vec<Offer>,
    rows: &Rows<'_>,
    loaded: &Loaded,
    n: u32,
) -> Result<(), AllocError>
    requires world { loaded.now ≡ rows.now.world }
    requires object { n < length (objects_of rows.now.world) }
    ensures { OnOk result (AppendsOffers rows.now n
        (count (object_at rows.now n) pkg_idx) offers.old.items offers.new.items) }
{
    let entries = rows.object(ObjId(n)).count(Block::PkgIdx);
    for k in 0..entries {
        offers.push(entry_offer(rows, loaded, n, k))?;
    }
    Ok(())
}

// The offers to all objects. Each path of a list of packages is looked up once.
pub(crate) fn offers_of(
    alloc: Global,
    rows: &Rows<'_>,
    loaded: &Loaded,
) -> Result<Offers, OutOfMemory>
    requires { loaded.now ≡ rows.now.world }
    ensures { IfOk result (λ offers. AreOffers rows.now offers.starts.items offers.list.items) }
{
    let mut starts = Vec::new(alloc);
    starts.push(0usize)?;
    let mut list = Vec::new(alloc);
    for n in 0..rows.objects() {
        push_offers(&mut list, rows, loaded, n)?;
        starts.push(list.len())?;
    }
    Ok(Offers { starts, list })
}

// Whether a package number means no entry of a list of packages.
fn is_special(pkg: u32) -> bool
    ensures { result ≡ is_special_number pkg }
{
    pkg == NIL_PACKAGE
        || pkg == NONE_PACKAGE
        || pkg == HASHED64_PACKAGE
        || pkg == HASHED_PACKAGE
        || pkg == BUILTIN_PACKAGE
        || pkg == SELF_PACKAGE
}

impl Offer {
    // The row of an index among those that are offered.
    fn referent(self, rows: &Rows<'_>, index: u32) -> Referent
        requires { self.first + self.count ≤ row_count rows.now }
        ensures row { result ≡ offered self index }
        ensures within { IsRowOf rows.now result }
    {
        let _rows = rows.count();
        if index < self.count {
            Referent::Row(SymId(self.first + index))
        } else {
            Referent::Missing
        }
    }
}

// The row that a reference in an object means. It takes constant time, and no memory.
pub(crate) fn referent(rows: &Rows<'_>, offers: &Offers, o: ObjId, r: SymRef) -> Referent
    requires offers { AreOffers rows.now offers.now.starts.items offers.now.list.items }
    requires object { o.0 < length (objects_of rows.now.world) }
    ensures row { result ≡ referent_of rows.now o.0 (ref_view r) }
    ensures within { IsRowOf rows.now result }
{
    if is_special(r.pkg) {
        return rows.referent(o, r);
    }
    let start = offers.starts[o.0 as usize];
    let end = offers.starts[o.0 as usize + 1];
    if (r.pkg as usize) < end - start {
        offers.list[start + r.pkg as usize].referent(rows, r.sym)
    } else {
        Referent::Missing
    }
}
