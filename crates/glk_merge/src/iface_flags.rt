// Which types are turned into an interface.
ghost use Rattle.std.specs.Prelude.{◌≡◌, ◌<◌, ◌||◌, ℕ, length, get_or, false, true, if◌then◌else◌, None, IfOk};
ghost use Rattle.glk_arena.specs.World.{objects_of};
ghost use Rattle.glk_keys.specs.Interfaces.{is_marked_in};
ghost use Rattle.glk_keys.specs.Rows.{row_at, row_count, object_at, is_definition};
ghost use Rattle.glk_merge.specs.KeyTables.{AreKeyIds, AreIfaceFlags};
ghost use Rattle.glk_merge.specs.Marks.{is_at, some_below, row_marks, object_marks};
ghost use Rattle.glk_merge.specs.Offers.{AreOffers};
ghost use Rattle.glk_obj.specs.Blocks.{count, ref_flags};

use crate::offers::{Offers, referent};
use glk_base::{ObjId, OutOfMemory, SymId};
use glk_keys::{Referent, Rows};
use glk_obj::Block;
use std::alloc::Global;

// Marks a key, if there is one.
fn mark(flags: &mut [bool], key: Option<u32>)
    ensures { (k : ℕ) → k < length flags.old
        → get_or flags.new k false ≡ (get_or flags.old k false || is_at key k) }
{
    match key {
        Some(k) => {
            if (k as usize) < flags.len() {
                flags[k as usize] = true;
            }
        }
        None => {}
    }
}

// The key that the definition of a row marks.
fn marked_by_row(rows: &Rows<'_>, keys: &[u32], id: u32) -> Option<u32>
    requires keys { AreKeyIds rows.now keys.now }
    requires row { id < row_count rows.now }
    ensures { (k : ℕ) → is_at result k ≡ row_marks rows.now k id }
{
    if rows.is_def(SymId(id)) && rows.row(SymId(id)).is_used_in_iface() {
        Some(keys[id as usize])
    } else {
        None
    }
}

// The key that a record of flags of an object marks.
#[tactic(auto, unfolding(glk_keys::specs::Targets::target_of))]
fn marked_by_flags(rows: &Rows<'_>, offers: &Offers, keys: &[u32], n: u32, i: u32) -> Option<u32>
    requires offers { AreOffers rows.now offers.now.starts.items offers.now.list.items }
    requires keys { AreKeyIds rows.now keys.now }
    requires object { n < length (objects_of rows.now.world) }
    requires index { i < count (object_at rows.now n) ref_flags }
    ensures { (k : ℕ) → is_at result k ≡ object_marks rows.now k n i }
{
    let flags = rows.object(ObjId(n)).ref_flags(i);
    if !flags.is_used_in_iface() {
        return None;
    }
    match referent(rows, offers, ObjId(n), flags.target) {
        Referent::Row(id) => Some(keys[id.0 as usize]),
        Referent::Nothing => None,
        Referent::Missing => None,
    }
}

// Marks what the definitions of all rows mark.
fn mark_rows(flags: &mut [bool], rows: &Rows<'_>, keys: &[u32])
    requires keys { AreKeyIds rows.now keys.now }
    ensures { (k : ℕ) → k < length flags.old → get_or flags.new k false
        ≡ (get_or flags.old k false || some_below (row_marks rows.now k) (row_count rows.now)) }
{
    for id in 0..rows.count() {
        mark(flags, marked_by_row(rows, keys, id));
    }
}

// Marks what the records of flags of one object mark.
fn mark_object(flags: &mut [bool], rows: &Rows<'_>, offers: &Offers, keys: &[u32], n: u32)
    requires offers { AreOffers rows.now offers.now.starts.items offers.now.list.items }
    requires keys { AreKeyIds rows.now keys.now }
    requires object { n < length (objects_of rows.now.world) }
    ensures { (k : ℕ) → k < length flags.old → get_or flags.new k false
        ≡ (get_or flags.old k false || is_marked_in rows.now k n) }
{
    let count = rows.object(ObjId(n)).count(Block::RefFlags);
    for i in 0..count {
        mark(flags, marked_by_flags(rows, offers, keys, n, i));
    }
}

// Marks what the records of flags of all objects mark.
fn mark_objects(flags: &mut [bool], rows: &Rows<'_>, offers: &Offers, keys: &[u32])
    requires offers { AreOffers rows.now offers.now.starts.items offers.now.list.items }
    requires keys { AreKeyIds rows.now keys.now }
    ensures { (k : ℕ) → k < length flags.old → get_or flags.new k false
        ≡ (get_or flags.old k false
        || some_below (is_marked_in rows.now k) (length (objects_of rows.now.world))) }
{
    for n in 0..rows.objects() {
        mark_object(flags, rows, offers, keys, n);
    }
}

// Marks what the definitions and the records of flags of all rows and objects mark, where nothing is
// marked yet.
fn mark_all(flags: &mut [bool], rows: &Rows<'_>, offers: &Offers, keys: &[u32])
    requires offers { AreOffers rows.now offers.now.starts.items offers.now.list.items }
    requires keys { AreKeyIds rows.now keys.now }
    requires long { length flags.old ≡ row_count rows.now }
    requires none { (k : ℕ) → k < length flags.old → get_or flags.old k false ≡ false }
    ensures { AreIfaceFlags rows.now flags.new }
{
    mark_rows(flags, rows, keys);
    mark_objects(flags, rows, offers, keys);
}

// At each key whether it is a type that is turned into an interface. It takes one pass over the rows and one
// over the records of flags.
pub(crate) fn iface_flags(
    alloc: Global,
    rows: &Rows<'_>,
    offers: &Offers,
    keys: &[u32],
) -> Result<Vec<bool>, OutOfMemory>
    requires offers { AreOffers rows.now offers.now.starts.items offers.now.list.items }
    requires keys { AreKeyIds rows.now keys.now }
    ensures { IfOk result (λ flags. AreIfaceFlags rows.now flags.items) }
{
    let mut flags = Vec::new(alloc);
    flags.resize(rows.count() as usize, false)?;
    mark_all(flags.as_mut_slice(), rows, offers, keys);
    Ok(flags)
}
