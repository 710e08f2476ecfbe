// The rule on the entries of the tables of indices: RelocIdx, AuxIdx and DataIdx.
ghost use Rattle.std.specs.Prelude.{◌≡◌, ◌+◌, ◌*◌, ◌<◌, ◌≤◌, ◌^◌, ◌↔◌, ℕ, length, IsTrue};
ghost use Rattle.glk_obj.specs.Blocks.{offset_of, count as count_of, entry_width};
ghost use Rattle.glk_obj.specs.Layout.{HasLayout};
ghost use Rattle.glk_base.specs.Least.{LeastOf};
ghost use Rattle.glk_obj.specs.Records.{entry_at};
ghost use Rattle.glk_obj.specs.Rules.{IsTable, pointed_block as pointed_block_of, IsBadEntry, TableFault, HasBadEntry};

use crate::blocks::{Block, ENTRY_WIDTH, count_at, offset_at};
use glk_base::le32;

// The block that table `t` points into.
fn pointed_block(t: usize) -> usize
    requires { IsTable t }
    ensures { result ≡ pointed_block_of t }
{
    t + (Block::Reloc.number() - Block::RelocIdx.number())
}

// How many entries table `t` has.
fn entries(bytes: &[u8], t: usize) -> u32
    requires layout { HasLayout bytes.now }
    requires table { IsTable t }
    ensures value { result ≡ count_of bytes.now t }
    ensures room { offset_of bytes.now t + entry_width * result ≤ length bytes.now }
    ensures inside { offset_of bytes.now t + entry_width * result ≤ offset_of bytes.now (t + 1) }
{
    count_at(bytes, t)
}

// Whether entry `i` of table `t`, at `at`, is below the one before, or the last one and past the
// end of what the table points into.
#[tactic(auto, unfolding(crate::specs::Rules::IsBadEntry))]
fn is_bad_entry(bytes: &[u8], t: usize, i: u32, start: usize, entries: u32, limit: u32) -> bool
    requires start { start ≡ offset_of bytes.now t }
    requires low { start < 2 ^ 32 }
    requires entries { entries ≡ count_of bytes.now t }
    requires limit { limit ≡ count_of bytes.now (pointed_block_of t) }
    requires room { start + entry_width * entries ≤ length bytes.now }
    requires index { i < entries }
    ensures { IsTrue result ↔ IsBadEntry bytes.now t i }
{
    let at = start + ENTRY_WIDTH * i as usize;
    let entry = le32(bytes, at).unwrap();
    if 0 < i && entry < le32(bytes, at - ENTRY_WIDTH).unwrap() {
        return true;
    }
    i + 1 == entries && limit < entry
}

// The first bad entry of table `t`.
fn bad_entry_of(bytes: &[u8], t: usize) -> Option<u64>
    requires layout { HasLayout bytes.now }
    requires table { IsTable t }
    ensures { LeastOf (TableFault bytes.now t) result }
{
    let start = offset_at(bytes, t);
    let entries = entries(bytes, t);
    let limit = count_at(bytes, pointed_block(t));
    for i in 0..entries {
        if is_bad_entry(bytes, t, i, start, entries, limit) {
            return Some((start + ENTRY_WIDTH * i as usize) as u64);
        }
    }
    None
}

/// The first bad entry of the three tables.
pub(crate) fn bad_entry(bytes: &[u8]) -> Option<u64>
    requires { HasLayout bytes.now }
    ensures { LeastOf (HasBadEntry bytes.now) result }
{
    for t in Block::RelocIdx.number()..Block::Reloc.number() {
        match bad_entry_of(bytes, t) {
            Some(found) => return Some(found),
            None => {}
        }
    }
    None
}
