// The rules on what definitions have, and on the alignment of symbols.
ghost use Rattle.std.specs.Prelude.{◌≡◌, ◌+◌, ◌*◌, ◌<◌, ◌≤◌, ◌^◌, ◌↔◌, ℕ, length, IsTrue};
ghost use Rattle.glk_obj.specs.Blocks.{offset_of, symdef, reloc, reloc_idx, data_idx, symbol_width, entry_width, reloc_width};
ghost use Rattle.glk_obj.specs.Layout.{HasLayout};
ghost use Rattle.glk_base.specs.Least.{LeastOf};
ghost use Rattle.glk_obj.specs.Positive.{HasIndexTables};
ghost use Rattle.glk_obj.specs.Records.{definitions as definitions_of, symbols as symbols_of, symbol_at, symbol_offset as symbol_offset_of, entry_offset as entry_offset_of, reloc_index, reloc_count, reloc_offset as reloc_offset_of};
ghost use Rattle.glk_obj.specs.Rules.{HasContent, HasExcessData, HasLongData, IsFieldOutside, RelocFault, HasStrayReloc, IsAlign, IsOddlyAligned, HasOddAlign};

use crate::blocks::{Block, ENTRY_WIDTH, RELOC_WIDTH, offset};
use crate::offsets::{entry_offset, symbol_offset};
use crate::records::{SYMBOL_ALIGN, SYMBOL_KIND, SYMBOL_SIZE};
use crate::rules::{definitions, symbols};
use glk_base::le32;

// Whether the symbol is of a type with content.
#[tactic(auto, unfolding(crate::specs::Rules::HasContent))]
fn has_content(bytes: &[u8], at: usize, i: u32) -> bool
    requires at { at ≡ symbol_offset_of bytes.now i }
    requires room { at + symbol_width ≤ length bytes.now }
    ensures { IsTrue result ↔ HasContent bytes.now i }
{
    let _ = i;
    (1..=7).contains(&bytes[at + SYMBOL_KIND])
}

// The symbol's size.
fn size(bytes: &[u8], at: usize, i: u32) -> u32
    requires at { at ≡ symbol_offset_of bytes.now i }
    requires room { at + symbol_width ≤ length bytes.now }
    ensures { result ≡ (symbol_at bytes.now i).size }
{
    let _ = i;
    le32(bytes, at + SYMBOL_SIZE).unwrap()
}

// Whether a definition with content has more data than its size.
#[tactic(auto, unfolding(crate::specs::Rules::HasExcessData))]
fn has_excess_data(bytes: &[u8], at: usize, i: u32, entry: usize) -> bool
    requires at { at ≡ symbol_offset_of bytes.now i }
    requires room { at + symbol_width ≤ length bytes.now }
    requires entry { entry ≡ entry_offset_of bytes.now data_idx i }
    requires entries { entry + 2 * entry_width ≤ length bytes.now }
    ensures { IsTrue result ↔ HasExcessData bytes.now i }
{
    let from = le32(bytes, entry).unwrap();
    let to = le32(bytes, entry + ENTRY_WIDTH).unwrap();
    has_content(bytes, at, i) && size(bytes, at, i) < to.saturating_sub(from)
}

/// V14: a definition with content has more data than its size.
pub(crate) fn long_data(bytes: &[u8]) -> Option<u64>
    requires layout { HasLayout bytes.now }
    requires tables { HasIndexTables bytes.now }
    ensures { LeastOf (HasLongData bytes.now) result }
{
    let start = offset(bytes, Block::Symdef);
    let table = offset(bytes, Block::DataIdx);
    for i in 0..definitions(bytes) {
        let at = symbol_offset(bytes, start, i);
        let entry = entry_offset(bytes, Block::DataIdx, table, i);
        if has_excess_data(bytes, at, i, entry) {
            return Some(at as u64);
        }
    }
    None
}

// Whether relocation `k` of definition `i`, which is at `here`, begins before the definition or ends past
// its size.
#[tactic(auto, unfolding(crate::specs::Rules::IsFieldOutside))]
fn is_field_outside(bytes: &[u8], size: u32, here: usize, i: u32, k: u32) -> bool
    requires size { size ≡ (symbol_at bytes.now i).size }
    requires here { here ≡ reloc_offset_of bytes.now i k }
    requires inside { here + reloc_width ≤ length bytes.now }
    ensures { IsTrue result ↔ IsFieldOutside bytes.now i k }
{
    let _ = i;
    let _ = k;
    let from = le32(bytes, here).unwrap();
    if from > i32::MAX as u32 {
        return true;
    }
    (size as u64) < from as u64 + bytes[here + 4] as u64
}

// The first relocation of definition `i` that is stray; `from` and `to` are its entry and the next.
fn stray_reloc_of(bytes: &[u8], at: usize, i: u32, start: usize, from: u32, to: u32) -> Option<u64>
    requires layout { HasLayout bytes.now }
    requires tables { HasIndexTables bytes.now }
    requires index { i < definitions_of bytes.now }
    requires at { at ≡ symbol_offset_of bytes.now i }
    requires room { at + symbol_width ≤ length bytes.now }
    requires start { start ≡ offset_of bytes.now reloc }
    requires small { start < 2 ^ 32 }
    requires from { from ≡ reloc_index bytes.now i }
    requires to { to ≡ reloc_index bytes.now (i + 1) }
    ensures { LeastOf (RelocFault bytes.now i) result }
{
    if !has_content(bytes, at, i) {
        return None;
    }
    let size = size(bytes, at, i);
    for k in 0..to.saturating_sub(from) {
        let here = start + RELOC_WIDTH * (from as usize + k as usize);
        if is_field_outside(bytes, size, here, i, k) {
            return Some(here as u64);
        }
    }
    None
}

/// V15: a relocation of a definition with content begins before it, or ends past it.
pub(crate) fn stray_reloc(bytes: &[u8]) -> Option<u64>
    requires layout { HasLayout bytes.now }
    requires tables { HasIndexTables bytes.now }
    ensures { LeastOf (HasStrayReloc bytes.now) result }
{
    let start = offset(bytes, Block::Symdef);
    let table = offset(bytes, Block::RelocIdx);
    let relocs = offset(bytes, Block::Reloc);
    for i in 0..definitions(bytes) {
        let at = symbol_offset(bytes, start, i);
        let entry = entry_offset(bytes, Block::RelocIdx, table, i);
        let from = le32(bytes, entry).unwrap();
        let to = le32(bytes, entry + ENTRY_WIDTH).unwrap();
        match stray_reloc_of(bytes, at, i, relocs, from, to) {
            Some(found) => return Some(found),
            None => {}
        }
    }
    None
}

// The exponent of the greatest alignment, 4096.
const MAX_ALIGN_LOG: u32 = 12;

// Whether it is 0 or a power of two up to 4096.
fn is_align(align: u32) -> bool
    ensures { IsTrue result ↔ IsAlign align }
{
    if align == 0 {
        return true;
    }
    for e in 0..MAX_ALIGN_LOG + 1 {
        if align == 1u32 << e {
            return true;
        }
    }
    false
}

// Whether a symbol with content has another alignment.
#[tactic(auto, unfolding(crate::specs::Rules::IsOddlyAligned))]
fn is_oddly_aligned(bytes: &[u8], at: usize, i: u32) -> bool
    requires at { at ≡ symbol_offset_of bytes.now i }
    requires room { at + symbol_width ≤ length bytes.now }
    ensures { IsTrue result ↔ IsOddlyAligned bytes.now i }
{
    has_content(bytes, at, i) && !is_align(le32(bytes, at + SYMBOL_ALIGN).unwrap())
}

/// V16: the alignment of a symbol with content is neither 0 nor a power of two up to 4096. Here
/// references count too.
pub(crate) fn odd_align(bytes: &[u8]) -> Option<u64>
    requires { HasLayout bytes.now }
    ensures { LeastOf (HasOddAlign bytes.now) result }
{
    let start = offset(bytes, Block::Symdef);
    for i in 0..symbols(bytes) {
        let at = symbol_offset(bytes, start, i);
        if is_oddly_aligned(bytes, at, i) {
            return Some(at as u64);
        }
    }
    None
}
