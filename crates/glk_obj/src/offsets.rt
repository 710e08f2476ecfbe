// The offsets of the records of a checked object.
ghost use Rattle.std.specs.Prelude.{◌≡◌, ◌≢◌, ◌+◌, ◌-◌, ◌*◌, ◌/◌, ◌<◌, ◌≤◌, ◌^◌, ℕ, length, slice_range};
ghost use Rattle.std.specs.Option.{option_copied};
ghost use Rattle.glk_obj.specs.Blocks.{offset_of, extent_of, count as count_of, width_of, symdef, hasheddef, nonpkgref, ref_flags, ref_flags_width, hash, reloc, aux, contents, ref_name as ref_name_block, end, symbol_width, entry_width, reloc_width, aux_width, ref_name_width};
ghost use Rattle.glk_obj.specs.Layout.{HasLayout};
ghost use Rattle.glk_obj.specs.Object.{IsObject};
ghost use Rattle.glk_obj.specs.Positive.{HasIndexTables, IsTarget, HasDataWithin, HasFieldWithin};
ghost use Rattle.glk_obj.specs.Records.{definitions, symbols, entry_offset as entry_offset_of, entry_at, symbol_at, symbol_offset as symbol_offset_of, data_index, data_length, data_at, reloc_index, reloc_count, reloc_at, reloc_offset as reloc_offset_of, aux_index, aux_count, aux_at, aux_offset as aux_offset_of, ref_flags_at, hash_length, hash_at, ref_at, same_ref, ref_name, ref_name_offset as ref_name_offset_of};
ghost use Rattle.glk_obj.specs.References.{PassesEnd};
ghost use Rattle.glk_obj.specs.Rules.{IsTable, IsContentKind, IsAlign};
ghost use Rattle.glk_obj.specs.Views.{number_of, ref_view, symbol_view};

use crate::blocks::{
    AUX_WIDTH, Block, ENTRY_WIDTH, REF_NAME_WIDTH, RELOC_WIDTH, SYMBOL_WIDTH, width_at,
};
use crate::records::{SymRec, SymRef, reference, symbol};
use crate::references::{text, text_range};
use glk_base::le32;

/// The eight bytes from an offset on.
pub(crate) fn eight_bytes(bytes: &[u8], at: usize) -> [u8; 8]
    requires { at + 8 ≤ length bytes.now }
    ensures { result ≡ slice_range bytes.now at (at + 8) }
{
    *bytes[at..].first_chunk().unwrap()
}

/// The offset of record `k` of a block, the block being at `start`.
pub(crate) fn record_offset(bytes: &[u8], block: Block, start: u32, k: u32) -> usize
    requires layout { HasLayout bytes.now }
    requires below { number_of block < end }
    requires fixed { number_of block ≢ hash }
    requires start { start ≡ offset_of bytes.now (number_of block) }
    requires index { k < count_of bytes.now (number_of block) }
    ensures value { result ≡ offset_of bytes.now (number_of block) + width_of (number_of block) * k }
    ensures room { result + width_of (number_of block) ≤ length bytes.now }
{
    let _ = bytes;
    start as usize + width_at(block.number()) * k as usize
}

/// The same, where records begin with a string.
pub(crate) fn named_offset(bytes: &[u8], block: Block, start: u32, k: u32) -> usize
    requires object { IsObject bytes.now }
    requires layout { HasLayout bytes.now }
    requires named { number_of block ≤ nonpkgref }
    requires start { start ≡ offset_of bytes.now (number_of block) }
    requires index { k < count_of bytes.now (number_of block) }
    ensures value { result ≡ offset_of bytes.now (number_of block) + width_of (number_of block) * k }
    ensures room { result + width_of (number_of block) ≤ length bytes.now }
    ensures inside { PassesEnd bytes.now result → ⊥ }
{
    record_offset(bytes, block, start, k)
}

/// The offset of symbol `i`, the symbols being at `start`.
pub(crate) fn symbol_offset(bytes: &[u8], start: usize, i: u32) -> usize
    requires layout { HasLayout bytes.now }
    requires start { start ≡ offset_of bytes.now symdef }
    requires small { start < 2 ^ 32 }
    requires index { i < symbols bytes.now }
    ensures value { result ≡ symbol_offset_of bytes.now i }
    ensures room { result + symbol_width ≤ length bytes.now }
{
    let _ = bytes;
    start + SYMBOL_WIDTH * i as usize
}

// The same in an object, where the symbol's name is known to be in the file.
fn named_symbol_offset(bytes: &[u8], start: u32, i: u32) -> usize
    requires object { IsObject bytes.now }
    requires layout { HasLayout bytes.now }
    requires start { start ≡ offset_of bytes.now symdef }
    requires index { i < symbols bytes.now }
    ensures value { result ≡ symbol_offset_of bytes.now i }
    ensures room { result + symbol_width ≤ length bytes.now }
    ensures inside { PassesEnd bytes.now result → ⊥ }
{
    symbol_offset(bytes, start as usize, i)
}

/// Symbol `i`, the symbols being at `start`.
pub(crate) fn symbol_of(bytes: &[u8], start: u32, i: u32) -> SymRec<'_>
    requires object { IsObject bytes.now }
    requires layout { HasLayout bytes.now }
    requires start { start ≡ offset_of bytes.now symdef }
    requires index { i < symbols bytes.now }
    ensures value { symbol_view result ≡ symbol_at bytes.now i }
    ensures aligned { IsContentKind result.kind → IsAlign result.align }
{
    symbol(bytes, named_symbol_offset(bytes, start, i))
}

/// Where the name of symbol `i` begins and ends, the symbols being at `start`.
pub(crate) fn name_range(bytes: &[u8], start: u32, i: u32) -> (usize, usize)
    requires object { IsObject bytes.now }
    requires layout { HasLayout bytes.now }
    requires start { start ≡ offset_of bytes.now symdef }
    requires index { i < symbols bytes.now }
    ensures name { (symbol_at bytes.now i).name ≡ slice_range bytes.now result.0 result.1 }
    ensures order { result.0 ≤ result.1 }
    ensures within { result.1 ≤ length bytes.now }
{
    text_range(bytes, named_symbol_offset(bytes, start, i))
}

/// The offset of entry `i` of a table, the table being at `start`; another entry follows it.
pub(crate) fn entry_offset(bytes: &[u8], table: Block, start: usize, i: u32) -> usize
    requires layout { HasLayout bytes.now }
    requires tables { HasIndexTables bytes.now }
    requires table { IsTable (number_of table) }
    requires start { start ≡ offset_of bytes.now (number_of table) }
    requires small { start < 2 ^ 32 }
    requires index { i < definitions bytes.now }
    ensures value { result ≡ entry_offset_of bytes.now (number_of table) i }
    ensures room { result + 2 * entry_width ≤ length bytes.now }
{
    let _ = bytes;
    let _ = table;
    start + ENTRY_WIDTH * i as usize
}

/// Entry `i` of a table, the table being at `start`, and the entry after it.
pub(crate) fn entries(bytes: &[u8], table: Block, start: u32, i: u32) -> (u32, u32)
    requires layout { HasLayout bytes.now }
    requires tables { HasIndexTables bytes.now }
    requires table { IsTable (number_of table) }
    requires start { start ≡ offset_of bytes.now (number_of table) }
    requires index { i < definitions bytes.now }
    ensures from { result.0 ≡ entry_at bytes.now (number_of table) i }
    ensures to { result.1 ≡ entry_at bytes.now (number_of table) (i + 1) }
    ensures order { result.0 ≤ result.1 }
{
    let at = entry_offset(bytes, table, start as usize, i);
    let from = le32(bytes, at).unwrap();
    let to = le32(bytes, at + ENTRY_WIDTH).unwrap();
    (from, to)
}

/// The data of definition `i`, from `from` to `to` in the data at `start`.
pub(crate) fn data_part(bytes: &[u8], start: u32, i: u32, from: u32, to: u32) -> &[u8]
    requires object { IsObject bytes.now }
    requires layout { HasLayout bytes.now }
    requires tables { HasIndexTables bytes.now }
    requires start { start ≡ offset_of bytes.now contents }
    requires index { i < definitions bytes.now }
    requires from { from ≡ data_index bytes.now i }
    requires to { to ≡ data_index bytes.now (i + 1) }
    ensures value { result.now ≡ data_at bytes.now i }
    ensures len { length result.now ≡ data_length bytes.now i }
    ensures within { HasDataWithin (symbol_at bytes.now i) (length result.now) }
{
    let _ = i;
    &bytes[start as usize + from as usize..start as usize + to as usize]
}

/// The offset of relocation `k` of definition `i`, its relocations beginning with `from`.
pub(crate) fn reloc_offset(bytes: &[u8], start: u32, from: u32, i: u32, k: u32) -> usize
    requires object { IsObject bytes.now }
    requires layout { HasLayout bytes.now }
    requires tables { HasIndexTables bytes.now }
    requires start { start ≡ offset_of bytes.now reloc }
    requires definition { i < definitions bytes.now }
    requires from { from ≡ reloc_index bytes.now i }
    requires index { k < reloc_count bytes.now i }
    ensures value { result ≡ reloc_offset_of bytes.now i k }
    ensures room { result + reloc_width ≤ length bytes.now }
    ensures target { IsTarget bytes.now (reloc_at bytes.now i k).target }
    ensures within { HasFieldWithin (symbol_at bytes.now i) (reloc_at bytes.now i k) }
{
    let _ = bytes;
    let _ = i;
    start as usize + RELOC_WIDTH * (from as usize + k as usize)
}

/// The offset of aux `k` of definition `i`, its auxes beginning with `from`.
pub(crate) fn aux_offset(bytes: &[u8], start: u32, from: u32, i: u32, k: u32) -> usize
    requires object { IsObject bytes.now }
    requires layout { HasLayout bytes.now }
    requires tables { HasIndexTables bytes.now }
    requires start { start ≡ offset_of bytes.now aux }
    requires definition { i < definitions bytes.now }
    requires from { from ≡ aux_index bytes.now i }
    requires index { k < aux_count bytes.now i }
    ensures value { result ≡ aux_offset_of bytes.now i k }
    ensures room { result + aux_width ≤ length bytes.now }
    ensures target { IsTarget bytes.now (aux_at bytes.now i k).target }
{
    let _ = bytes;
    let _ = i;
    start as usize + AUX_WIDTH * (from as usize + k as usize)
}

/// The offset of flags record `k` of symbols of other packages, the block being at `start`.
#[tactic(auto, unfolding(crate::specs::Blocks::width_of))]
pub(crate) fn ref_flags_offset(bytes: &[u8], start: u32, k: u32) -> usize
    requires object { IsObject bytes.now }
    requires layout { HasLayout bytes.now }
    requires start { start ≡ offset_of bytes.now ref_flags }
    requires index { k < count_of bytes.now ref_flags }
    ensures value { result ≡ offset_of bytes.now ref_flags + ref_flags_width * k }
    ensures room { result + ref_flags_width ≤ length bytes.now }
    ensures target { IsTarget bytes.now (ref_flags_at bytes.now k).target }
{
    record_offset(bytes, Block::RefFlags, start, k)
}

/// The hash of Hasheddef `k`, the hashes being `extent` bytes from `start` on.
pub(crate) fn hash_part(bytes: &[u8], start: u32, extent: u32, hashes: u32, k: u32) -> &[u8]
    requires object { IsObject bytes.now }
    requires layout { HasLayout bytes.now }
    requires start { start ≡ offset_of bytes.now hash }
    requires extent { extent ≡ extent_of bytes.now hash }
    requires hashes { hashes ≡ count_of bytes.now hasheddef }
    requires index { k < count_of bytes.now hasheddef }
    ensures { result.now ≡ hash_at bytes.now k }
{
    let length = (extent / hashes) as usize;
    let at = start as usize + length * k as usize;
    &bytes[at..at + length]
}

/// The offset of record `k` of RefName, the block being at `start`.
pub(crate) fn ref_name_offset(bytes: &[u8], start: u32, k: u32) -> usize
    requires object { IsObject bytes.now }
    requires layout { HasLayout bytes.now }
    requires start { start ≡ offset_of bytes.now ref_name_block }
    requires index { k < count_of bytes.now ref_name_block }
    ensures value { result ≡ ref_name_offset_of bytes.now k }
    ensures room { result + ref_name_width ≤ length bytes.now }
    ensures inside { PassesEnd bytes.now (result + 8) → ⊥ }
{
    let _ = bytes;
    start as usize + REF_NAME_WIDTH * k as usize
}

// Whether the record of RefName at `at` is of `r`.
fn is_name_of(bytes: &[u8], at: usize, r: SymRef) -> bool
    requires { at + ref_name_width ≤ length bytes.now }
    ensures { result ≡ same_ref (ref_at bytes.now at) (ref_view r) }
{
    reference(bytes, at) == r
}

/// The name in the first record of RefName that is of `r`, among `names` records at `start`.
pub(crate) fn find_name(bytes: &[u8], start: u32, names: u32, r: SymRef) -> Option<&[u8]>
    requires object { IsObject bytes.now }
    requires layout { HasLayout bytes.now }
    requires start { start ≡ offset_of bytes.now ref_name_block }
    requires names { names ≡ count_of bytes.now ref_name_block }
    ensures { option_copied result ≡ ref_name bytes.now (ref_view r) }
{
    for k in 0..names {
        let at = ref_name_offset(bytes, start, k);
        if is_name_of(bytes, at, r) {
            return Some(text(bytes, at + 8));
        }
    }
    None
}
