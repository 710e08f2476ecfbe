// The rules on an object's header, its blocks and the numbers of their records.
ghost use Rattle.std.specs.Prelude.{◌≡◌, ◌+◌, ◌*◌, ◌<◌, ◌≤◌, ◌↔◌, ℕ, length, IsTrue};
ghost use Rattle.glk_base.specs.Least.{LeastOf};
ghost use Rattle.glk_obj.specs.Blocks.{header_length, end, offset_of};
ghost use Rattle.glk_obj.specs.Layout.{HasLayout};
ghost use Rattle.glk_obj.specs.Records.{definitions as definitions_of, symbols as symbols_of};
ghost use Rattle.glk_obj.specs.Rules.{IsShort, HasOtherMagic, HasMisplacedBlock, EndsLate, HasUnevenBlock, IsUnlinkable, HasOddHash64, shortest_hash, longest_hash, HashesFit, HasOddHash, HasShortTable};

use crate::blocks::{
    Block, FLAGS, HEADER_LENGTH, LONGEST_HASH, MAGIC, OFFSET_COUNT, SHORTEST_HASH, SYMBOL_WIDTH,
    count, count_at, header_offset, offset, offset_at, width_at,
};
use glk_base::le32;

// The bit of the flags by which the compiler marks an object that can't be linked.
const UNLINKABLE: u32 = 1 << 3;

/// V1: the object ends before its header does.
pub(crate) fn short(bytes: &[u8]) -> Option<u64>
    ensures { LeastOf (IsShort bytes.now) result }
{
    if bytes.len() < HEADER_LENGTH {
        Some(bytes.len() as u64)
    } else {
        None
    }
}

/// V2: it begins otherwise.
pub(crate) fn other_magic(bytes: &[u8]) -> Option<u64>
    requires { header_length ≤ length bytes.now }
    ensures { LeastOf (HasOtherMagic bytes.now) result }
{
    if bytes.starts_with(&MAGIC) {
        None
    } else {
        Some(0)
    }
}

/// V3: a block begins in the header, or before the block before it.
pub(crate) fn misplaced_block(bytes: &[u8]) -> Option<u64>
    requires { header_length ≤ length bytes.now }
    ensures { LeastOf (HasMisplacedBlock bytes.now) result }
{
    for k in 0..OFFSET_COUNT {
        let start = offset_at(bytes, k);
        if start < HEADER_LENGTH || (0 < k && start < offset_at(bytes, k - 1)) {
            return Some(header_offset(k) as u64);
        }
    }
    None
}

/// V4: End is past the object's end.
pub(crate) fn late_end(bytes: &[u8]) -> Option<u64>
    requires { header_length ≤ length bytes.now }
    ensures { LeastOf (EndsLate bytes.now) result }
{
    if bytes.len() < offset(bytes, Block::End) {
        Some(header_offset(Block::End.number()) as u64)
    } else {
        None
    }
}

/// V5: a block but Hash has not a whole number of records.
pub(crate) fn uneven_block(bytes: &[u8]) -> Option<u64>
    requires room { header_length ≤ length bytes.now }
    requires ordered { (k : ℕ) → k < end → offset_of bytes.now k ≤ offset_of bytes.now (k + 1) }
    ensures { LeastOf (HasUnevenBlock bytes.now) result }
{
    for k in 0..Block::End.number() {
        let extent = offset_at(bytes, k + 1) - offset_at(bytes, k);
        if k != Block::Hash.number() && extent % width_at(k) != 0 {
            return Some(header_offset(k) as u64);
        }
    }
    None
}

/// V6: the compiler marked the object as one that can't be linked.
pub(crate) fn unlinkable(bytes: &[u8]) -> Option<u64>
    requires { HasLayout bytes.now }
    ensures { LeastOf (IsUnlinkable bytes.now) result }
{
    if le32(bytes, FLAGS).unwrap() & UNLINKABLE != 0 {
        Some(FLAGS as u64)
    } else {
        None
    }
}

/// V7: there is not one short hash for each Hashed64def.
pub(crate) fn odd_hash64(bytes: &[u8]) -> Option<u64>
    requires { HasLayout bytes.now }
    ensures { LeastOf (HasOddHash64 bytes.now) result }
{
    if count(bytes, Block::Hash64) != count(bytes, Block::Hashed64def) {
        Some(header_offset(Block::Hash64.number()) as u64)
    } else {
        None
    }
}

// Whether `length` bytes are `hashes` hashes of one width from 8 to 64.
fn has_hash_length(length: usize, hashes: u32) -> bool
    ensures { IsTrue result ↔ ((n : ℕ) × (shortest_hash ≤ n) × (n ≤ longest_hash) × (length ≡ n * hashes)) }
{
    for n in SHORTEST_HASH..LONGEST_HASH + 1 {
        if length == n * hashes as usize {
            return true;
        }
    }
    false
}

// Whether the long hashes have one length from 8 to 64.
fn hashes_fit(bytes: &[u8]) -> bool
    requires { HasLayout bytes.now }
    ensures { IsTrue result ↔ HashesFit bytes.now }
{
    let length = offset(bytes, Block::RelocIdx) - offset(bytes, Block::Hash);
    let hashes = count(bytes, Block::Hasheddef);
    if hashes == 0 {
        length == 0
    } else {
        has_hash_length(length, hashes)
    }
}

/// V8: the long hashes, one for each Hasheddef, have not one length from 8 to 64.
pub(crate) fn odd_hash(bytes: &[u8]) -> Option<u64>
    requires { HasLayout bytes.now }
    ensures { LeastOf (HasOddHash bytes.now) result }
{
    if hashes_fit(bytes) {
        None
    } else {
        Some(header_offset(Block::Hash.number()) as u64)
    }
}

/// How many definitions there are.
pub(crate) fn definitions(bytes: &[u8]) -> u32
    requires { HasLayout bytes.now }
    ensures { result ≡ definitions_of bytes.now }
{
    ((offset(bytes, Block::Nonpkgref) - offset(bytes, Block::Symdef)) / SYMBOL_WIDTH) as u32
}

/// How many symbols there are.
pub(crate) fn symbols(bytes: &[u8]) -> u32
    requires { HasLayout bytes.now }
    ensures { result ≡ symbols_of bytes.now }
{
    ((offset(bytes, Block::RefFlags) - offset(bytes, Block::Symdef)) / SYMBOL_WIDTH) as u32
}

/// V9: a table has not one entry for each definition, and one more.
pub(crate) fn short_table(bytes: &[u8]) -> Option<u64>
    requires { HasLayout bytes.now }
    ensures { LeastOf (HasShortTable bytes.now) result }
{
    let wanted = definitions(bytes) as u64 + 1;
    for t in Block::RelocIdx.number()..Block::Reloc.number() {
        if count_at(bytes, t) as u64 != wanted {
            return Some(header_offset(t) as u64);
        }
    }
    None
}
