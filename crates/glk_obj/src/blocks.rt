// The blocks of an object and their header.
ghost use Rattle.std.specs.Prelude.{◌≡◌, ◌≢◌, ◌+◌, ◌*◌, ◌<◌, ◌≤◌, ◌^◌, ℕ, length, slice_index};
ghost use Rattle.glk_base.specs.Bytes.{number_at};
ghost use Rattle.glk_obj.specs.Blocks.{header_length, header_offset as header_offset_of, hash, end, offset_of, extent_of, width_of, count as count_of};
ghost use Rattle.glk_obj.specs.Layout.{HasLayout};
ghost use Rattle.glk_obj.specs.Views.{number_of};

use glk_base::le32;

/// What an object begins with: a zero byte and "go120ld".
pub const MAGIC: [u8; 8] = *b"\0go120ld";
/// The length of a header in bytes.
pub const HEADER_LENGTH: usize = 96;
/// The offset in a header of the fingerprint, of eight bytes.
pub(crate) const FINGERPRINT: usize = 8;
/// The offset in a header of the flags.
pub(crate) const FLAGS: usize = 16;
// The offset in a header of the first block's offset.
const OFFSETS: usize = 20;
/// How many blocks have records. End has none, and comes after them.
pub const BLOCK_COUNT: usize = 18;
/// How many offsets a header has: one of each block, End included.
pub(crate) const OFFSET_COUNT: usize = BLOCK_COUNT + 1;

/// The width of a record of Autolib in bytes.
pub const AUTOLIB_WIDTH: usize = 16;
/// The width of a name in PkgIdx or File in bytes.
pub const NAME_WIDTH: usize = 8;
/// The width of a symbol's record in bytes.
pub const SYMBOL_WIDTH: usize = 21;
/// The width of a record of RefFlags in bytes.
pub const REF_FLAGS_WIDTH: usize = 10;
/// The width of a short hash in bytes.
pub const HASH64_WIDTH: usize = 8;
/// The least width of a long hash in bytes.
pub const SHORTEST_HASH: usize = 8;
/// The greatest width of a long hash in bytes.
pub const LONGEST_HASH: usize = 64;
/// The width of an entry of a table of indices in bytes.
pub const ENTRY_WIDTH: usize = 4;
/// The width of a relocation's record in bytes.
pub const RELOC_WIDTH: usize = 23;
/// The width of an aux's record in bytes.
pub const AUX_WIDTH: usize = 9;
/// The width of a record of RefName in bytes.
pub const REF_NAME_WIDTH: usize = 16;

/// A block of an object, a row of records of one kind. The blocks are in this order.
#[derive(Clone, Copy, Debug, PartialEq, Eq)]
pub enum Block {
    /// The packages that the object was compiled against.
    Autolib,
    /// The packages that references name; entry 0 is a dummy.
    PkgIdx,
    /// The source files.
    File,
    /// Definitions of the package.
    Symdef,
    /// Definitions by a hash of 8 bytes.
    Hashed64def,
    /// Definitions by a long hash.
    Hasheddef,
    /// Definitions without a package.
    Nonpkgdef,
    /// References without a package.
    Nonpkgref,
    /// Flags of symbols of other packages.
    RefFlags,
    /// The hash of each Hashed64def.
    Hash64,
    /// The hash of each Hasheddef.
    Hash,
    /// Where the relocations of each definition begin.
    RelocIdx,
    /// Where the auxes of each definition begin.
    AuxIdx,
    /// Where the data of each definition begin.
    DataIdx,
    /// The relocations.
    Reloc,
    /// The auxes.
    Aux,
    /// The data of the definitions.
    Data,
    /// The names of symbols of other packages.
    RefName,
    /// The end of the blocks.
    End,
}

impl Block {
    /// The index of the block in their order.
    pub(crate) fn number(self) -> usize
        ensures value { result ≡ number_of self }
        ensures small { result ≤ end }
    {
        self as usize
    }
}

/// Where the header says where block `k` begins.
pub(crate) fn header_offset(k: usize) -> usize
    requires { k ≤ end }
    ensures { result ≡ header_offset_of k }
{
    OFFSETS + 4 * k
}

/// Where block `k` begins.
#[tactic(auto, unfolding(crate::specs::Blocks::offset_of))]
pub(crate) fn offset_at(bytes: &[u8], k: usize) -> usize
    requires room { header_length ≤ length bytes.now }
    requires block { k ≤ end }
    ensures value { result ≡ offset_of bytes.now k }
    ensures small { result < 2 ^ 32 }
{
    le32(bytes, header_offset(k)).unwrap() as usize
}

/// The width of a record of block `k`; 1 where records have no width of their own.
#[tactic(auto, unfolding(crate::specs::Blocks::width_of))]
pub(crate) fn width_at(k: usize) -> usize
    requires { k ≤ end }
    ensures value { result ≡ width_of k }
    ensures positive { 0 < result }
    ensures small { result ≤ 23 }
{
    const WIDTHS: [usize; OFFSET_COUNT] = [
        AUTOLIB_WIDTH,
        NAME_WIDTH,
        NAME_WIDTH,
        SYMBOL_WIDTH,
        SYMBOL_WIDTH,
        SYMBOL_WIDTH,
        SYMBOL_WIDTH,
        SYMBOL_WIDTH,
        REF_FLAGS_WIDTH,
        HASH64_WIDTH,
        1,
        ENTRY_WIDTH,
        ENTRY_WIDTH,
        ENTRY_WIDTH,
        RELOC_WIDTH,
        AUX_WIDTH,
        1,
        REF_NAME_WIDTH,
        1,
    ];
    WIDTHS[k]
}

/// How many records block `k` has, where its records have a width of their own.
#[tactic(auto, unfolding(crate::specs::Blocks::count))]
pub(crate) fn count_at(bytes: &[u8], k: usize) -> u32
    requires layout { HasLayout bytes.now }
    requires block { k < end }
    requires fixed { k ≢ hash }
    ensures { result ≡ count_of bytes.now k }
{
    ((offset_at(bytes, k + 1) - offset_at(bytes, k)) / width_at(k)) as u32
}

/// Where a block begins.
pub(crate) fn offset(bytes: &[u8], block: Block) -> usize
    requires room { header_length ≤ length bytes.now }
    ensures value { result ≡ offset_of bytes.now (number_of block) }
    ensures small { result < 2 ^ 32 }
{
    offset_at(bytes, block.number())
}

/// How many records a block has, where its records have a width of their own.
pub(crate) fn count(bytes: &[u8], block: Block) -> u32
    requires layout { HasLayout bytes.now }
    requires below { number_of block < end }
    requires fixed { number_of block ≢ hash }
    ensures { result ≡ count_of bytes.now (number_of block) }
{
    count_at(bytes, block.number())
}

/// Where the blocks of an object begin.
#[derive(Clone, Copy, Debug)]
pub(crate) struct Offsets {
    starts: [u32; OFFSET_COUNT],
}

impl Offsets {
    /// The offsets of a header.
    pub(crate) fn read(bytes: &[u8]) -> Offsets
        requires { header_length ≤ length bytes.now }
        ensures { (k : ℕ) → k ≤ end → slice_index result.starts k ≡ offset_of bytes.now k }
    {
        let mut starts = [0u32; OFFSET_COUNT];
        for k in 0..OFFSET_COUNT {
            starts[k] = offset_at(bytes, k) as u32;
        }
        Offsets { starts }
    }

    /// Where a block begins.
    pub(crate) fn of(&self, block: Block) -> u32
        ensures { result ≡ slice_index self.now.starts (number_of block) }
    {
        self.starts[block.number()]
    }
}
