// The records of an object.
ghost use Rattle.std.specs.Prelude.{◌≡◌, ◌+◌, ◌≤◌, length};
ghost use Rattle.glk_obj.specs.Blocks.{symbol_width, reloc_width, aux_width, ref_flags_width};
ghost use Rattle.glk_obj.specs.Records.{ref_at, field_start, symbol_from, reloc_from, aux_from, ref_flags_from};
ghost use Rattle.glk_obj.specs.References.{PassesEnd};
ghost use Rattle.glk_obj.specs.Views.{ref_view, symbol_view, reloc_view, aux_view, ref_flags_view};

use crate::references::text;
use glk_base::{le16, le32, le64};

// The offset of the ABI in a symbol's record.
const SYMBOL_ABI: usize = 8;
/// The offset of the type in a symbol's record.
pub(crate) const SYMBOL_KIND: usize = 10;
// The offsets of the flags in a symbol's record.
const SYMBOL_FLAG: usize = 11;

const SYMBOL_FLAG2: usize = 12;
/// The offset of the size in a symbol's record.
pub(crate) const SYMBOL_SIZE: usize = 13;
/// The offset of the alignment in a symbol's record.
pub(crate) const SYMBOL_ALIGN: usize = 17;

/// A symbol's record; the name is a slice of the object.
#[derive(Clone, Copy, Debug, PartialEq, Eq)]
pub struct SymRec<'a> {
    /// The name; it may be empty.
    pub name: &'a [u8],
    /// The calling convention: 0 is ABI0, 1 ABIInternal, 65535 marks a static symbol.
    pub abi: u16,
    /// The type: 1 to 7 have content.
    pub kind: u8,
    pub flag: u8,
    pub flag2: u8,
    /// The size in bytes, which the data may fall short of.
    pub size: u32,
    /// The alignment in bytes, or 0 where any serves.
    pub align: u32,
}

/// Which symbol is meant: a package's number, and an index in that package.
#[derive(Clone, Copy, Debug, PartialEq, Eq)]
pub struct SymRef {
    pub pkg: u32,
    pub sym: u32,
}

/// A relocation: `size` bytes at `off` of the definition are to hold the target's address, or
/// what else the kind says, with `add` added.
#[derive(Clone, Copy, Debug, PartialEq, Eq)]
pub struct RelocRec {
    pub off: i32,
    pub size: u8,
    pub kind: u16,
    pub add: i64,
    pub target: SymRef,
}

impl RelocRec {
    /// Where the field begins in its symbol. In a symbol with content it is never below 0.
    #[tactic(auto, unfolding(crate::specs::Records::field_start))]
    pub fn field_start(&self) -> u32
        ensures { result ≡ field_start (reloc_view self.now) }
    {
        self.off.cast_unsigned()
    }
}

/// A symbol that belongs to a definition, as its type or its table of lines.
#[derive(Clone, Copy, Debug, PartialEq, Eq)]
pub struct AuxRec {
    pub kind: u8,
    pub target: SymRef,
}

/// The flags of a symbol of another package.
#[derive(Clone, Copy, Debug, PartialEq, Eq)]
pub struct RefFlagsRec {
    pub target: SymRef,
    pub flag: u8,
    pub flag2: u8,
}

/// The reference at this offset.
pub(crate) fn reference(bytes: &[u8], at: usize) -> SymRef
    requires { at + 8 ≤ length bytes.now }
    ensures { ref_view result ≡ ref_at bytes.now at }
{
    SymRef {
        pkg: le32(bytes, at).unwrap(),
        sym: le32(bytes, at + 4).unwrap(),
    }
}

/// The symbol whose record begins here.
pub(crate) fn symbol(bytes: &[u8], at: usize) -> SymRec<'_>
    requires room { at + symbol_width ≤ length bytes.now }
    requires named { PassesEnd bytes.now at → ⊥ }
    ensures { symbol_view result ≡ symbol_from bytes.now at }
{
    SymRec {
        name: text(bytes, at),
        abi: le16(bytes, at + SYMBOL_ABI).unwrap(),
        kind: bytes[at + SYMBOL_KIND],
        flag: bytes[at + SYMBOL_FLAG],
        flag2: bytes[at + SYMBOL_FLAG2],
        size: le32(bytes, at + SYMBOL_SIZE).unwrap(),
        align: le32(bytes, at + SYMBOL_ALIGN).unwrap(),
    }
}

/// The relocation whose record begins here.
pub(crate) fn relocation(bytes: &[u8], at: usize) -> RelocRec
    requires { at + reloc_width ≤ length bytes.now }
    ensures { reloc_view result ≡ reloc_from bytes.now at }
{
    RelocRec {
        off: le32(bytes, at).unwrap().cast_signed(),
        size: bytes[at + 4],
        kind: le16(bytes, at + 5).unwrap(),
        add: le64(bytes, at + 7).unwrap().cast_signed(),
        target: reference(bytes, at + 15),
    }
}

/// The aux whose record begins here.
pub(crate) fn auxiliary(bytes: &[u8], at: usize) -> AuxRec
    requires { at + aux_width ≤ length bytes.now }
    ensures { aux_view result ≡ aux_from bytes.now at }
{
    AuxRec {
        kind: bytes[at],
        target: reference(bytes, at + 1),
    }
}

/// The flags of a reference whose record begins here.
pub(crate) fn reference_flags(bytes: &[u8], at: usize) -> RefFlagsRec
    requires { at + ref_flags_width ≤ length bytes.now }
    ensures { ref_flags_view result ≡ ref_flags_from bytes.now at }
{
    RefFlagsRec {
        target: reference(bytes, at),
        flag: bytes[at + 8],
        flag2: bytes[at + 9],
    }
}
