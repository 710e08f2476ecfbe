// A description of an object.
use glk_base::{Seq, Text};
use glk_obj::{AuxRec, RefFlagsRec, RelocRec, SymRef};

/// All that an object file says. Lists are in the file's order; local indices run through
/// `defs`, `hash64`, `hashed`, `ndefs` and `refs`.
#[derive(Debug, Drop)]
pub struct ObjDesc {
    /// The flags of the header; bit 2 marks an object from assembly.
    pub flags: u32,
    /// The bytes by which this compilation of the package differs from others.
    pub fingerprint: [u8; 8],
    /// The packages that the object was compiled against.
    pub autolib: Seq<AutolibDesc>,
    /// The packages that references name, from 1 on; the dummy 0 is not among them.
    pub pkgs: Seq<Text>,
    /// The source files.
    pub files: Seq<Text>,
    /// Definitions of the package.
    pub defs: Seq<DefDesc>,
    /// Definitions by a hash of 8 bytes.
    pub hash64: Seq<DefDesc>,
    /// Definitions by a long hash; all have hashes of one length.
    pub hashed: Seq<DefDesc>,
    /// Definitions without a package.
    pub ndefs: Seq<DefDesc>,
    /// References without a package.
    pub refs: Seq<SymDesc>,
    /// Flags of symbols of other packages.
    pub ref_flags: Seq<RefFlagsRec>,
    /// Names of symbols of other packages.
    pub ref_names: Seq<RefNameDesc>,
}

/// A package that the object was compiled against, and its fingerprint then.
#[derive(Debug, Drop)]
pub struct AutolibDesc {
    pub path: Text,
    pub fingerprint: [u8; 8],
}

/// A symbol.
#[derive(Debug, Drop)]
pub struct SymDesc {
    /// The name; it may be empty.
    pub name: Text,
    /// The calling convention: 0 is ABI0, 1 ABIInternal, 65535 marks a static symbol.
    pub abi: u16,
    /// The type: 1 to 7 have content.
    pub kind: u8,
    pub flag: u8,
    pub flag2: u8,
    /// The size in bytes, which the content may fall short of.
    pub size: u32,
    /// The alignment in bytes, or 0 where the linker chooses.
    pub align: u32,
}

/// A definition.
#[derive(Debug, Drop)]
pub struct DefDesc {
    pub sym: SymDesc,
    /// The hash; empty where the definition goes by its name.
    pub hash: Text,
    /// The data; zeros up to the symbol's size are left out.
    pub content: Text,
    pub relocs: Seq<RelocRec>,
    pub auxes: Seq<AuxRec>,
}

/// The name of a symbol of another package.
#[derive(Debug, Drop)]
pub struct RefNameDesc {
    pub target: SymRef,
    pub name: Text,
}
