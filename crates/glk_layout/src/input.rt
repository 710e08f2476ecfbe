// What is placed.

use glk_obj::SymKind;

/// A kept symbol, as its place is concerned.
#[derive(Clone, Copy, Debug, PartialEq, Eq)]
pub struct KeptSymbol {
    /// Its type; None for a made name, which has no content of its own.
    pub kind: Option<SymKind>,
    /// The alignment that it asks for, or 0.
    pub align: u32,
    /// Its size in bytes.
    pub size: u32,
    /// The length of its name in bytes.
    pub name_len: u32,
}

/// A content that the link makes itself, in `.rodata` after the symbols.
#[derive(Clone, Copy, Debug, PartialEq, Eq)]
pub struct MadeContent {
    /// The multiple on which it is; not 0.
    pub align: u32,
    /// Its size in bytes.
    pub size: u64,
}

/// The sizes in bytes of the sections that have no symbols: four tables, and the storage of threads.
#[derive(Clone, Copy, Debug, PartialEq, Eq)]
pub struct Tables {
    pub typelink: u64,
    pub itablink: u64,
    pub gopclntab: u64,
    pub go_module: u64,
    pub tbss: u64,
}

/// All that is placed: the kept symbols in load order, the made contents of `.rodata` in their order,
/// and the sizes of the tables.
#[derive(Clone, Copy, Debug, PartialEq, Eq)]
pub struct PlacedContents<'a> {
    pub symbols: &'a [KeptSymbol],
    pub made: &'a [MadeContent],
    pub tables: Tables,
}
