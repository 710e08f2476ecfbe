//! Go object files (goobj, Go 1.20 to 1.22), checked whole and read in place.
//!
//! `ObjView::read` accepts a list of bytes exactly where it breaks none of the rules V1 to V16, and
//! else names the first broken rule and the least offset at which it is broken. An accepted object
//! is then read through accessors, which give the records of the file and slices of its bytes.
//! Nothing here takes memory.
#![tactic(auto)]

mod blocks;
mod check;
mod definitions;
mod fields;
mod flags;
mod funcinfo;
mod kinds;
mod nul_index;
mod numbers;
mod offsets;
mod packages;
mod records;
mod references;
mod rules;
mod symbols;
mod tables;
mod view;

pub use blocks::{
    AUTOLIB_WIDTH, AUX_WIDTH, BLOCK_COUNT, Block, ENTRY_WIDTH, HASH64_WIDTH, HEADER_LENGTH,
    LONGEST_HASH, MAGIC, NAME_WIDTH, REF_FLAGS_WIDTH, REF_NAME_WIDTH, RELOC_WIDTH, SHORTEST_HASH,
    SYMBOL_WIDTH,
};
pub use check::ObjBad;
pub use funcinfo::{FuncInfo, InlNode};
pub use kinds::RelocKind;
pub use numbers::Numbers;
pub use packages::{
    BUILTIN_PACKAGE, HASHED_PACKAGE, HASHED64_PACKAGE, NIL_PACKAGE, NONE_PACKAGE, SELF_PACKAGE,
};
pub use records::{AuxRec, RefFlagsRec, RelocRec, SymRec, SymRef};
pub use symbols::{Abi, AuxKind, SymKind};
pub use view::{ObjShape, ObjView};
