//! The tables of an image's functions, in the section `.gopclntab` and beside it: names, files, pc
//! tables, records, inline trees and findfunctab, written; and that they are read back.
#![tactic(auto)]

mod buckets;
mod files;
mod function;
mod laws;
mod lists;
mod measure;
mod pool;
mod records;
mod section;
mod trees;

pub use buckets::push_findfunctab;
pub use function::{Function, InlinedCall, Pclntab};
pub use laws::{functions_found, premises_are_met, section_reads_back};
pub use measure::section_size;
pub use section::{FunctionTables, Parts, SectionTooLong, build};
