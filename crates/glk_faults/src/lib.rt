//! What a link refuses in the relocations of a kept symbol: the rules Q1 to Q6.
#![tactic(auto)]

mod relocs;
mod rules;
mod runs;
mod shared;
mod taken;

pub use shared::reloc_fault;
