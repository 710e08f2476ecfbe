//! What a link keeps, and what it refuses in what it keeps: the rules of reachability over a merged
//! program.
#![tactic(auto)]

mod indices;
mod laws;
mod merged_symbols;
mod relocations;
mod symbols;

pub use laws::{first_faults_are_first, reach_faults_are_one};
pub use merged_symbols::MergedSymbols;
pub use relocations::RowRelocations;
pub use symbols::{
    calls_by_reflection, data, definition, is_defined, is_interface_table, is_type,
    key_relocations, target_symbol,
};
