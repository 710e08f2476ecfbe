//! What the search for kept symbols reads of a merged program: the roots, and what each symbol does by
//! its relocations, its methods and its auxes.
#![tactic(auto)]

mod auxes;
mod entry;
mod graph;
mod methods;
mod program;
mod relocs;
mod roots;

pub use entry::entry_name;
pub use graph::ReachGraph;
pub use methods::target_key;
pub use program::ReadProgram;
pub use roots::{entry_keys, stand_in};
