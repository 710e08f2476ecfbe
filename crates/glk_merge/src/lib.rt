//! Merged programs: the key of each row, the chosen definition of each key, what references mean, and
//! the first clash of definitions. Workers side by side enter all rows in one table.
#![tactic(auto)]

mod accessors;
mod clash;
mod contents;
mod find;
mod iface_flags;
mod key_tables;
mod merged;
mod merging;
mod offers;

pub use clash::Clash;
pub use merged::Merged;
pub use merging::merge;
