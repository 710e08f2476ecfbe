//! Whether what an object says of a function's tables can be joined into the tables of an image: the
//! rules P1 to P9, each exact, over the function's auxes alone.
#![tactic(auto)]

mod calls;
mod function;
mod rules;
mod table;
mod values;

pub use function::{AuxTarget, FuncTables, FuncdataTarget};
pub use rules::check_tables;
pub use table::{BrokenTable, Table};
