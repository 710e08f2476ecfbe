//! The rows of a link and their keys: what makes rows of several objects one symbol, which
//! definition of a symbol is chosen, and what references mean.
#![tactic(auto)]

mod ballot;
mod blocks;
mod contents;
mod keys;
mod made_names;
mod objects;
mod own_symbols;
mod referents;
mod rows;
mod target;

pub use keys::SymbolKey;
pub use made_names::{MADE_COUNT, MODULE_DATA_SIZE, MadeName, MadePlace, made_name, made_number};
pub use own_symbols::{MAIN_INIT_TASK, MAP_INIT_NOOP, RUNTIME_INIT_TASK, UNREACHABLE_METHOD};
pub use rows::{Rows, row_total};
pub use target::{Referent, Target};
