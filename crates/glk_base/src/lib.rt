//! What all crates of the linker share: numbers in bytes, texts, lists, lines of configuration files,
//! rules, faults.
#![tactic(auto)]

mod fault;
mod fields;
mod flags;
mod ids;
mod limits;
pub mod lines;
mod multiples;
mod numbers;
mod paths;
mod rules;
mod seq;
#[cfg(test)]
mod tests;
mod text;
mod varint;

pub use fault::{Fault, OutOfMemory, TooBig};
pub use fields::{Field, push_fields};
pub use flags::{FlagWord, split_flag};
pub use ids::{KeyId, ObjId, SymId};
pub use limits::{FILE_LIMIT, FUNCTION_LIMIT};
pub use lines::ConfigLine;
pub use multiples::least_multiple;
pub use numbers::{le16, le32, le64};
pub use paths::{escaped_path, same_path};
pub use rules::{BrokenRule, RuleFamily};
pub use seq::Seq;
pub use text::{StrText, Text};
pub use varint::{Varint, read_varint};
