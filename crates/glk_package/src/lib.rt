//! Package files: the objects of an archive, or a bare object, found and checked whole.
//!
//! `objects` gives the objects of a file in order where every member is whole and holds one, and else
//! the first fault: member by member, of each first the rules of the archive, then the line of its
//! object, then the rules of its data, and last the length of its long hashes. The objects are borrowed
//! from the file, and are read without another check.
#![tactic(auto)]

mod file_refusal;
mod laws;
mod object_entry;
mod object_rules;
mod package_file;
mod refusal;
#[cfg(test)]
mod tests;

pub use file_refusal::package_refusal;
pub use laws::{no_mismatch, one_package, some_package};
pub use object_entry::ObjectEntry;
pub use object_rules::{HeaderRule, ObjectRules, WidthRule};
pub use package_file::{BARE_START, objects};
pub use refusal::PackageBad;
