//! What is read of Go type data in the symbols of a linked program.
//!
//! Types, interface tables and names are the data of symbols, and refer to one another by relocations.
//! A reading follows such references from one symbol to the next. It comes to what is read there, to a
//! broken rule of type data, or to a symbol that is wanted and has no definition.
#![tactic(auto)]

mod interfaces;
mod methods;
mod offsets;
mod references;
mod strings;
mod symbols;
#[cfg(test)]
mod tests;
mod triples;
mod unreadable;

pub use interfaces::{InterfaceMethod, imethod_read, itab_type_read};
pub use methods::{method_name_read, methodoff_offsets, methods_read};
pub use offsets::{OffsetIndex, Relocations};
pub use references::{defined_read, name_read, target_read};
pub use strings::type_string_read;
pub use symbols::{Relocation, Symbols, TargetSymbol};
pub use triples::{MethodTriple, method_triples};
pub use unreadable::Unreadable;
