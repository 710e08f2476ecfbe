//! Go type data, decoded exactly.
//!
//! The compiler writes each type, interface table and name as the data of a symbol, laid out by Go's
//! `internal/abi` (Go 1.22, 64 bits). The readers here answer from those data and from the offsets of
//! the symbol's relocations, and where the data break a rule they say which, and at which offset.
//! Nothing here takes memory.
#![tactic(auto)]

pub mod abi;
mod entries;
mod header;
mod imethods;
mod laws;
mod methods;
mod names;
mod targets;
#[cfg(test)]
mod tests;

pub use entries::Methods;
pub use header::{TypeBad, extra_star, kind};
pub use imethods::imethod;
pub use laws::{constants_are_of_layout, faults_are_of_rules};
pub use methods::method_at;
pub use names::{name, type_string};
pub use targets::{
    imethod_name_target, imethod_type_target, itab_type_target, method_name_target, target_at,
    type_string_target,
};
