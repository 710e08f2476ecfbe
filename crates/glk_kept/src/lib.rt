//! The kept keys of a merged program in order, and the first of the rules J1 to J5 that one breaks.
#![tactic(auto)]

mod kinds;
mod list;

pub use kinds::{is_zeros, kind_fault};
pub use list::kept_keys;
