//! How messages call the symbols of a merged program.
#![tactic(auto)]

mod names;

pub use names::{key_name, target_name};
