//! The functions that a link keeps: what a function's auxes name in a merged program, and the first function
//! whose tables cannot be joined into those of an image.
#![tactic(auto)]

mod auxes;
mod check;
mod definition;
mod tables;

pub use auxes::{NamedAux, bytes_of, fill_auxes, fill_bytes, first_bytes, is_named};
pub use check::{TableBad, check_functions};
pub use definition::{is_function, name};
