//! The text by which `nm` lists the symbols of an image, as Go's `cmd/nm` prints it.
#![tactic(auto)]

mod gabi;
mod hexadecimal;
mod laws;
mod letter;
mod line;
mod listing;
mod options;
mod print;

pub use laws::one_nm_text;
pub use options::{NmOptions, NmSort};
pub use print::nm;
