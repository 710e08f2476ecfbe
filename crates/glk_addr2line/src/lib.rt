//! The text by which `addr2line` answers addresses in an image: their functions, files and lines.
#![tactic(auto)]

mod address;
mod fault;
mod frames;
mod laws;
mod lines;
mod print;
mod writing;

pub use fault::LineFault;
pub use laws::one_address_text;
pub use print::addr2line;
