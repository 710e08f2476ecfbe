//! The call frames of an image's functions: the function at an address, and the functions, files
//! and lines that are shown there, inlined calls among them, as any image has them; and that what
//! a writer puts into an image for a function of an object is read back.
#![tactic(auto)]

mod laws;

pub use laws::{bucket_finds, frames_read_back, parts_fit};
