//! The call frames of any ELF file: its functions, by the section `.gopclntab` or by module data; the
//! function at an address; and its name, the depth of its stack, and the frames that are shown there,
//! inlined calls among them. Nothing is known of the file's bytes: whatever they are, each answer is
//! that of one definition. It takes no memory.
#![tactic(auto)]

mod buckets;
mod frames;
mod function;
mod laws;
mod memory;
mod module;
mod names;
mod record;
mod region;
mod search;

pub use frames::{Frame, Frames};
pub use function::Func;
pub use laws::searches_agree;
pub use module::Module;
