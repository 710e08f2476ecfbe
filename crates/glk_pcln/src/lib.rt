//! What an image has for the runtime about its functions: the section `.gopclntab`, the inline trees,
//! findfunctab and module data; and that frames, files, lines and depths of the stack are read back from them.
#![tactic(auto)]

mod laws;
mod module_data;
mod pieces;

pub use laws::{pieces_read_back, pieces_told};
pub use module_data::{AddressRange, ListAt, ModuleAddresses};
pub use pieces::{Pcln, build};
