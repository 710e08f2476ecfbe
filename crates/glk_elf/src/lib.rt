//! Images for linux/amd64: the bytes of an ELF file from its parts, and the exact reader of ELF-64
//! files.
//!
//! `ElfView::read` accepts a list of bytes exactly where it breaks none of the rules E1 to E11, and
//! else names the first broken rule and the least offset at which it is broken. An accepted file is
//! then read through accessors, which give records of the file and slices of its bytes. The reader
//! takes no memory.
#![tactic(auto)]

mod frame;
mod gabi;
mod laws;
mod layout;
mod parts;
mod placing;
mod program_headers;
mod read;
mod section_headers;
mod sections;
mod strings;
mod symbols;
mod write;

pub use frame::{Frame, SymbolRow};
pub use laws::{images_read_back, memory_within, sections_in_file, sections_patched};
pub use layout::{IMAGE_BASE, TEXT_START};
pub use parts::{ElfParts, SectionBytes, SymRow};
pub use placing::{assign_addresses, start_multiple};
pub use read::{ElfBad, ElfSection, ElfSym, ElfView};
pub use sections::{PLACED_SECTIONS, Section};
pub use write::{image_size, write_elf, write_frame};
