//! The image of a link: contents at their addresses in the sections, the rows of the symbol table, and
//! fields, all written at their places in one buffer.
//!
//! `write_image` writes the whole image from plain inputs, and `symbol_rows` makes the rows of its symbol
//! table. `put_contents` writes contents into bytes that begin at an address, `fill_contents` does so
//! by several threads, and `section_bytes` makes the bytes of a whole section with padding everywhere
//! else. `image_patched` says that an image whose fields are written in place is the image of sections
//! whose fields are written.
#![tactic(auto)]

mod contents;
mod fill;
mod image;
mod laws;
mod rows;

pub use contents::{Content, put_contents, section_bytes};
pub use fill::fill_contents;
pub use image::write_image;
pub use laws::{image_patched, one_image, one_section, section_holds_contents};
pub use rows::{Symbol, symbol_rows};
