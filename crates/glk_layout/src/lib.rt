//! Where the sections of an image, the kept symbols and the made contents are in memory.
//!
//! `place` gives a symbol its section by its type, and in its section an address by load order; the
//! made contents of `.rodata` come after its symbols. All numbers are functions of what is placed.
//! A limit that is passed is refused before any content is made.
#![tactic(auto)]

mod input;
mod laws;
mod limits;
mod made;
mod placing;
mod symbols;
#[cfg(test)]
mod tests;

pub use input::{KeptSymbol, MadeContent, PlacedContents, Tables};
pub use laws::{boxes_in_order, sections_in_order, symbols_in_order, text_ends};
pub use limits::{SizeLimit, TooLarge};
pub use placing::{Layout, place, section_of_symbol};
pub use symbols::text_end;
