//! The text form of objects: `parse` reads a text as the description that it spells, or names its
//! first bad line, and `print` writes the one canonical text of a description. The descriptions
//! themselves, how they are written as objects and read from them, come from glk_objdesc.
#![tactic(auto)]

mod builder;
mod bytes;
mod fields;
mod laws;
mod line;
mod numbers;
mod octets;
mod read;
mod rules;
mod stage;
mod strings;
mod targets;
mod values;
mod words;
mod write;

pub use glk_objdesc::{
    AutolibDesc, DefDesc, ObjDesc, RefNameDesc, SymDesc, describe, write_object,
};
pub use laws::{printed_is_read, spellings_read_back, text_reads_back};
pub use read::{TextBad, parse};
pub use write::print;
