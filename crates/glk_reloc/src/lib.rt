//! Relocations: the values of fields, and the fields of an image written in place, by threads.
//!
//! `value` says which number a relocation writes and `fits` whether its field has room for it.
//! `patch` writes one field, and `patch_all` those of a whole image, in parts that share no byte.
//! `patch_chunks` writes fields that are made chunk after chunk, and holds one chunk; nothing else
//! here takes memory.
#![tactic(auto)]

mod chunks;
mod fields;
mod image;
mod laws;
mod references;
#[cfg(test)]
mod tests;
mod values;

pub use chunks::{FieldChunks, patch_chunks};
pub use fields::{Field, Overflow, patch};
pub use image::patch_all;
pub use laws::{
    bytes_sized, chunks_patched, early_answer, joined_answer, joined_patched, one_answer,
    one_patched, part_patched, unpatched_same,
};
pub use references::{StandIns, Target, field_value};
pub use values::{fits, value};
