//! Tests of glk_elf, in a crate of their own: so its proofs are made once.
#![tactic(auto)]

#[cfg(test)]
mod image;
#[cfg(test)]
mod reader;
