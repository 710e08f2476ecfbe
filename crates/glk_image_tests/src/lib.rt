//! Tests of glk_image, in a crate of their own: so its proofs are made once.
#![tactic(auto)]

#[cfg(test)]
mod image;
