//! Tests of glk_init, in a crate of their own: so its proofs are made once.
#![tactic(auto)]

mod sample;
#[cfg(test)]
mod tests;
