//! Tests of glk_system, in a crate of their own: so its proofs are made once.
#![tactic(auto)]

#[cfg(test)]
mod tests;
