//! Tests of glk_addr2line, in a crate of their own: so its proofs are made once.
#![tactic(auto)]

#[cfg(test)]
mod tests;
