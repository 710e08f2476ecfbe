//! Tests of glk_pctab and glk_frames_reader, in a crate of their own: so their proofs are made once.
#![tactic(auto)]

#[cfg(test)]
mod tests;
