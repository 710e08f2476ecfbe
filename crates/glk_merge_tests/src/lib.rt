//! Tests of glk_merge, in a crate of their own: so its proofs are made once.
#![tactic(auto)]

#[cfg(test)]
mod gates;
#[cfg(test)]
mod tests;
#[cfg(test)]
mod worlds;
