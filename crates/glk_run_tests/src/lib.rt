//! Tests of glk_run, in a crate of their own: so its proofs are made once.
#![tactic(auto)]

#[cfg(test)]
mod chains;
#[cfg(test)]
mod cuts;
#[cfg(test)]
mod runs;
