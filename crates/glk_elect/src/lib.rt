//! The vote of all ids for their keys, by several workers at once: the least id of each key, the
//! least rank and the greatest strong id that its ids vote for.
#![tactic(auto)]

mod ballot;
mod polled;
mod polling;
#[cfg(test)]
mod tests;

pub use ballot::{Ballot, Vote};
pub use polled::Polled;
pub use polling::elect;
