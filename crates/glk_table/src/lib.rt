//! The key table, which threads share without a lock: each id gets the one place of its key, and
//! each place keeps the least and the greatest of what was offered there.
#![tactic(auto)]

mod elected;
mod keys;
mod layout;
mod place;
mod plays;
mod ranks;
mod table;
#[cfg(test)]
mod tests;
mod view;

pub use elected::Elected;
pub use keys::Keys;
pub use place::Place;
pub use ranks::{RankClass, rank, rank_id, ranks_are_ordered};
pub use table::{KeySeat, KeyTable};
