//! The order in which tasks come: each after those that it waits for, the least ready one next.
#![tactic(auto)]

mod chains;
mod components;
mod cycles;
mod edges;
mod laws;
mod levels;
mod order;
mod search;

pub use edges::Edge;
pub use laws::one_order;
pub use order::{Cycle, schedule};
