//! The init tasks of a merged program, and the order in which they run.
#![tactic(auto)]

mod laws;
mod lists;
mod program;

pub use laws::{awaited_keys, own_positions, root_keys};
pub use lists::{schedule, tasks};
pub use program::InitTasks;
