//! The init lists of a merged program, of its main package and of its runtime, or the refusal of tasks
//! that have no order.
#![tactic(auto)]

mod laws;
mod lists;
mod refusals;

pub use laws::{one_schedule, schedule_refusals, some_schedule};
pub use lists::{InitLists, schedule};
