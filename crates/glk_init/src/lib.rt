//! The order in which packages are initialized: the init tasks that are reached from a root, each after
//! those that it waits for, and of those that are ready the least by name next.
#![tactic(auto)]

mod order;
mod program;
mod ranks;
mod reached;
mod tasks;

pub use order::{InitCycle, schedule};
pub use program::{InitEdge, InitProgram};
pub use tasks::{UndefinedTarget, init_tasks};
