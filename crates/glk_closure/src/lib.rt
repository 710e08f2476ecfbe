//! What a linked program keeps: the least set of facts about its symbols that is closed under the
//! rules of reachability.
#![tactic(auto)]

mod call;
mod call_table;
mod effect;
mod facts;
mod kept;
mod laws;
mod mark_table;
mod marks;
mod name;
mod program;
mod search;

pub use effect::{Effect, Targets};
pub use facts::{KeptFacts, kept_facts};
pub use kept::{KeptSet, kept_set};
pub use laws::least_reach;
pub use program::Program;
