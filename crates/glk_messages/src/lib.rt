//! How a program of golink ends: its outcome with its exit status, and the message of each outcome.
#![tactic(auto)]

mod message;
mod names;
mod outcome;
mod pieces;

pub use message::report;
pub use outcome::Outcome;
