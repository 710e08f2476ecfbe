//! Texts on their way to a sink: a buffer whose bytes wait, so that many short texts make few writes.
#![tactic(auto)]

mod pending;

pub use pending::Pending;
