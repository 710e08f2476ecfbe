//! Why a command was refused; causes by their sort, the steps of a command in a chain, and files that
//! are read and written by name.
#![tactic(auto)]

mod cause;
mod named;

pub use cause::{Cause, Form, Limit, Table};
pub use named::{read_named, write_named};
