//! All that the program golink does but reading its words.
#![tactic(auto)]

mod cmd_addr2line;
mod cmd_dump;
mod cmd_link;
mod cmd_mkobj;
mod cmd_nm;
mod help;
mod program;
mod stdout;

pub use glk_messages::{Outcome, report};
pub use program::run;
