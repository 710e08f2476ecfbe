//! The command line: its commands, their flags, and what a list of words asks for.
#![tactic(auto)]

mod command_line;
mod commands;
mod laws;
mod symbol_order;
mod usage;
mod values;

pub use command_line::{CommandLine, FlagSetting, Invocation, parse_command_line};
pub use commands::{Command, Flag};
pub use laws::spellings_agree;
pub use usage::{UsageBad, Why};
pub use values::SymbolOrder;
