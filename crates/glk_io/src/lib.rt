//! The outside: files, sources and sinks as traits; all three in memory, and sources and sinks over
//! readers and writers of std; and the gate that workers pass.
//!
//! What an object holds is optional: it is known of memory and not of a real file or stream, and what
//! is said of contents holds where they are known. Each trait has counts of faults that never fall,
//! and that rise in the answer alone that reports the fault.
#![tactic(auto)]

mod files;
mod gate;
mod memory;
mod memory_streams;
mod paths;
mod streams;
mod system_streams;

pub use files::{Files, ReadError, WriteError};
pub use gate::{Gate, Open};
pub use memory::{CallFail, MemFiles};
pub use memory_streams::{MemSink, MemSource};
pub use streams::{Failed, Sink, Source, write_all, write_pieces};
pub use system_streams::{OsSink, OsSource};
