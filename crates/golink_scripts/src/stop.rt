// Why a line of a script fails.
use glk_base::OutOfMemory;
use std::alloc::{AllocError, AllocFailed, Global};

/// Why a line fails: what is wrong with it, or out of memory.
#[derive(Debug, Drop)]
pub enum Stop {
    Line(String),
    OutOfMemory,
}

impl Stop {
    /// A line that fails for this.
    pub(crate) fn because(alloc: Global, why: &str) -> Stop {
        match String::from_str(alloc, why) {
            Ok(why) => Stop::Line(why),
            Err(_) => Stop::OutOfMemory,
        }
    }
}

impl From<AllocError> for Stop {
    fn from(_: AllocError) -> Stop {
        Stop::OutOfMemory
    }
}

impl<T: Drop> From<AllocFailed<T>> for Stop {
    fn from(_: AllocFailed<T>) -> Stop {
        Stop::OutOfMemory
    }
}

impl From<OutOfMemory> for Stop {
    fn from(_: OutOfMemory) -> Stop {
        Stop::OutOfMemory
    }
}
