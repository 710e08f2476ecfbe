// The shapes of failure: a refusal, or out of memory.
ghost use Rattle.std.specs.Prelude.{◌≡◌};

use std::alloc::{AllocError, AllocFailed};

/// A refusal of a call, or out of memory.
#[derive(Debug, Drop)]
pub enum Fault<E> {
    Bad(E),
    OutOfMemory,
}

/// Out of memory. No clause ties it to a refused growth: it is the one answer that is free.
#[derive(Clone, Copy, Debug, PartialEq, Eq)]
pub struct OutOfMemory;

/// What was asked for is larger than its format or golink's limit allows.
#[derive(Clone, Copy, Debug, PartialEq, Eq)]
pub struct TooBig {
    /// The length in bytes that the answer would have, or 2^64 - 1 where that is greater.
    pub number: u64,
}

impl From<AllocError> for OutOfMemory {
    fn from(_: AllocError) -> Self {
        OutOfMemory
    }
}

impl<T: Drop> From<AllocFailed<T>> for OutOfMemory {
    fn from(_: AllocFailed<T>) -> Self {
        OutOfMemory
    }
}

impl<E> From<OutOfMemory> for Fault<E> {
    ghost use Rattle.glk_base.specs.declared.fault.Fault.TheVariants.{OutOfMemory as want};

    ghost from_gives = { λ _ e. e ≡ want };

    fn from(_: OutOfMemory) -> Self {
        Fault::OutOfMemory
    }
}

impl<E> From<AllocError> for Fault<E> {
    ghost use Rattle.glk_base.specs.declared.fault.Fault.TheVariants.{OutOfMemory as want};

    ghost from_gives = { λ _ e. e ≡ want };

    fn from(_: AllocError) -> Self {
        Fault::OutOfMemory
    }
}

impl<E, T: Drop> From<AllocFailed<T>> for Fault<E> {
    ghost use Rattle.glk_base.specs.declared.fault.Fault.TheVariants.{OutOfMemory as want};

    ghost from_gives = { λ _ e. e ≡ want };

    fn from(_: AllocFailed<T>) -> Self {
        Fault::OutOfMemory
    }
}
