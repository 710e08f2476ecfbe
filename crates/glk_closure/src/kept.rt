// What is kept, as the crates above see it.
ghost use Rattle.std.specs.Prelude.{◌≡◌, ◌<◌, length, false, IfOk, slice_index_or};
ghost use Rattle.glk_closure.specs.Kept.{AreMarked, IsLeast};

use crate::mark_table::MarkTable;
use crate::program::Program;
use crate::search::reach;
use glk_base::OutOfMemory;
use std::alloc::Global;
use std::marker::Model;

/// The keys that are kept, and those that may be in an interface. Contracts see for each key whether
/// it is. It takes two bytes a key.
#[derive(Drop)]
pub struct KeptSet {
    pub(crate) kept: MarkTable,
    pub(crate) iface: MarkTable,
}

impl Model for KeptSet {
    ghost use Rattle.glk_closure.specs.Kept.{KeptView};

    ghost Value = { KeptView };

    ghost view = { λ s. record { kept = s.kept; iface = s.iface } };
}

impl KeptSet {
    /// Whether a key is kept.
    pub fn has(&self, key: u32) -> bool
        requires { key < length self.now.kept }
        ensures { result ≡ slice_index_or self.now.kept key false }
    {
        self.kept.has(key)
    }

    /// Whether a key may be in an interface.
    pub fn iface(&self, key: u32) -> bool
        requires { key < length self.now.iface }
        ensures { result ≡ slice_index_or self.now.iface key false }
    {
        self.iface.has(key)
    }

    /// The kept keys, in order: by load position, where keys are numbered so. It takes four bytes a
    /// kept key.
    ///
    /// # Errors
    /// Out of memory.
    pub fn list(&self, alloc: Global) -> Result<Vec<u32>, OutOfMemory>
        ensures { IfOk result (λ list. AreMarked self.now.kept list.items) }
    {
        marked_keys(alloc, &self.kept)
    }

    /// The keys that may be in an interface, in order. It takes four bytes for each of them.
    ///
    /// # Errors
    /// Out of memory.
    pub fn iface_list(&self, alloc: Global) -> Result<Vec<u32>, OutOfMemory>
        ensures { IfOk result (λ list. AreMarked self.now.iface list.items) }
    {
        marked_keys(alloc, &self.iface)
    }
}

// The marked keys, in order.
fn marked_keys(alloc: Global, marks: &MarkTable) -> Result<Vec<u32>, OutOfMemory>
    ensures { IfOk result (λ list. AreMarked marks.now list.items) }
{
    let mut list = Vec::new(alloc);
    for key in 0..marks.len() {
        if !marks.has(key) {
            continue;
        }
        list.push(key)?;
    }
    Ok(list)
}

/// Finds what a program keeps: the least set of facts that is closed under the rules. A symbol is
/// visited at most twice, once for being kept and once for Iface, and each method that it has waits in
/// at most three rows, where a call finds it: so the time is linear in the effects and the bytes of
/// their names.
///
/// # Errors
/// Out of memory.
pub fn kept_set<P: Program>(alloc: Global, program: &P) -> Result<KeptSet, OutOfMemory>
    ensures { IfOk result (λ kept. IsLeast (P.graph program.now) kept) }
{
    let marks = reach(alloc, program)?;
    Ok(KeptSet {
        kept: marks.kept,
        iface: marks.iface,
    })
}
