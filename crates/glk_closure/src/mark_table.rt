// A mark for each key.
ghost use Rattle.std.specs.Prelude.{◌≡◌, ◌<◌, length, true, false, IfOk, slice_index_or, slice_set, replicate};

use glk_base::OutOfMemory;
use std::alloc::Global;
use std::marker::Model;

/// Which keys are marked. Contracts see it as a list with a place for each key.
#[derive(Drop)]
pub(crate) struct MarkTable {
    marks: Vec<bool>,
}

impl Model for MarkTable {
    ghost use Rattle.std.specs.Prelude.{List, Bool, length, ◌<◌, ◌^◌};

    ghost Value = { List Bool };

    ghost view = { λ t. t.marks.items };

    ghost invariant = { λ t. length t.marks.items < 2 ^ 32 };
}

impl MarkTable {
    /// No marks, for so many keys.
    pub(crate) fn new(alloc: Global, keys: u32) -> Result<MarkTable, OutOfMemory>
        ensures { IfOk result (λ table. table ≡ replicate keys false) }
    {
        let mut marks = Vec::new(alloc);
        marks.resize(keys as usize, false)?;
        Ok(MarkTable { marks })
    }

    /// How many keys there are.
    pub(crate) fn len(&self) -> u32
        ensures { result ≡ length self.now }
    {
        self.marks.len() as u32
    }

    /// Whether a key is marked.
    pub(crate) fn has(&self, key: u32) -> bool
        requires { key < length self.now }
        ensures { result ≡ slice_index_or self.now key false }
    {
        self.marks[key as usize]
    }

    /// Marks a key.
    pub(crate) fn mark(&mut self, key: u32)
        requires { key < length self.old }
        ensures { self.new ≡ slice_set self.old key true }
    {
        self.marks[key as usize] = true;
    }
}
