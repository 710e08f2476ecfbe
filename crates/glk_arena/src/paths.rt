// The paths of packages in load order, each once.
ghost use Rattle.std.specs.Prelude.{◌≡◌, ◌<◌, ◌++◌, ◌∷◌, [], length, take, get_or, OnOk, false};
ghost use Rattle.std.specs.List.{position};
ghost use Rattle.std.specs.Str.{bytes_eq};
ghost use Rattle.glk_arena.specs.Imports.{is_among};
ghost use Rattle.glk_arena.specs.Waves.{is_known};

use glk_base::OutOfMemory;
use indexmap::IndexSet;
use std::alloc::Global;
use std::marker::Model;

// The path of the package that the compiler itself has.
const UNSAFE: &[u8] = b"unsafe";

// Paths in load order, each once. Contracts see them as a list.
#[derive(Drop)]
pub(crate) struct PackagePaths {
    paths: IndexSet<Vec<u8>>,
}

impl Model for PackagePaths {
    ghost use Rattle.std.specs.Prelude.{List, ℕ, map};

    ghost Value = { List (List ℕ) };

    ghost view = { λ l. map (λ p. p.items) l.paths.keys };
}

impl PackagePaths {
    pub(crate) fn new(alloc: Global) -> PackagePaths
        ensures { result ≡ [] }
    {
        PackagePaths {
            paths: IndexSet::new(alloc),
        }
    }

    pub(crate) fn len(&self) -> usize
        ensures { result ≡ length self.now }
    {
        self.paths.len()
    }

    // Path `i`.
    pub(crate) fn get(&self, i: usize) -> &[u8]
        requires { i < length self.now }
        ensures { result.now ≡ get_or self.now i [] }
    {
        match self.paths.get_index(i) {
            Some(path) => path.as_slice(),
            None => unreachable!(),
        }
    }

    // The index of a path.
    pub(crate) fn position(&self, path: &[u8]) -> Option<usize>
        ensures { result ≡ position (bytes_eq path.now) self.now }
    {
        self.paths.get_index_of(path)
    }

    // Whether a path is among them.
    pub(crate) fn has(&self, path: &[u8]) -> bool
        ensures { result ≡ is_among self.now path.now }
    {
        self.paths.contains(path)
    }

    // Whether a path is among the first `end` of them.
    pub(crate) fn has_before(&self, path: &[u8], end: usize) -> bool
        ensures { result ≡ is_among (take end self.now) path.now }
    {
        match self.position(path) {
            Some(p) => p < end,
            None => false,
        }
    }

    // Whether a path asks for no further package: it is `unsafe`, or among them.
    pub(crate) fn knows(&self, path: &[u8]) -> bool
        ensures { result ≡ is_known self.now path.now }
    {
        path == UNSAFE || self.has(path)
    }

    // The path goes last.
    pub(crate) fn push(&mut self, alloc: Global, path: &[u8]) -> Result<(), OutOfMemory>
        requires { is_among self.old path.now ≡ false }
        ensures { OnOk result (self.new ≡ self.old ++ path.now ∷ []) }
    {
        let path = path.to_vec(alloc)?;
        self.paths.insert(path)?;
        Ok(())
    }
}
