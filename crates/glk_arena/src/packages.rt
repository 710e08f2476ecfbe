// Which loaded package a path means that an object stores.
ghost use Rattle.std.specs.Prelude.{◌≡◌, ℕ, List, [], OnOk, None};
ghost use Rattle.glk_arena.specs.Packages.{find_package};
ghost use Rattle.glk_arena.specs.PackageViews.{place_in, Adds, AddsPath, IsTableOf};

use glk_base::{OutOfMemory, escaped_path};
use indexmap::IndexMap;
use std::alloc::Global;

// The refs of packages by a spelling of their paths: of those that share one the first.
#[derive(Drop)]
struct Spellings {
    refs: IndexMap<Vec<u8>, u32>,
}

impl Spellings {
    fn new(alloc: Global) -> Spellings
        ensures { (name : List ℕ) → place_in result name ≡ None }
    {
        Spellings {
            refs: IndexMap::new(alloc),
        }
    }

    // The index of a spelling.
    fn find(&self, spelling: &[u8]) -> Option<u32>
        ensures { result ≡ place_in self.now spelling.now }
    {
        self.refs.get(spelling).copied()
    }

    // Gives a spelling an index, where it has none.
    fn add(&mut self, alloc: Global, spelling: &[u8], place: u32) -> Result<(), OutOfMemory>
        ensures { OnOk result (Adds spelling.now place self.old self.new) }
    {
        match self.find(spelling) {
            Some(_) => Ok(()),
            None => self.put(alloc, spelling, place),
        }
    }

    fn put(&mut self, alloc: Global, spelling: &[u8], place: u32) -> Result<(), OutOfMemory>
        requires { place_in self.old spelling.now ≡ None }
        ensures { OnOk result (Adds spelling.now place self.old self.new) }
    {
        let key = spelling.to_vec(alloc)?;
        self.refs.insert(key, place)?;
        Ok(())
    }
}

// The loaded packages by their paths, plain and in the escaped spelling.
#[derive(Drop)]
pub(crate) struct PackageTable {
    plain: Spellings,
    escaped: Spellings,
}

impl PackageTable {
    // The table of no packages.
    pub(crate) fn new(alloc: Global) -> PackageTable
        ensures { IsTableOf [] result }
    {
        PackageTable {
            plain: Spellings::new(alloc),
            escaped: Spellings::new(alloc),
        }
    }

    // One package more, with this path and number.
    pub(crate) fn add(&mut self, alloc: Global, path: &[u8], place: u32) -> Result<(), OutOfMemory>
        ensures { OnOk result (AddsPath path.now place self.old self.new) }
    {
        self.plain.add(alloc, path, place)?;
        let spelling = escaped_path(alloc, path)?;
        self.escaped.add(alloc, spelling.as_bytes(), place)?;
        Ok(())
    }

    // The index of the package that a stored path means: of the first one that has this path, else
    // of the first one whose escaped spelling it is. It takes no memory.
    pub(crate) fn package_of(&self, name: &[u8]) -> Option<u32>
        ensures { (paths : List (List ℕ)) → IsTableOf paths self.now
            → result ≡ find_package paths name.now }
    {
        match self.plain.find(name) {
            Some(place) => Some(place),
            None => self.escaped.find(name),
        }
    }
}
