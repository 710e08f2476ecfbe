// Files in memory, some of whose calls fail.
ghost use Rattle.std.specs.Prelude.{◌≡◌, ◌≤◌, ◌↔◌, ℕ, [], Option, IsSome, IfOk, length, map, option_copied};
ghost use Rattle.std.specs.Prelude.{IsErrOf};
ghost use Rattle.glk_io.specs.Contents.{file_in};
ghost use Rattle.glk_io.specs.Files.{ReadsFile, WritesFile};
ghost use Rattle.glk_io.specs.Memory.{listed, memory_files, paths_of, after_read, after_write, WritesListed};
ghost use Rattle.glk_io.specs.Paths.{IsOnce};

use super::files::{Files, ReadError, WriteError};
use super::paths::{index_of, put};
use glk_base::{OutOfMemory, StrText, Text};
use std::alloc::Global;
use std::marker::Model;

/// A call that fails: its number on the object, reads and writes together from 0, and how many
/// bytes of the file a failing write leaves.
#[derive(Clone, Copy, Debug, PartialEq, Eq)]
pub struct CallFail {
    pub call: u64,
    pub kept: usize,
}

/// Files in memory, some of whose calls fail. Contracts see the files, the calls that fail, and
/// how many calls and faults there were.
#[derive(Drop)]
pub struct MemFiles {
    files: Vec<(StrText, Text)>,
    fails: Vec<CallFail>,
    calls: u64,
    read_faults: u64,
    write_faults: u64,
}

impl Model for MemFiles {
    ghost use Rattle.std.specs.Prelude.{◌≡◌, []};
    ghost use Rattle.glk_io.specs.Memory.{FilesInMemory};
    ghost use Rattle.glk_io.specs.Paths.{IsOnce};

    ghost Value = { FilesInMemory };

    ghost view = { λ m. record {
      contents = m.files.items;
      fails = m.fails.items;
      calls = m.calls;
      read_faults = m.read_faults;
      write_faults = m.write_faults;
    } };

    // Without listed calls no count ever rises.
    ghost invariant = { λ m. record {
      once : IsOnce m.files.items;
      reads : m.fails.items ≡ [] → m.read_faults ≡ 0;
      writes : m.fails.items ≡ [] → m.write_faults ≡ 0;
    } };
}

impl MemFiles {
    /// Files with these paths, which differ, and the calls that fail; of entries with one number
    /// the first counts. It takes no memory.
    pub fn new(files: Vec<(StrText, Text)>, fails: Vec<CallFail>) -> MemFiles
        requires { IsOnce files.items }
        ensures { result ≡ record {
          contents = files.items;
          fails = fails.items;
          calls = 0;
          read_faults = 0;
          write_faults = 0;
        } }
    {
        MemFiles {
            files,
            fails,
            calls: 0,
            read_faults: 0,
            write_faults: 0,
        }
    }

    /// The paths of the files: in the order of `new`, then in that of their first writes. It is no
    /// call in the sense of `CallFail`.
    pub fn paths(&self, alloc: Global) -> Result<Vec<&str>, OutOfMemory>
        ensures { IfOk result (λ list. map (λ path. path.now) list.items ≡ paths_of self.now.contents) }
    {
        let mut paths = Vec::new(alloc);
        for entry in &self.files {
            paths.push(entry.0.as_str())?;
        }
        Ok(paths)
    }

    /// The bytes at a path. It is no call in the sense of `CallFail`.
    pub fn get(&self, path: &str) -> Option<&[u8]>
        ensures { option_copied result ≡ file_in self.now.contents path.now }
    {
        let i = index_of(&self.files, path)?;
        Some(self.files[i].1.as_bytes())
    }
}

// How many bytes a failing write leaves at this call, where the call fails.
fn kept_at(fails: &[CallFail], call: u64) -> Option<usize>
    ensures { result ≡ listed fails.now call }
{
    for fail in fails {
        if fail.call == call {
            return Some(fail.kept);
        }
    }
    None
}

impl Files for MemFiles {
    ghost use Rattle.glk_io.specs.Memory.{memory_files};

    ghost state = { λ m. memory_files m };

    fn read_faults(&self) -> u64
        ensures count { result ≡ self.now.read_faults }
        ensures unlisted { self.now.fails ≡ [] → result ≡ 0 }
    {
        self.read_faults
    }

    fn write_faults(&self) -> u64
        ensures count { result ≡ self.now.write_faults }
        ensures unlisted { self.now.fails ≡ [] → result ≡ 0 }
    {
        self.write_faults
    }

    fn read_file(&mut self, alloc: Global, path: &str, max: u64) -> Result<Vec<u8>, ReadError>
        ensures short { IfOk result (λ bytes. length bytes.items ≤ max) }
        ensures reads { ReadsFile (memory_files self.old) (memory_files self.new) path.now max result }
        // It fails exactly where the call is listed.
        ensures listed { IsErrOf result ReadError.Failed ↔ IsSome (listed self.old.fails self.old.calls) }
        ensures after { self.new ≡ after_read self.old }
    {
        let call = self.calls;
        self.calls = call.saturating_add(1);
        if kept_at(&self.fails, call).is_some() {
            self.read_faults = self.read_faults.saturating_add(1);
            return Err(ReadError::Failed);
        }
        let Some(bytes) = self.get(path) else {
            return Err(ReadError::Absent);
        };
        if bytes.len() as u64 > max {
            return Err(ReadError::TooLong);
        }
        Vec::from_slice(alloc, bytes).map_err(|_| ReadError::OutOfMemory)
    }

    fn write_file(&mut self, alloc: Global, path: &str, bytes: &[u8]) -> Result<(), WriteError>
        ensures writes { WritesFile (memory_files self.old) (memory_files self.new)
            path.now bytes.now result }
        // It fails exactly where the call is listed and there is memory, and leaves what the entry says.
        ensures listed { WritesListed self.old self.new.contents path.now bytes.now result }
        ensures after { self.new ≡ after_write self.old self.new.contents result }
    {
        let call = self.calls;
        self.calls = call.saturating_add(1);
        let Some(kept) = kept_at(&self.fails, call) else {
            return match put(alloc, &mut self.files, path, bytes) {
                Ok(()) => Ok(()),
                Err(_) => Err(WriteError::OutOfMemory),
            };
        };
        let kept = kept.min(bytes.len());
        match put(alloc, &mut self.files, path, &bytes[..kept]) {
            Ok(()) => {
                self.write_faults = self.write_faults.saturating_add(1);
                Err(WriteError::Failed)
            }
            Err(_) => Err(WriteError::OutOfMemory),
        }
    }
}
