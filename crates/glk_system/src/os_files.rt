// The files of the system.
ghost use Rattle.std.specs.Prelude.{◌≡◌, ◌≤◌, None, IfOk, length};
ghost use Rattle.glk_io.specs.Files.{ReadsFile, WritesFile, count_after_read, count_after_write};
ghost use Rattle.glk_system.specs.OsFiles.{unknown_files};

use crate::output::Output;
use crate::places::write_bytes;
use crate::reading::read_up_to;
use glk_io::{Files, ReadError, WriteError};
use std::alloc::Global;
use std::fs;
use std::fs::OpenFile;
use std::io::ErrorKind;
use std::rt::Files as SystemFiles;

// How often reads and writes have failed.
#[derive(Clone, Copy, Debug)]
struct FaultCounts {
    reads: u64,
    writes: u64,
}

const NO_FAULTS: FaultCounts = FaultCounts {
    reads: 0,
    writes: 0,
};

/// The files of the system. Their contents are not known.
#[derive(Drop)]
pub struct OsFiles<'a, R: SystemFiles> {
    rt: &'a R,
    output: Output,
    faults: FaultCounts,
}

impl<'a, R: SystemFiles> OsFiles<'a, R> {
    /// The files of the system, without a fault. A file that it makes is plain data.
    pub fn new(rt: &'a R) -> OsFiles<'a, R>
        ensures { ⟦<OsFiles<'a, R> as Files>⟧.state result
            ≡ record { contents = None; reads = 0; writes = 0 } }
    {
        OsFiles {
            rt,
            output: Output::Plain,
            faults: NO_FAULTS,
        }
    }

    /// As `new`, but each file that it writes can be run as a program by those who can read it.
    pub fn for_programs(rt: &'a R) -> OsFiles<'a, R>
        ensures { ⟦<OsFiles<'a, R> as Files>⟧.state result
            ≡ record { contents = None; reads = 0; writes = 0 } }
    {
        OsFiles {
            rt,
            output: Output::Program,
            faults: NO_FAULTS,
        }
    }
}

impl<'a, R: SystemFiles> Files for OsFiles<'a, R> {
    ghost use Rattle.glk_system.specs.OsFiles.{unknown_files};

    ghost state = { λ f. unknown_files f.faults };

    fn read_faults(&self) -> u64 {
        self.faults.reads
    }

    fn write_faults(&self) -> u64 {
        self.faults.writes
    }

    fn read_file(&mut self, alloc: Global, path: &str, max: u64) -> Result<Vec<u8>, ReadError>
        ensures short { IfOk result (λ bytes. length bytes.items ≤ max) }
        ensures reads { ReadsFile (unknown_files self.old.faults) (unknown_files self.new.faults)
            path.now max result }
        ensures count { self.new.faults.reads ≡ count_after_read self.old.faults.reads result }
    {
        let read = match fs::open(self.rt, path) {
            Err(e) if e.kind() == ErrorKind::NotFound => return Err(ReadError::Absent),
            Err(_) => Err(ReadError::Failed),
            Ok(file) => {
                let size = file.metadata().map_or(0, |metadata| metadata.len());
                read_up_to(alloc, file, size, max)
            }
        };
        if let Err(ReadError::Failed) = read {
            self.faults.reads = self.faults.reads.saturating_add(1);
        }
        read
    }

    fn write_file(&mut self, alloc: Global, path: &str, bytes: &[u8]) -> Result<(), WriteError>
        ensures writes { WritesFile (unknown_files self.old.faults) (unknown_files self.new.faults)
            path.now bytes.now result }
        ensures count { self.new.faults.writes ≡ count_after_write self.old.faults.writes result }
    {
        let wrote = write_bytes(self.rt, alloc, path, bytes, self.output);
        if let Err(WriteError::Failed) = wrote {
            self.faults.writes = self.faults.writes.saturating_add(1);
        }
        wrote
    }
}
