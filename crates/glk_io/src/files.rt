// Files by their paths.
ghost use Rattle.std.specs.Prelude.{◌≡◌, ◌≤◌, length, IfOk};
ghost use Rattle.glk_io.specs.Changes.{FileState};
ghost use Rattle.glk_io.specs.Files.{ReadsFile, WritesFile};

use std::alloc::Global;

/// Why a file was not read.
#[derive(Clone, Copy, Debug, PartialEq, Eq)]
pub enum ReadError {
    /// The read failed, and the count of reads rose.
    Failed,
    /// There is no such file. It raises no count.
    Absent,
    /// The file is longer than the caller takes.
    TooLong,
    OutOfMemory,
}

/// Why a file was not written whole.
#[derive(Clone, Copy, Debug, PartialEq, Eq)]
pub enum WriteError {
    /// The write failed, and the count of writes rose. The file is as it was, or holds a prefix of
    /// the bytes.
    Failed,
    /// The file is as it was, and no count rose.
    OutOfMemory,
}

/// Files by their paths, with a count of failed reads and one of failed writes.
pub trait Files {
    /// Paths with their bytes, where they are known, and how many reads and writes have failed.
    ghost state: { Self → FileState };

    /// How often a read has failed; it stays at the end of its type.
    fn read_faults(&self) -> u64
        ensures { result ≡ (state self.now).reads };

    /// How often a write has failed; it stays at the end of its type.
    fn write_faults(&self) -> u64
        ensures { result ≡ (state self.now).writes };

    /// The file's bytes, of which there are at most `max`. No file changes.
    ///
    /// # Errors
    /// `Failed`, and then alone the count of reads rose; `Absent` and `TooLong` by what the file is;
    /// out of memory.
    fn read_file(&mut self, alloc: Global, path: &str, max: u64) -> Result<Vec<u8>, ReadError>
        ensures short { IfOk result (λ bytes. length bytes.items ≤ max) }
        ensures reads { ReadsFile (state self.old) (state self.new) path.now max result };

    /// Makes these bytes the file at the path. Other files stay as they are.
    ///
    /// # Errors
    /// `Failed`, and then alone the count of writes rose: the file is as it was, or holds a prefix of
    /// the bytes. Out of memory: the file is as it was.
    fn write_file(&mut self, alloc: Global, path: &str, bytes: &[u8]) -> Result<(), WriteError>
        ensures { WritesFile (state self.old) (state self.new) path.now bytes.now result };
}
