// Files that are read and written by name. The path of a fault is copied before a file is opened, so
// that no fault gets lost where memory runs out.
ghost use Rattle.std.specs.Prelude.{◌≤◌, length, IfOk};
ghost use Rattle.glk_cause.specs.Reading.{ReadsWhole};
ghost use Rattle.glk_cause.specs.Writing.{WritesWhole};

use crate::cause::Cause;
use glk_base::{Fault, Text};
use glk_io::{Files, ReadError, WriteError};
use std::alloc::Global;

/// The file at a path, which has at most `most` bytes. A longer one is refused as longer than `limit`.
///
/// # Errors
/// `ReadFault`, with a count that rose; `Absent` and `FileTooLong`; out of memory, with no count risen.
pub fn read_named<F: Files>(
    alloc: Global,
    path: &str,
    most: u64,
    limit: u64,
    files: &mut F,
) -> Result<Text, Fault<Cause>>
    ensures reads { ReadsWhole (F.state files.old) (F.state files.new) path.now most limit result }
    ensures short { IfOk result (λ text. length text ≤ most) }
{
    let named = Text::new(alloc, path.as_bytes())?;
    match files.read_file(alloc, path, most) {
        Ok(bytes) => Ok(Text::of(bytes)),
        Err(ReadError::Failed) => {
            let count = files.read_faults();
            Err(Fault::Bad(Cause::ReadFault { path: named, count }))
        }
        Err(ReadError::Absent) => Err(Fault::Bad(Cause::Absent { path: named })),
        Err(ReadError::TooLong) => Err(Fault::Bad(Cause::FileTooLong { path: named, limit })),
        Err(ReadError::OutOfMemory) => Err(Fault::OutOfMemory),
    }
}

/// Makes these bytes the file at a path. Other files stay as they are.
///
/// # Errors
/// `WriteFault`, with a count that rose: the file is as before, or has a prefix of the bytes. Out of
/// memory: the file is as before.
pub fn write_named<F: Files>(
    alloc: Global,
    path: &str,
    bytes: &[u8],
    files: &mut F,
) -> Result<(), Fault<Cause>>
    ensures { WritesWhole (F.state files.old) (F.state files.new) path.now bytes.now result }
{
    let named = Text::new(alloc, path.as_bytes())?;
    match files.write_file(alloc, path, bytes) {
        Ok(()) => Ok(()),
        Err(WriteError::Failed) => {
            let count = files.write_faults();
            Err(Fault::Bad(Cause::WriteFault { path: named, count }))
        }
        Err(WriteError::OutOfMemory) => Err(Fault::OutOfMemory),
    }
}
