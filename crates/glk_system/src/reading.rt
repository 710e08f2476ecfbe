// Whole files, read up to a limit.
ghost use Rattle.std.specs.Prelude.{◌≤◌, length, IfOk};
ghost use Rattle.glk_io.specs.Files.{ReadsUpTo};

use glk_io::ReadError;
use std::alloc::Global;
use std::io::{ErrorKind, Read};

// The bytes that a reader has left, at most `max` of them; `size` is about how many there are.
pub(crate) fn read_up_to<S: Read + Drop>(
    alloc: Global,
    file: S,
    size: u64,
    max: u64,
) -> Result<Vec<u8>, ReadError>
    ensures short { IfOk result (λ bytes. length bytes.items ≤ max) }
    ensures whole { ReadsUpTo (S.remaining file) max result }
{
    // One byte past the limit shows that the file is longer.
    let limit = max.saturating_add(1);
    let Ok(mut bytes) = Vec::with_capacity(alloc, size.saturating_add(1).min(limit) as usize) else {
        return Err(ReadError::OutOfMemory);
    };
    match file.take(limit).read_to_end(&mut bytes) {
        Ok(_) if bytes.len() as u64 >= limit => Err(ReadError::TooLong),
        Ok(_) => Ok(bytes),
        Err(e) if e.kind() == ErrorKind::OutOfMemory => Err(ReadError::OutOfMemory),
        Err(_) => Err(ReadError::Failed),
    }
}
