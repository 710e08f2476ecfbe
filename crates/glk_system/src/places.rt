// What is at a path that is to be written, and how it is written.
use crate::drafts::replace_file;
use crate::output::{Output, write_output};
use glk_io::WriteError;
use std::alloc::Global;
use std::fs::{Metadata, OpenOptions};
use std::io::ErrorKind;
use std::os::unix::fs::{MetadataExt, OpenOptionsExt};
use std::path::PathBuf;
use std::rt::Files as SystemFiles;
use std::{fs, io};

// What is at a path.
#[derive(Clone, Copy, Debug)]
enum Place {
    // Nothing.
    Free,
    // A regular file with these permissions.
    File(u32),
    // A link to a regular file with these permissions.
    Link(u32),
    // A device, a pipe, a folder, a link to such or to nothing, or what can't be looked at.
    Special,
}

// The permissions of a file, without what is beside reading, writing and running.
const PERMISSION_BITS: u32 = 0o777;

fn permissions_of(metadata: &Metadata) -> u32 {
    metadata.mode() & PERMISSION_BITS
}

// What is at a path.
fn place_at<R: SystemFiles>(rt: &R, path: &str) -> Place {
    match fs::symlink_metadata(rt, path) {
        Ok(metadata) if metadata.is_file() => Place::File(permissions_of(&metadata)),
        Ok(metadata) if metadata.is_symlink() => match fs::metadata(rt, path) {
            Ok(target) if target.is_file() => Place::Link(permissions_of(&target)),
            _ => Place::Special,
        },
        Ok(_) => Place::Special,
        Err(e) if e.kind() == ErrorKind::NotFound => Place::Free,
        Err(_) => Place::Special,
    }
}

// The file that a link leads to.
fn target_of<R: SystemFiles>(rt: &R, alloc: Global, path: &str) -> Result<PathBuf, WriteError> {
    match rt.canonicalize(alloc, path) {
        Ok(target) => Ok(target),
        Err(e) if e.kind() == ErrorKind::OutOfMemory => Err(WriteError::OutOfMemory),
        Err(_) => Err(WriteError::Failed),
    }
}

// Writes the bytes where the path leads.
fn write_in_place<R: SystemFiles>(
    rt: &R,
    path: &str,
    bytes: &[u8],
    output: Output,
) -> io::Result<()> {
    let mut options = OpenOptions::new();
    options.write(true).create(true).truncate(true);
    options.mode(output.mode());
    let mut file = options.open(rt, path)?;
    write_output(&mut file, bytes, output)
}

// Makes the bytes the file at the path. A regular file is replaced by a new one with its permissions,
// one that a link leads to too; the link stays. What is no regular file is written where it is.
pub(crate) fn write_bytes<R: SystemFiles>(
    rt: &R,
    alloc: Global,
    path: &str,
    bytes: &[u8],
    output: Output,
) -> Result<(), WriteError> {
    match place_at(rt, path) {
        Place::Free => replace_file(rt, alloc, path, None, bytes, output),
        Place::File(mode) => replace_file(rt, alloc, path, Some(mode), bytes, output),
        Place::Link(mode) => {
            let target = target_of(rt, alloc, path)?;
            replace_file(rt, alloc, target.as_str(), Some(mode), bytes, output)
        }
        Place::Special => match write_in_place(rt, path, bytes, output) {
            Ok(()) => Ok(()),
            Err(_) => Err(WriteError::Failed),
        },
    }
}
