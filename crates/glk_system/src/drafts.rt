// New files that take the place of others once they are whole.
ghost use Rattle.std.specs.Prelude.{◌≡◌, OnOk, OnErr, ⊤};
ghost use Rattle.std.specs.Io.KnownBytes.{Appends};
ghost use Rattle.glk_system.specs.declared.output.Output.TheVariants as outputs;

use crate::output::{Output, Runnable, write_output};
use glk_io::WriteError;
use std::alloc::{AllocError, Global};
use std::fs::{OpenFile, OpenOptions};
use std::io::{ErrorKind, Write};
use std::os::unix::fs::{OpenOptionsExt, PermissionsExt};
use std::rt::Files as SystemFiles;
use std::{fs, io};

// What can take the place of a file.
pub(crate) trait Replacement {
    // It has taken its place.
    ghost is_placed: { Self → Type 0 };

    // Takes the place.
    fn take_place(&mut self) -> io::Result<()>
        ensures placed { OnOk result (is_placed self.new) }
        ensures stays { OnErr result (is_placed self.new → is_placed self.old) };
}

// Writes the bytes whole, lets a program be run, and only then takes the place of what is there.
pub(crate) fn publish<W: Write + Runnable, P: Replacement>(
    writer: &mut W,
    place: &mut P,
    bytes: &[u8],
    output: Output,
) -> io::Result<()>
    ensures whole { OnOk result (Appends (W.contents writer.old) (W.contents writer.new) bytes.now) }
    ensures runs { output ≡ outputs.Program → OnOk result (W.can_run writer.new) }
    ensures placed { OnOk result (P.is_placed place.new) }
    ensures stays { OnErr result (P.is_placed place.new → P.is_placed place.old) }
{
    write_output(writer, bytes, output)?;
    place.take_place()
}

// A file of the system beside the one whose place it takes.
#[derive(Drop)]
struct Draft<'a, R: SystemFiles> {
    rt: &'a R,
    from: &'a str,
    to: &'a str,
}

impl<'a, R: SystemFiles> Replacement for Draft<'a, R> {
    // No clause speaks of what the system's files are.
    ghost is_placed = { λ _. ⊤ };

    fn take_place(&mut self) -> io::Result<()> {
        fs::rename(self.rt, self.from, self.to)
    }
}

// How many names are tried for a new file. Those of interrupted runs may be taken.
const NAMES: u32 = 1_000;

// A new file that is open, with its path.
#[derive(Drop)]
struct NewFile<F> {
    file: F,
    path: String,
}

// The path of a new file beside the one at a path, by its number.
fn path_beside(alloc: Global, path: &str, number: u32) -> Result<String, AllocError> {
    match path.rsplit_once('/') {
        Some((folder, _)) => format!(in alloc; "{folder}/.golink-{number}"),
        None => format!(in alloc; ".golink-{number}"),
    }
}

// Opens a new file beside the one at a path.
fn new_file<R: SystemFiles>(
    rt: &R,
    alloc: Global,
    path: &str,
    output: Output,
) -> Result<NewFile<R::File>, WriteError> {
    let mut options = OpenOptions::new();
    options.write(true).create_new(true);
    options.mode(output.mode());
    for number in 0..NAMES {
        let Ok(path) = path_beside(alloc, path, number) else {
            return Err(WriteError::OutOfMemory);
        };
        match options.open(rt, path.as_str()) {
            Ok(file) => return Ok(NewFile { file, path }),
            Err(e) if e.kind() == ErrorKind::AlreadyExists => {}
            Err(_) => return Err(WriteError::Failed),
        }
    }
    Err(WriteError::Failed)
}

// Gives a new file the permissions of the one that it replaces.
fn keep_permissions<F: OpenFile>(file: &F, kept: Option<u32>) -> io::Result<()> {
    match kept {
        Some(mode) => file.set_permissions(fs::Permissions::from_mode(mode)),
        None => Ok(()),
    }
}

// Makes the bytes the file at a path where there is none, or one with these permissions. Until they
// are whole what is there stays as it is, and where that fails nothing is left beside it.
pub(crate) fn replace_file<R: SystemFiles>(
    rt: &R,
    alloc: Global,
    path: &str,
    kept: Option<u32>,
    bytes: &[u8],
    output: Output,
) -> Result<(), WriteError> {
    let new = new_file(rt, alloc, path, output)?;
    let NewFile {
        mut file,
        path: draft,
    } = new;
    let done = fill_draft(rt, &mut file, draft.as_str(), path, kept, bytes, output);
    if done.is_ok() {
        return Ok(());
    }
    // What was written is of no use. The write has failed, whatever this answers.
    let _ = fs::remove_file(rt, draft.as_str());
    Err(WriteError::Failed)
}

// Fills the new file at one path, and lets it take the place of the other.
fn fill_draft<R: SystemFiles>(
    rt: &R,
    file: &mut R::File,
    from: &str,
    to: &str,
    kept: Option<u32>,
    bytes: &[u8],
    output: Output,
) -> io::Result<()> {
    keep_permissions(file, kept)?;
    let mut place = Draft { rt, from, to };
    publish(file, &mut place, bytes, output)
}
