// What is written: data, or programs.
ghost use Rattle.std.specs.Prelude.{◌≡◌, OnOk, ⊤};
ghost use Rattle.std.specs.Io.KnownBytes.{Appends};
ghost use Rattle.glk_system.specs.declared.output.Output.TheVariants as outputs;

use std::fs::OpenFile;
use std::io::Write;
use std::os::unix::fs::{MetadataExt, PermissionsExt};
use std::{fs, io};

// What is written: data, or programs.
#[derive(Clone, Copy, Debug, PartialEq, Eq)]
pub(crate) enum Output {
    Plain,
    Program,
}

impl Output {
    // The permissions of a new file, before the mask of the process takes its part away.
    pub(crate) fn mode(self) -> u32 {
        match self {
            Output::Plain => 0o666,
            Output::Program => 0o777,
        }
    }
}

// Who may read a file. Who may run it is two bits lower.
const READ_BITS: u32 = 0o444;

const READ_TO_RUN: u32 = 2;

// A file that is open for writing, and may be a program.
pub(crate) trait Runnable {
    // Those who can read the file can run it.
    ghost can_run: { Self → Type 0 };

    // Lets those who can read the file run it.
    fn let_run(&self) -> io::Result<()>
        ensures { OnOk result (can_run self.now) };
}

impl<F: OpenFile> Runnable for F {
    // No clause speaks of the system's permissions.
    ghost can_run = { λ _. ⊤ };

    // What is no regular file is left alone.
    fn let_run(&self) -> io::Result<()> {
        let metadata = self.metadata()?;
        let mode = metadata.mode() | ((metadata.mode() & READ_BITS) >> READ_TO_RUN);
        if !metadata.is_file() || mode == metadata.mode() {
            return Ok(());
        }
        self.set_permissions(fs::Permissions::from_mode(mode))
    }
}

// Writes the bytes whole, and lets a program be run.
pub(crate) fn write_output<W: Write + Runnable>(
    writer: &mut W,
    bytes: &[u8],
    output: Output,
) -> io::Result<()>
    ensures whole { OnOk result (Appends (W.contents writer.old) (W.contents writer.new) bytes.now) }
    ensures runs { output ≡ outputs.Program → OnOk result (W.can_run writer.new) }
{
    writer.write_all(bytes)?;
    match output {
        Output::Plain => Ok(()),
        Output::Program => writer.let_run(),
    }
}
