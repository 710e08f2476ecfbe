// The command `dump`: the objects of a package file are printed.
ghost use Rattle.std.specs.Prelude.{◌≤◌, length};
ghost use Rattle.glk_base.specs.Limits.{file_limit};
ghost use Rattle.glk_cause.specs.Chain.{Answers};
ghost use Rattle.glk_tools.specs.Dump.{IsTextOf, PackageAnswer, DumpAnswer, DumpUnlessIoFails};

use crate::package_text::dump_text;
use crate::stdout::print;
use glk_base::Fault;
use glk_cause::{Cause, read_named};
use glk_io::{Files, Sink};
use glk_package::package_refusal;
use std::alloc::Global;

// How long a package file may be.
const PACKAGE_LIMIT: u64 = 1 << 28;

/// Prints the text of the package file at a path on standard output.
///
/// No file is changed, and nothing is printed before all objects of the file passed. All memory is
/// taken before the write.
///
/// # Errors
/// The first refusal that holds of the files: of the file itself, or its first fault; a read or write
/// fault, where its count rose; out of memory.
pub fn dump<F: Files, O: Sink>(
    alloc: Global,
    path: &str,
    files: &mut F,
    out: &mut O,
) -> Result<(), Fault<Cause>>
    ensures answer { DumpAnswer (F.state files.old) (F.state files.new)
        (O.state out.old) (O.state out.new) path.now result }
    ensures must { DumpUnlessIoFails (F.state files.old) (F.state files.new)
        (O.state out.old) (O.state out.new) path.now result }
{
    read_and_print(alloc, path, files, out)
}

// The same without what must be answered.
fn read_and_print<F: Files, O: Sink>(
    alloc: Global,
    path: &str,
    files: &mut F,
    out: &mut O,
) -> Result<(), Fault<Cause>>
    ensures { DumpAnswer (F.state files.old) (F.state files.new)
        (O.state out.old) (O.state out.new) path.now result }
{
    let text = text_at(alloc, path, files)?;
    print(alloc, &text, out)
}

// The text of the package file at a path.
fn text_at<F: Files>(alloc: Global, path: &str, files: &mut F) -> Result<Vec<u8>, Fault<Cause>>
    ensures { PackageAnswer (F.state files.old) (F.state files.new) path.now result }
{
    let file = read_named(alloc, path, PACKAGE_LIMIT, PACKAGE_LIMIT, files)?;
    text_of(alloc, path, file.as_bytes())
}

// The text of a package file, whose path is named where it has none.
fn text_of(alloc: Global, path: &str, file: &[u8]) -> Result<Vec<u8>, Fault<Cause>>
    requires { length file.now ≤ file_limit }
    ensures { Answers (IsTextOf path.now file.now) (λ text. text.items) result }
{
    match dump_text(alloc, file) {
        Ok(text) => Ok(text),
        Err(Fault::Bad(broken)) => Err(package_refusal(alloc, path.as_bytes(), broken)),
        Err(Fault::OutOfMemory) => Err(Fault::OutOfMemory),
    }
}
