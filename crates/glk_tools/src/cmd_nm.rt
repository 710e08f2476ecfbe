// The command `nm`: the symbols of an image are listed.
ghost use Rattle.std.specs.Prelude.{◌≤◌, length};
ghost use Rattle.glk_base.specs.Limits.{file_limit};
ghost use Rattle.glk_tools.specs.Nm.{ListsSymbols, PrintsSymbols, NmAnswer, NmUnlessIoFails};

use crate::stdout::STDOUT;
use glk_base::{Fault, Text};
use glk_cause::{Cause, read_named};
use glk_elf::ElfView;
use glk_io::{Files, Sink};
use glk_nm::NmOptions;
use std::alloc::Global;

// How long an image may be.
pub(crate) const IMAGE_LIMIT: u64 = 1 << 30;

/// Prints the lines of the symbols of the image at a path on standard output, as `glk_nm::nm` has
/// them.
///
/// No file is changed, and nothing is printed of a file that is no image. All memory is taken before
/// the first write.
///
/// # Errors
/// The first refusal that holds of the files: of the file itself, or `ElfBad` for the first rule
/// that it breaks; a read or write fault, where its count rose; out of memory.
pub fn nm<F: Files, O: Sink>(
    alloc: Global,
    path: &str,
    opts: &NmOptions,
    files: &mut F,
    out: &mut O,
) -> Result<(), Fault<Cause>>
    ensures answer { NmAnswer (F.state files.old) (F.state files.new)
        (O.state out.old) (O.state out.new) opts.now path.now result }
    ensures must { NmUnlessIoFails (F.state files.old) (F.state files.new)
        (O.state out.old) (O.state out.new) opts.now path.now result }
{
    read_and_list(alloc, path, opts, files, out)
}

// The same without what must be answered.
fn read_and_list<F: Files, O: Sink>(
    alloc: Global,
    path: &str,
    opts: &NmOptions,
    files: &mut F,
    out: &mut O,
) -> Result<(), Fault<Cause>>
    ensures { NmAnswer (F.state files.old) (F.state files.new)
        (O.state out.old) (O.state out.new) opts.now path.now result }
{
    let file = read_named(alloc, path, IMAGE_LIMIT, IMAGE_LIMIT, files)?;
    list_symbols(alloc, path, file.as_bytes(), opts, out)
}

// Prints the symbols of a file, whose path is named where it is no image.
fn list_symbols<O: Sink>(
    alloc: Global,
    path: &str,
    file: &[u8],
    opts: &NmOptions,
    out: &mut O,
) -> Result<(), Fault<Cause>>
    requires { length file.now ≤ file_limit }
    ensures { ListsSymbols (O.state out.old) (O.state out.new) opts.now path.now file.now result }
{
    match ElfView::read(file) {
        Ok(view) => print_symbols(alloc, &view, opts, out),
        Err(bad) => {
            let named = Text::new(alloc, path.as_bytes())?;
            Err(Fault::Bad(Cause::ElfBad {
                path: named,
                rule: bad.rule,
                offset: bad.offset,
            }))
        }
    }
}

// Prints the symbols of an image.
fn print_symbols<O: Sink>(
    alloc: Global,
    view: &ElfView<'_>,
    opts: &NmOptions,
    out: &mut O,
) -> Result<(), Fault<Cause>>
    ensures { PrintsSymbols (O.state out.old) (O.state out.new) opts.now view.now result }
{
    // The path of a fault is made first: after a write nothing may run out of memory.
    let path = Text::new(alloc, STDOUT)?;
    match glk_nm::nm(alloc, view, opts, out) {
        Ok(()) => Ok(()),
        Err(Fault::Bad(_)) => {
            let count = out.faults();
            Err(Fault::Bad(Cause::WriteFault { path, count }))
        }
        Err(Fault::OutOfMemory) => Err(Fault::OutOfMemory),
    }
}
