// The command `addr2line`: the addresses on standard input are answered.
ghost use Rattle.std.specs.Prelude.{◌≤◌, length};
ghost use Rattle.glk_base.specs.Limits.{file_limit};
ghost use Rattle.glk_tools.specs.Addr2line.{AnswersAddresses, PrintsAddresses, Addr2lineAnswer, Addr2lineUnlessIoFails};

use crate::cmd_nm::IMAGE_LIMIT;
use crate::stdin::read_input;
use crate::stdout::STDOUT;
use glk_addr2line::LineFault;
use glk_base::{Fault, Text};
use glk_cause::{Cause, read_named};
use glk_elf::ElfView;
use glk_io::{Files, Sink, Source};
use std::alloc::Global;

/// Prints the function and the line of each address on standard input, for the image at a path, as
/// `glk_addr2line::addr2line` has them. The image is read first, and then the input to its end, at
/// most 2^24 bytes.
///
/// No file is changed, and nothing is printed of a file that is no image or has no functions. All
/// memory is taken before the first write.
///
/// # Errors
/// The first refusal that holds: of the file itself; `FileTooLong` of the input; `ElfBad` for the first
/// rule that the file breaks, E12 and E13 included; a read or write fault of the file, of `stdin` or
/// `stdout`, where its count rose; out of memory.
pub fn addr2line<F: Files, I: Source, O: Sink>(
    alloc: Global,
    path: &str,
    inline: bool,
    files: &mut F,
    input: &mut I,
    out: &mut O,
) -> Result<(), Fault<Cause>>
    ensures answer { Addr2lineAnswer (F.state files.old) (F.state files.new) (I.state input.old)
        (I.state input.new) (O.state out.old) (O.state out.new) inline path.now result }
    ensures must { Addr2lineUnlessIoFails (F.state files.old) (F.state files.new) (I.state input.old)
        (I.state input.new) (O.state out.old) (O.state out.new) inline path.now result }
{
    read_and_answer(alloc, path, inline, files, input, out)
}

// The same without what must be answered.
fn read_and_answer<F: Files, I: Source, O: Sink>(
    alloc: Global,
    path: &str,
    inline: bool,
    files: &mut F,
    input: &mut I,
    out: &mut O,
) -> Result<(), Fault<Cause>>
    ensures { Addr2lineAnswer (F.state files.old) (F.state files.new) (I.state input.old) (I.state input.new)
        (O.state out.old) (O.state out.new) inline path.now result }
{
    let file = read_named(alloc, path, IMAGE_LIMIT, IMAGE_LIMIT, files)?;
    let addresses = read_input(alloc, input)?;
    answer_addresses(
        alloc,
        path,
        file.as_bytes(),
        inline,
        addresses.as_bytes(),
        out,
    )
}

// Answers these addresses for a file, whose path is named where it is no image or has no functions.
fn answer_addresses<O: Sink>(
    alloc: Global,
    path: &str,
    file: &[u8],
    inline: bool,
    input: &[u8],
    out: &mut O,
) -> Result<(), Fault<Cause>>
    requires { length file.now ≤ file_limit }
    ensures { AnswersAddresses (O.state out.old) (O.state out.new) inline path.now file.now input.now result }
{
    // The path of a refusal is made before anything is written.
    let named = Text::new(alloc, path.as_bytes())?;
    match ElfView::read(file) {
        Ok(view) => print_addresses(alloc, named, &view, inline, input, out),
        Err(bad) => Err(Fault::Bad(Cause::ElfBad {
            path: named,
            rule: bad.rule,
            offset: bad.offset,
        })),
    }
}

// Answers these addresses for an image, whose path this is.
fn print_addresses<O: Sink>(
    alloc: Global,
    path: Text,
    view: &ElfView<'_>,
    inline: bool,
    input: &[u8],
    out: &mut O,
) -> Result<(), Fault<Cause>>
    ensures { PrintsAddresses (O.state out.old) (O.state out.new) inline path view.now input.now result }
{
    let stdout = Text::new(alloc, STDOUT)?;
    match glk_addr2line::addr2line(alloc, view, inline, input, out) {
        Ok(()) => Ok(()),
        Err(Fault::Bad(LineFault::Failed)) => {
            let count = out.faults();
            Err(Fault::Bad(Cause::WriteFault {
                path: stdout,
                count,
            }))
        }
        Err(Fault::Bad(LineFault::Elf(bad))) => Err(Fault::Bad(Cause::ElfBad {
            path,
            rule: bad.rule,
            offset: bad.offset,
        })),
        Err(Fault::OutOfMemory) => Err(Fault::OutOfMemory),
    }
}
