// The text of all addresses of an input, written to a sink.
ghost use Rattle.std.specs.Prelude.{◌≡◌, [], ◌∷◌, ◌==◌, ◌&&◌, length, if◌then◌else◌};
ghost use Rattle.glk_io.specs.Changes.{WritesText};
ghost use Rattle.glk_pending.specs.Writing.{WritesAfter};
ghost use Rattle.glk_addr2line.specs.Answers.{WritesAddresses};
ghost use Rattle.glk_addr2line.specs.Texts.{input_text, line_text, lines_text, address_text};

use crate::address::address_of;
use crate::fault::LineFault;
use crate::frames::write_found;
use crate::lines::without_return;
use crate::writing::write_unknown;
use glk_base::Fault;
use glk_base::lines::cut_line;
use glk_elf::ElfView;
use glk_frames_reader::Module;
use glk_io::{Failed, Sink};
use glk_pending::Pending;
use std::alloc::Global;

/// Writes the function and the line of each line of the input that is an address: 1 to 16
/// hexadecimal digits, which may have `0x` before them and a carriage return after them. An answer is
/// the name of the function found, a newline, and the file, a colon, the line and a newline of the
/// first frame; with `inline` it is this pair for each frame, with the frame's name. A line that is
/// no address, and an address without a function, gives `?` and `?:0`.
///
/// All memory, 64 KiB, is taken before the first write. Answers wait there, so that a sink is called
/// once for many of them.
///
/// # Errors
/// `Elf` with E12 or E13 where the file has no functions: nothing was written. `Failed`: a prefix of
/// the answers was written, and the sink's count of faults rose. Out of memory: nothing was written.
pub fn addr2line<'a, O: Sink>(
    alloc: Global,
    view: &'a ElfView<'a>,
    inline: bool,
    input: &[u8],
    out: &mut O,
) -> Result<(), Fault<LineFault>>
    ensures { WritesAddresses (O.state out.old) (O.state out.new) inline view.now input.now result }
{
    match Module::of_section(view) {
        Ok(functions) => {
            let pending = Pending::new(alloc)?;
            match print_answers(&functions, inline, input, pending, out) {
                Ok(()) => Ok(()),
                Err(_) => Err(Fault::Bad(LineFault::Failed)),
            }
        }
        Err(bad) => Err(Fault::Bad(LineFault::Elf(bad))),
    }
}

// Writes the answers of all lines.
fn print_answers<O: Sink>(
    functions: &Module<'_>,
    inline: bool,
    input: &[u8],
    mut pending: Pending,
    out: &mut O,
) -> Result<(), Failed>
    requires { pending ≡ [] }
    ensures { WritesText (O.state out.old) (O.state out.new)
        (input_text functions.now inline input.now) result }
{
    write_answers(functions, inline, input, &mut pending, out)?;
    pending.flush(out)
}

// Writes the answers of all lines, whose end may wait.
fn write_answers<O: Sink>(
    functions: &Module<'_>,
    inline: bool,
    input: &[u8],
    pending: &mut Pending,
    out: &mut O,
) -> Result<(), Failed>
    ensures { WritesAfter (O.state out.old) (O.state out.new) pending.old pending.new
        (input_text functions.now inline input.now) result }
{
    let mut rest = Some(input);
    while let Some(text) = rest {
        let (line, after) = cut_line(text);
        write_first_line(functions, inline, line, after.is_none(), pending, out)?;
        rest = after;
    }
    Ok(())
}

// Writes the answer of a line; of the last one where it is not empty.
fn write_first_line<O: Sink>(
    functions: &Module<'_>,
    inline: bool,
    line: &[u8],
    last: bool,
    pending: &mut Pending,
    out: &mut O,
) -> Result<(), Failed>
    ensures { WritesAfter (O.state out.old) (O.state out.new) pending.old pending.new
        (lines_text functions.now inline (if last && (length line.now == 0) then [] else line.now ∷ [])) result }
{
    if last && line.is_empty() {
        return Ok(());
    }
    write_line(functions, inline, line, pending, out)
}

// Writes the answer of a line.
#[tactic(auto, unfolding(crate::specs::Texts::line_text))]
fn write_line<O: Sink>(
    functions: &Module<'_>,
    inline: bool,
    line: &[u8],
    pending: &mut Pending,
    out: &mut O,
) -> Result<(), Failed>
    ensures { WritesAfter (O.state out.old) (O.state out.new) pending.old pending.new
        (line_text functions.now inline line.now) result }
{
    write_address(
        functions,
        inline,
        address_of(without_return(line)),
        pending,
        out,
    )
}

// Writes the answer of an address, if it is one.
fn write_address<O: Sink>(
    functions: &Module<'_>,
    inline: bool,
    address: Option<u64>,
    pending: &mut Pending,
    out: &mut O,
) -> Result<(), Failed>
    ensures { WritesAfter (O.state out.old) (O.state out.new) pending.old pending.new
        (address_text functions.now inline address) result }
{
    match address {
        Some(pc) => write_found(inline, pc, functions.find(pc), pending, out),
        None => write_unknown(pending, out),
    }
}
