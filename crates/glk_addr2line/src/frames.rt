// The text of an address in a function.
ghost use Rattle.std.specs.Prelude.{◌≡◌};
ghost use Rattle.glk_addr2line.specs.Texts.{frame_text, frames_text, first_text, found_text, function_text};
ghost use Rattle.glk_frames_reader.specs.Views.{frame_view};
ghost use Rattle.glk_pending.specs.Writing.{WritesAfter};

use crate::writing::{write_pair, write_unknown};
use glk_frames_reader::{Frame, Frames, Func};
use glk_io::{Failed, Sink};
use glk_pending::Pending;

// Writes a frame.
fn write_frame<O: Sink>(frame: &Frame<'_>, pending: &mut Pending, out: &mut O) -> Result<(), Failed>
    ensures { WritesAfter (O.state out.old) (O.state out.new) pending.old pending.new
        (frame_text (frame_view frame.now)) result }
{
    write_pair(frame.name, frame.file, frame.line, pending, out)
}

// Writes these frames.
fn write_frames<O: Sink>(
    mut frames: Frames<'_>,
    pending: &mut Pending,
    out: &mut O,
) -> Result<(), Failed>
    ensures { WritesAfter (O.state out.old) (O.state out.new) pending.old pending.new
        (frames_text frames.entry) result }
{
    while let Some(frame) = frames.next() {
        write_frame(&frame, pending, out)?;
    }
    Ok(())
}

// Writes a function with the file and the line of the first of these frames.
fn write_first<O: Sink>(
    name: &[u8],
    mut frames: Frames<'_>,
    pending: &mut Pending,
    out: &mut O,
) -> Result<(), Failed>
    ensures { WritesAfter (O.state out.old) (O.state out.new) pending.old pending.new
        (first_text name.now frames.entry) result }
{
    match frames.next() {
        Some(frame) => write_pair(name, frame.file, frame.line, pending, out),
        None => write_unknown(pending, out),
    }
}

// Writes the text of an address in a function.
fn write_function<O: Sink>(
    inline: bool,
    func: &Func<'_>,
    pc: u64,
    pending: &mut Pending,
    out: &mut O,
) -> Result<(), Failed>
    ensures { WritesAfter (O.state out.old) (O.state out.new) pending.old pending.new
        (function_text inline func.now pc) result }
{
    if inline {
        write_frames(func.frames(pc), pending, out)
    } else {
        write_first(func.name(), func.frames(pc), pending, out)
    }
}

// Writes the text of an address, whose function this is.
pub(crate) fn write_found<O: Sink>(
    inline: bool,
    pc: u64,
    found: Option<Func<'_>>,
    pending: &mut Pending,
    out: &mut O,
) -> Result<(), Failed>
    ensures { WritesAfter (O.state out.old) (O.state out.new) pending.old pending.new
        (found_text inline pc found.entry) result }
{
    match found {
        Some(func) => write_function(inline, &func, pc, pending, out),
        None => write_unknown(pending, out),
    }
}
