// Standard output.
ghost use Rattle.std.specs.Prelude.{◌≡◌};
ghost use Rattle.glk_tools.specs.Stdout.{Prints};

use glk_base::{Fault, Text};
use glk_cause::Cause;
use glk_io::{Sink, write_all};
use std::alloc::Global;

// How standard output is named in a message.
pub(crate) const STDOUT: &[u8] = b"stdout";

/// Prints a text on standard output.
///
/// # Errors
/// `WriteFault` of the path `stdout`, with a count that rose: a prefix of the text is printed. Out of
/// memory: nothing is printed.
pub fn print<S: Sink>(alloc: Global, text: &[u8], out: &mut S) -> Result<(), Fault<Cause>>
    ensures { Prints (S.state out.old) (S.state out.new) text.now result }
{
    // The path of a fault is made first: after the write nothing may run out of memory.
    let path = Text::new(alloc, STDOUT)?;
    match write_all(out, text) {
        Ok(()) => Ok(()),
        Err(_) => {
            let count = out.faults();
            Err(Fault::Bad(Cause::WriteFault { path, count }))
        }
    }
}
