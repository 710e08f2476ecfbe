// Standard input, read to its end.
ghost use Rattle.glk_tools.specs.Stdin.{ReadsInput};

use glk_base::{Fault, Text};
use glk_cause::Cause;
use glk_io::Source;
use std::alloc::Global;

// How standard input is named in a message.
const STDIN: &[u8] = b"stdin";

// How long standard input may be.
const INPUT_LIMIT: u64 = 1 << 24;

// How many bytes a read may give.
const ROOM: usize = 1 << 13;

/// All that is left of standard input, at most 2^24 bytes.
///
/// # Errors
/// `ReadFault` of the path `stdin`, with a count that rose; `FileTooLong`; out of memory, with no count
/// risen.
pub(crate) fn read_input<I: Source>(alloc: Global, input: &mut I) -> Result<Text, Fault<Cause>>
    ensures { ReadsInput (I.state input.old) (I.state input.new) result }
{
    // The path of a fault is made first, so that no fault gets lost where memory runs out.
    let path = Text::new(alloc, STDIN)?;
    let mut room = [0; ROOM];
    let mut bytes = Vec::new(alloc);
    while bytes.len() as u64 <= INPUT_LIMIT {
        let Ok(taken) = input.read(&mut room) else {
            let count = input.faults();
            return Err(Fault::Bad(Cause::ReadFault { path, count }));
        };
        if taken == 0 {
            return Ok(Text::of(bytes));
        }
        bytes.extend_from_slice(&room[..taken])?;
    }
    Err(Fault::Bad(Cause::FileTooLong {
        path,
        limit: INPUT_LIMIT,
    }))
}
