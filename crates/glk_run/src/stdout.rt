// The texts of the program itself on standard output.
ghost use Rattle.glk_run.specs.Outcomes.{PrintOutcome};

use glk_io::Sink;
use glk_messages::Outcome;
use glk_tools::print;
use std::alloc::Global;

// Prints a text.
pub(crate) fn print_text<O: Sink>(alloc: Global, text: &[u8], out: &mut O) -> Outcome
    ensures { PrintOutcome (O.state out.old) (O.state out.new) text.now result }
{
    Outcome::of_answer(print(alloc, text, out))
}
