// The command `dump`: from its file to its outcome.
ghost use Rattle.glk_run.specs.Outcomes.{DumpOutcome};

use glk_io::{Files, Sink};
use glk_messages::Outcome;
use glk_tools::dump;
use std::alloc::Global;

// Prints the text of the package file at a path.
pub(crate) fn dump_command<F: Files, O: Sink>(
    alloc: Global,
    path: &str,
    files: &mut F,
    out: &mut O,
) -> Outcome
    ensures { DumpOutcome (F.state files.old) (F.state files.new)
        (O.state out.old) (O.state out.new) path.now result }
{
    Outcome::of_answer(dump(alloc, path, files, out))
}
