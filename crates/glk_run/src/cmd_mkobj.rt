// The command `mkobj`: from its words to its outcome.
ghost use Rattle.glk_words.specs.declared.commands.Flag.TheVariants as flag;
ghost use Rattle.glk_words.specs.CommandLine.{IsValue, invocation_view, settings_of};
ghost use Rattle.glk_run.specs.Outcomes.{default_archive, MkobjOutcome};

use glk_io::Files;
use glk_messages::Outcome;
use glk_tools::mkobj;
use glk_words::{Flag, Invocation};
use std::alloc::Global;

// The archive that is written where no other is named.
const DEFAULT_ARCHIVE: &str = "out.a";

// Makes the archive that the words ask for.
pub(crate) fn mkobj_command<F: Files>(
    alloc: Global,
    invocation: &Invocation<'_>,
    files: &mut F,
) -> Outcome
    ensures { MkobjOutcome (F.state files.old) (F.state files.new) (invocation_view invocation.now) result }
{
    let out = archive_path(invocation);
    Outcome::of_answer(mkobj(alloc, invocation.file, out, files))
}

// Where the archive is to be written.
fn archive_path<'a>(invocation: &Invocation<'a>) -> &'a str
    ensures { IsValue (settings_of invocation.now) flag.Out default_archive result.now }
{
    match invocation.value(Flag::Out) {
        Some(out) => out,
        None => DEFAULT_ARCHIVE,
    }
}
