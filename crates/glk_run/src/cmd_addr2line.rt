// The command `addr2line`: from its words to its outcome.
ghost use Rattle.glk_words.specs.declared.commands.Flag.TheVariants as flag;
ghost use Rattle.glk_words.specs.CommandLine.{invocation_view, settings_of, AreAccepted, IsTruth};
ghost use Rattle.glk_run.specs.Outcomes.{Addr2lineOutcome};

use glk_io::{Files, Sink, Source};
use glk_messages::Outcome;
use glk_tools::addr2line;
use glk_words::{Flag, Invocation};
use std::alloc::Global;

// Answers the addresses on standard input for the image that the words name.
pub(crate) fn addr2line_command<F: Files, I: Source, O: Sink>(
    alloc: Global,
    invocation: &Invocation<'_>,
    files: &mut F,
    input: &mut I,
    out: &mut O,
) -> Outcome
    requires { AreAccepted (settings_of invocation.now) }
    ensures { Addr2lineOutcome (F.state files.old) (F.state files.new) (I.state input.old) (I.state input.new)
        (O.state out.old) (O.state out.new) (invocation_view invocation.now) result }
{
    let inline = with_inlined(invocation);
    Outcome::of_answer(addr2line(alloc, invocation.file, inline, files, input, out))
}

// Whether the frames of inlined calls are asked for.
fn with_inlined(invocation: &Invocation<'_>) -> bool
    requires { AreAccepted (settings_of invocation.now) }
    ensures { IsTruth (settings_of invocation.now) flag.Inline result }
{
    invocation.is_set(Flag::Inline)
}
