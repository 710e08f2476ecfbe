// The command `link`: from its words to its outcome.
ghost use Rattle.std.specs.Prelude.{◌≤◌, IfOk};
ghost use Rattle.glk_words.specs.CommandLine.{invocation_view, settings_of, AreAccepted, IsPath};
ghost use Rattle.glk_run.specs.LinkWords.{IsLink};
ghost use Rattle.glk_run.specs.Outcomes.{LinkOutcome};

use glk_base::{OutOfMemory, StrText};
use glk_io::{Files, Open};
use glk_link::{LinkOptions, link};
use glk_messages::Outcome;
use glk_words::{Flag, Invocation};
use std::alloc::Global;
use std::thread::Threads;

// The entry of a program for this platform.
const DEFAULT_ENTRY: &str = "_rt0_amd64_linux";

// The image that is written where no other is named.
const DEFAULT_IMAGE: &str = "a.out";

// Links what the words ask for.
pub(crate) fn link_command<R: Threads + Sync, F: Files>(
    rt: &R,
    alloc: Global,
    invocation: &Invocation<'_>,
    files: &mut F,
) -> Outcome
    requires { AreAccepted (settings_of invocation.now) }
    ensures { LinkOutcome (F.state files.old) (F.state files.new) (invocation_view invocation.now) result }
{
    let Ok(opts) = link_options(alloc, invocation) else {
        return Outcome::OutOfMemory;
    };
    Outcome::of_answer(link(rt, alloc, &opts, files, &Open))
}

// The link that the words ask for.
fn link_options(alloc: Global, invocation: &Invocation<'_>) -> Result<LinkOptions, OutOfMemory>
    requires { AreAccepted (settings_of invocation.now) }
    ensures link { IfOk result (IsLink (invocation_view invocation.now)) }
    ensures workers { IfOk result (λ opts. (1 ≤ opts.workers) × (opts.workers ≤ 64)) }
{
    let main = String::from_str(alloc, invocation.file)?;
    let out = invocation.value_or(alloc, Flag::Out, DEFAULT_IMAGE)?;
    let importcfg = path(alloc, invocation, Flag::ImportCfg)?;
    let numbers = path(alloc, invocation, Flag::Numbers)?;
    let builtin = path(alloc, invocation, Flag::Builtin)?;
    let entry = invocation.value_or(alloc, Flag::Entry, DEFAULT_ENTRY)?;
    Ok(LinkOptions {
        main: StrText::of(main),
        out: StrText::of(out),
        importcfg,
        numbers,
        builtin,
        entry: StrText::of(entry),
        strip: invocation.is_set(Flag::Strip),
        workers: invocation.workers(),
    })
}

// The path that a flag gives, where it is set.
fn path(
    alloc: Global,
    invocation: &Invocation<'_>,
    flag: Flag,
) -> Result<Option<StrText>, OutOfMemory>
    ensures { IfOk result (IsPath (settings_of invocation.now) flag) }
{
    match invocation.path(alloc, flag)? {
        Some(path) => Ok(Some(StrText::of(path))),
        None => Ok(None),
    }
}
