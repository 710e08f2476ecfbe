// The command `nm`: from its words to its outcome.
ghost use Rattle.std.specs.Prelude.{◌≡◌};
ghost use Rattle.glk_words.specs.CommandLine.{invocation_view, settings_of, AreAccepted};
ghost use Rattle.glk_run.specs.NmWords.{sort_by as sort_of_order, IsListing};
ghost use Rattle.glk_run.specs.Outcomes.{NmOutcome};

use glk_io::{Files, Sink};
use glk_messages::Outcome;
use glk_nm::{NmOptions, NmSort};
use glk_tools::nm;
use glk_words::{Flag, Invocation, SymbolOrder};
use std::alloc::Global;

// Lists the symbols that the words ask for.
pub(crate) fn nm_command<F: Files, O: Sink>(
    alloc: Global,
    invocation: &Invocation<'_>,
    files: &mut F,
    out: &mut O,
) -> Outcome
    requires { AreAccepted (settings_of invocation.now) }
    ensures { NmOutcome (F.state files.old) (F.state files.new)
        (O.state out.old) (O.state out.new) (invocation_view invocation.now) result }
{
    let opts = nm_options(invocation);
    Outcome::of_answer(nm(alloc, invocation.file, &opts, files, out))
}

// The listing that the words ask for.
fn nm_options(invocation: &Invocation<'_>) -> NmOptions
    requires { AreAccepted (settings_of invocation.now) }
    ensures { IsListing (invocation_view invocation.now) result }
{
    NmOptions {
        size: invocation.is_set(Flag::Size),
        sort: sort_by(invocation.symbol_order()),
    }
}

// An order of symbols as a listing has it.
fn sort_by(order: SymbolOrder) -> NmSort
    ensures { result ≡ sort_of_order order }
{
    match order {
        SymbolOrder::Address => NmSort::Address,
        SymbolOrder::Name => NmSort::Name,
        SymbolOrder::Table => NmSort::Plain,
        SymbolOrder::Size => NmSort::Size,
    }
}
