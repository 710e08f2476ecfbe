// All that the program does.
ghost use Rattle.std.specs.Prelude.{◌≡◌};
ghost use Rattle.glk_words.specs.Words.{texts_of};
ghost use Rattle.glk_words.specs.CommandLine.{command_line_of, invocation_view, settings_of, AreAccepted};
ghost use Rattle.glk_messages.specs.Messages.{Reports};
ghost use Rattle.glk_run.specs.Outcomes.{IsBuilt, ReadsInput, PrintsFile, OpensNothing, LeavesInput, PrintsNothing, CommandOutcome, RunOutcome};

use crate::cmd_addr2line::addr2line_command;
use crate::cmd_dump::dump_command;
use crate::cmd_link::link_command;
use crate::cmd_mkobj::mkobj_command;
use crate::cmd_nm::nm_command;
use crate::help::{help, version};
use crate::stdout::print_text;
use glk_base::Fault;
use glk_cause::{Cause, Form};
use glk_io::{Files, Sink, Source};
use glk_messages::{Outcome, report};
use glk_words::{Command, CommandLine, Invocation, parse_command_line};
use std::alloc::Global;
use std::thread::Threads;

/// Does what the words after the program's name say, over these files and streams, and writes the
/// message of every outcome but Done to `err`.
///
/// No file but the output file is ever changed, and that one only where no refusal comes before
/// the write. Only `dump`, `nm`, `addr2line`, `--help` and `--version` write to `out`, and only
/// `addr2line` reads `input`.
/// A fault of `err` changes nothing else.
pub fn run<R: Threads + Sync, F: Files, I: Source, O: Sink, E: Sink>(
    rt: &R,
    alloc: Global,
    words: &[String],
    files: &mut F,
    input: &mut I,
    out: &mut O,
    err: &mut E,
) -> Outcome
    ensures headline { RunOutcome (F.state files.old) (F.state files.new) (I.state input.old)
        (I.state input.new) (O.state out.old) (O.state out.new) (texts_of words.now) result }
    ensures message { Reports (E.state err.old) (E.state err.new) result }
    ensures unread { LeavesInput (command_line_of (texts_of words.now)) → input.new ≡ input.old }
    ensures silent { PrintsNothing (command_line_of (texts_of words.now)) → out.new ≡ out.old }
    ensures idle { OpensNothing (command_line_of (texts_of words.now)) → files.new ≡ files.old }
{
    let outcome = run_command_line(rt, alloc, words, files, input, out);
    report(err, &outcome);
    outcome
}

// The same without the message.
fn run_command_line<R: Threads + Sync, F: Files, I: Source, O: Sink>(
    rt: &R,
    alloc: Global,
    words: &[String],
    files: &mut F,
    input: &mut I,
    out: &mut O,
) -> Outcome
    ensures headline { RunOutcome (F.state files.old) (F.state files.new) (I.state input.old)
        (I.state input.new) (O.state out.old) (O.state out.new) (texts_of words.now) result }
    ensures unread { LeavesInput (command_line_of (texts_of words.now)) → input.new ≡ input.old }
    ensures silent { PrintsNothing (command_line_of (texts_of words.now)) → out.new ≡ out.old }
    ensures idle { OpensNothing (command_line_of (texts_of words.now)) → files.new ≡ files.old }
{
    match parse_command_line(alloc, words) {
        Ok(CommandLine::Help) => print_text(alloc, help(), out),
        Ok(CommandLine::Version) => print_text(alloc, version(), out),
        Ok(CommandLine::Invocation(invocation)) => dispatch(
            rt,
            alloc,
            &invocation,
            files,
            input,
            out,
        ),
        Err(Fault::Bad(bad)) => Outcome::Usage(bad),
        Err(Fault::OutOfMemory) => Outcome::OutOfMemory,
    }
}

// Does what a command asks for.
fn dispatch<R: Threads + Sync, F: Files, I: Source, O: Sink>(
    rt: &R,
    alloc: Global,
    invocation: &Invocation<'_>,
    files: &mut F,
    input: &mut I,
    out: &mut O,
) -> Outcome
    requires { AreAccepted (settings_of invocation.now) }
    ensures outcome { CommandOutcome (F.state files.old) (F.state files.new) (I.state input.old)
        (I.state input.new) (O.state out.old) (O.state out.new) (invocation_view invocation.now)
        invocation.now.command result }
    ensures unread { ¬ ReadsInput invocation.now.command → input.new ≡ input.old }
    ensures silent { ¬ PrintsFile invocation.now.command → out.new ≡ out.old }
    ensures idle { ¬ IsBuilt invocation.now.command → files.new ≡ files.old }
{
    match invocation.command {
        Command::Link => link_command(rt, alloc, invocation, files),
        Command::Mkobj => mkobj_command(alloc, invocation, files),
        Command::Dump => dump_command(alloc, invocation.file, files, out),
        Command::Nm => nm_command(alloc, invocation, files, out),
        Command::Addr2line => addr2line_command(alloc, invocation, files, input, out),
        _ => Outcome::Refused(Cause::NotYet {
            form: Form::Command,
        }),
    }
}
