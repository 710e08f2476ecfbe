// A link, pass by pass.
ghost use Rattle.std.specs.Prelude.{◌≡◌, ◌≤◌};
ghost use Rattle.glk_link.specs.Options.{AsksUnbuilt};
ghost use Rattle.glk_link.specs.Answers.{IsUnsupported, PackagesAnswer, LinkAnswer, AnswersUnlessIoFails};

use crate::config_files::read_config_files;
use crate::inputs::Inputs;
use crate::link_packages::link_packages;
use crate::options::{LinkOptions, Report, asks_unbuilt};
use glk_arena::{load_waves, one_load};
use glk_base::Fault;
use glk_cause::{Cause, Form, write_named};
use glk_init_lists::one_schedule;
use glk_io::{Files, Gate};
use std::alloc::Global;
use std::thread::Threads;

/// Links the file that the options name with the packages that it needs, and writes the image to the
/// output file. It reports the number of packages that were loaded, of their definitions and of those
/// that are kept, and the length of the image.
///
/// All memory but the files' own is taken before the write. The threads of `rt` check the objects that
/// are loaded; definitions are merged by workers side by side, which pass the gate; one thread does
/// the rest of the work, so far.
///
/// # Errors
/// The first refusal of the passes, in their order: then no file is changed, and no count rose.
/// `ReadFault` and `WriteFault`, with a count that rose; after a failed write the output file is as
/// before or a prefix of the image. Out of memory: no file is changed, and no count rose.
pub fn link<R: Threads + Sync, F: Files, G: Gate>(
    rt: &R,
    alloc: Global,
    opts: &LinkOptions,
    files: &mut F,
    gate: &G,
) -> Result<Report, Fault<Cause>>
    requires { (1 ≤ opts.now.workers) × (opts.now.workers ≤ 64) }
    ensures unbuilt { AsksUnbuilt opts.now → IsUnsupported result × (files.new ≡ files.old) }
    ensures means { LinkAnswer (F.state files.old) (F.state files.new) opts.now result }
    ensures due { AnswersUnlessIoFails (F.state files.old) (F.state files.new) opts.now result }
{
    one_load();
    one_schedule();
    if asks_unbuilt(opts) {
        return Err(Fault::Bad(Cause::NotYet { form: Form::Flag }));
    }
    link_files(rt, alloc, opts, files, gate)
}

/// Loads what is linked: the configuration files, and then the file that the options name and what it
/// needs of the packages that the configuration lists, in load order. No file is changed.
///
/// # Errors
/// The first refusal of the passes up to there, in their order: then no count rose. `ReadFault`, with
/// a count of reads that rose. Out of memory: no count rose.
pub fn load<R: Threads + Sync, F: Files>(
    rt: &R,
    alloc: Global,
    opts: &LinkOptions,
    files: &mut F,
) -> Result<Inputs, Fault<Cause>>
    ensures { PackagesAnswer (F.state files.old) (F.state files.new) opts.now result }
{
    if asks_unbuilt(opts) {
        return Err(Fault::Bad(Cause::NotYet { form: Form::Flag }));
    }
    load_packages(rt, alloc, opts, files)
}

// What is linked, where the options are supported.
fn load_packages<R: Threads + Sync, F: Files>(
    rt: &R,
    alloc: Global,
    opts: &LinkOptions,
    files: &mut F,
) -> Result<Inputs, Fault<Cause>>
    requires { AsksUnbuilt opts.now → ⊥ }
    ensures { PackagesAnswer (F.state files.old) (F.state files.new) opts.now result }
{
    let told = read_config_files(alloc, opts, files)?;
    let loaded = load_waves(rt, alloc, opts.main.as_str(), &told.config, files)?;
    Ok(Inputs {
        loaded,
        builtins: told.builtins,
        numbers: told.numbers,
    })
}

// The passes of a link whose options are supported.
fn link_files<R: Threads + Sync, F: Files, G: Gate>(
    rt: &R,
    alloc: Global,
    opts: &LinkOptions,
    files: &mut F,
    gate: &G,
) -> Result<Report, Fault<Cause>>
    requires built { AsksUnbuilt opts.now → ⊥ }
    requires workers { (1 ≤ opts.now.workers) × (opts.now.workers ≤ 64) }
    ensures { LinkAnswer (F.state files.old) (F.state files.new) opts.now result }
{
    let inputs = load_packages(rt, alloc, opts, files)?;
    let entry = opts.entry.as_str().as_bytes();
    let output = link_packages(rt, alloc, &inputs, entry, opts.workers, gate)?;
    write_named(alloc, opts.out.as_str(), &output.image, files)?;
    Ok(output.report)
}
