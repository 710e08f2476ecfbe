// The configuration files of a link, each read whole and then parsed.
ghost use Rattle.std.specs.Prelude.{◌≡◌, List, None, IfOk};
ghost use Rattle.glk_cause.specs.Chain.{Answers};
ghost use Rattle.glk_cause.specs.declared.cause.Cause.TheVariants as cause;
ghost use Rattle.glk_obj.specs.Numbers.{IsGood as IsNumberLine};
ghost use Rattle.glk_obj.specs.declared.numbers.Numbers.{Numbers as NumbersValue};
ghost use Rattle.glk_arena.specs.Builtins.{Builtin as BuiltinValue, AreListed, IsGoodLine as IsBuiltinLine};
ghost use Rattle.glk_arena.specs.Config.{IsGoodLine as IsListingLine};
ghost use Rattle.glk_arena.specs.ConfigViews.{file_in};
ghost use Rattle.glk_link.specs.Config.{Parses, AreNumbers, AreFiles, TellsNumbers, TellsBuiltins, TellsFiles, ConfigAnswer, ListsNothing};

use crate::options::LinkOptions;
use glk_arena::{Builtins, Config};
use glk_base::{ConfigLine, Fault, OutOfMemory, Text};
use glk_cause::{Cause, read_named};
use glk_io::Files;
use glk_obj::Numbers;
use std::alloc::Global;

// The largest number of bytes of a configuration file that golink reads.
const CONFIG_LIMIT: u64 = 1 << 24;

/// The numbers of the kinds of relocations; without a file they are the standard ones.
///
/// # Errors
/// A fault of the read, a file that is absent or too long, the first bad line, or out of memory.
pub(crate) fn read_numbers<F: Files>(
    alloc: Global,
    opts: &LinkOptions,
    files: &mut F,
) -> Result<Numbers, Fault<Cause>>
    ensures { ConfigAnswer (F.state files.old) (F.state files.new) TellsNumbers (λ (table : NumbersValue). table) opts.now.numbers result }
{
    let path = match &opts.numbers {
        Some(path) => path,
        None => return Ok(Numbers::standard()),
    };
    let text = read_named(alloc, path.as_str(), CONFIG_LIMIT, CONFIG_LIMIT, files)?;
    parse_numbers(alloc, path.as_str(), text.as_bytes())
}

/// The builtin list; without a file it is empty.
///
/// # Errors
/// A fault of the read, a file that is absent or too long, the first bad line, or out of memory.
pub(crate) fn read_builtins<F: Files>(
    alloc: Global,
    opts: &LinkOptions,
    files: &mut F,
) -> Result<Builtins, Fault<Cause>>
    ensures { ConfigAnswer (F.state files.old) (F.state files.new) TellsBuiltins (λ (list : List BuiltinValue). list)
        opts.now.builtin result }
{
    let path = match &opts.builtin {
        Some(path) => path,
        None => return Ok(Builtins::none(alloc)),
    };
    let text = read_named(alloc, path.as_str(), CONFIG_LIMIT, CONFIG_LIMIT, files)?;
    parse_builtins(alloc, path.as_str(), text.as_bytes())
}

/// The files of packages; without a configuration none is listed.
///
/// # Errors
/// A fault of the read, a file that is absent or too long, the first bad line, or out of memory.
pub(crate) fn read_config<F: Files>(
    alloc: Global,
    opts: &LinkOptions,
    files: &mut F,
) -> Result<Config, Fault<Cause>>
    ensures reads { ConfigAnswer (F.state files.old) (F.state files.new) TellsFiles file_in opts.now.importcfg result }
    ensures without { opts.now.importcfg ≡ None → IfOk result ListsNothing }
{
    let path = match &opts.importcfg {
        Some(path) => path,
        None => return Ok(Config::new(alloc)),
    };
    let text = read_named(alloc, path.as_str(), CONFIG_LIMIT, CONFIG_LIMIT, files)?;
    parse_config(alloc, path.as_str(), text.as_bytes())
}

// What the lines of a file of numbers give.
fn parse_numbers(alloc: Global, path: &str, text: &[u8]) -> Result<Numbers, Fault<Cause>>
    ensures { Answers (Parses IsNumberLine AreNumbers path.now text.now) (λ (table : NumbersValue). table) result }
{
    match Numbers::parse(text) {
        Ok(numbers) => Ok(numbers),
        Err(bad) => Err(Fault::Bad(bad_line(alloc, path, bad)?)),
    }
}

// What the lines of a builtin list give.
fn parse_builtins(alloc: Global, path: &str, text: &[u8]) -> Result<Builtins, Fault<Cause>>
    ensures { Answers (Parses IsBuiltinLine AreListed path.now text.now) (λ (list : List BuiltinValue). list) result }
{
    match Builtins::parse(alloc, text) {
        Ok(builtins) => Ok(builtins),
        Err(Fault::Bad(bad)) => Err(Fault::Bad(bad_line(alloc, path, bad)?)),
        Err(Fault::OutOfMemory) => Err(Fault::OutOfMemory),
    }
}

// What the lines of a configuration list.
fn parse_config(alloc: Global, path: &str, text: &[u8]) -> Result<Config, Fault<Cause>>
    ensures { Answers (Parses IsListingLine AreFiles path.now text.now) file_in result }
{
    match Config::parse(alloc, text) {
        Ok(config) => Ok(config),
        Err(Fault::Bad(bad)) => Err(Fault::Bad(bad_line(alloc, path, bad)?)),
        Err(Fault::OutOfMemory) => Err(Fault::OutOfMemory),
    }
}

// The refusal of a bad line.
fn bad_line(alloc: Global, path: &str, bad: ConfigLine) -> Result<Cause, OutOfMemory>
    ensures { IfOk result (λ refusal. refusal ≡ cause.ConfigBad path.now bad.line) }
{
    let path = Text::new(alloc, path.as_bytes())?;
    Ok(Cause::ConfigBad {
        path,
        line: bad.line,
    })
}
