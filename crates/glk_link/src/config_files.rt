// What the configuration files of a link tell.
ghost use Rattle.std.specs.Prelude.{◌≡◌, None, IfOk};
ghost use Rattle.glk_link.specs.Config.{ListsNothing};
ghost use Rattle.glk_link.specs.Answers.{ToldAnswer};

use crate::options::LinkOptions;
use crate::read_config::{read_builtins, read_config, read_numbers};
use glk_arena::{Builtins, Config};
use glk_base::Fault;
use glk_cause::Cause;
use glk_io::Files;
use glk_obj::Numbers;
use std::alloc::Global;

/// What the configuration files tell: the numbers of the kinds of relocations, the builtin list, and
/// the file of each package that is listed.
#[derive(Drop)]
pub(crate) struct ConfigFiles {
    pub numbers: Numbers,
    pub builtins: Builtins,
    pub config: Config,
}

/// Reads the files of `-numbers`, `-builtin` and `-importcfg`, in this order, each whole and then its
/// lines.
///
/// # Errors
/// The first refusal of a file, or out of memory.
pub(crate) fn read_config_files<F: Files>(
    alloc: Global,
    opts: &LinkOptions,
    files: &mut F,
) -> Result<ConfigFiles, Fault<Cause>>
    ensures tells { ToldAnswer (F.state files.old) (F.state files.new) opts.now result }
    ensures without { opts.now.importcfg ≡ None → IfOk result (λ told. ListsNothing told.config) }
{
    let numbers = read_numbers(alloc, opts, files)?;
    let builtins = read_builtins(alloc, opts, files)?;
    let config = read_config(alloc, opts, files)?;
    Ok(ConfigFiles {
        numbers,
        builtins,
        config,
    })
}
