// The files of a wave, which are all read before any is looked at.
ghost use Rattle.std.specs.Prelude.{◌≡◌, ◌≤◌, ◌+◌, length, drop, IfOk, All};
ghost use Rattle.std.specs.List.{sum_by};
ghost use Rattle.glk_base.specs.Limits.{file_limit};
ghost use Rattle.glk_arena.specs.Waves.{file_of};
ghost use Rattle.glk_arena.specs.LoadParts.{inputs_by, HasFile, ReadsPaths};

use crate::loader::Loader;
use crate::paths::PackagePaths;
use crate::wave_files::WaveFile;
use glk_base::{FILE_LIMIT, Fault};
use glk_cause::{Cause, read_named};
use glk_io::Files;
use std::alloc::Global;
use std::collections::VecDeque;

// The path of the main file's package.
pub(crate) const MAIN: &[u8] = b"main";

// Where a package is.
pub(crate) fn file_of<'a>(loader: Loader<'a>, path: &[u8]) -> &'a str
    ensures { result.now ≡ file_of (inputs_by loader.entry) path.now }
{
    if path == MAIN {
        return loader.main;
    }
    match loader.config.file_of(path) {
        Some(file) => file,
        None => "",
    }
}

// Reads the files of the paths from `from` on, which have at most `limit` bytes together.
pub(crate) fn read_wave<F: Files>(
    alloc: Global,
    loader: Loader<'_>,
    names: &PackagePaths,
    from: usize,
    limit: u64,
    files: &mut F,
) -> Result<VecDeque<WaveFile>, Fault<Cause>>
    requires from { from ≤ length names.now }
    requires limit { limit ≤ file_limit }
    requires files { All (HasFile (inputs_by loader)) names.now }
    ensures reads { let inputs = inputs_by loader.entry in let paths = drop from names.now in
        ReadsPaths (F.state files.old) (F.state files.new) inputs limit paths (λ wave. wave.items) result }
    ensures all { IfOk result (λ wave. from + length wave.items ≡ length names.now) }
    ensures small { IfOk result (λ wave. sum_by length wave.items ≤ limit) }
{
    let mut wave = VecDeque::new(alloc);
    let mut left = limit;
    for i in from..names.len() {
        let path = file_of(loader, names.get(i));
        let file = read_named(alloc, path, left, FILE_LIMIT, files)?;
        left -= file.as_bytes().len() as u64;
        wave.push_back(WaveFile::new(file))?;
    }
    Ok(wave)
}
