// Loading packages by waves.
ghost use Rattle.std.specs.Prelude.{◌≡◌, ◌≤◌, ◌<◌, ℕ, List, Option, length, drop, All, Err, IfOk, IfErr, OnOk};
ghost use Rattle.glk_io.specs.Changes.{FilesUnchanged};
ghost use Rattle.glk_obj.specs.Object.{IsObject};
ghost use Rattle.glk_arena.specs.ConfigViews.{file_in};
ghost use Rattle.glk_arena.specs.World.{objects_of, paths_of, file_bytes, package_limit};
ghost use Rattle.glk_base.specs.Limits.{file_limit};
ghost use Rattle.glk_arena.specs.Imports.{imports_of};
ghost use Rattle.glk_arena.specs.ImportRefs.{AreImportsOf};
ghost use Rattle.glk_arena.specs.Waves.{first_wave};
ghost use Rattle.glk_arena.specs.LoadParts.{inputs_of, inputs_by, HasFile, LoadsFiles, RefusesFiles, RefusesLoad, LoadAnswer, refusal_by};
ghost use Rattle.glk_arena.specs.WaveLoop.{IsLoading, IsWaveOf};

use crate::config::Config;
use crate::imports::{
    ImportRef, WaveImports, add_imports, fingerprint_of, first_missing, first_unequal,
    queue_imports,
};
use crate::loaded::Loaded;
use crate::loader::Loader;
use crate::parse_packages::append_wave;
use crate::paths::PackagePaths;
use crate::read_files::{MAIN, read_wave};
use crate::wave_files::check_files;
use glk_base::{FILE_LIMIT, Fault, OutOfMemory, Text};
use glk_cause::{Cause, Limit};
use glk_io::Files;
use std::alloc::Global;
use std::thread::Threads;

// The path of the package that is loaded where it is listed, whoever imports it.
const RUNTIME: &[u8] = b"runtime";

// How many packages a link has at most.
const PACKAGE_LIMIT: usize = 65_536;

// The paths of the first wave.
fn first_names(alloc: Global, config: &Config) -> Result<PackagePaths, OutOfMemory>
    ensures { IfOk result (λ names. names ≡ first_wave (file_in config.now)) }
{
    let mut names = PackagePaths::new(alloc);
    names.push(alloc, MAIN)?;
    match config.file_of(RUNTIME) {
        Some(_) => {
            names.push(alloc, RUNTIME)?;
            Ok(names)
        }
        None => Ok(names),
    }
}

// The packages of a wave after the earlier ones: all their files are read, and then all formats
// are checked.
fn load_files<R: Threads + Sync, F: Files>(
    rt: &R,
    alloc: Global,
    loader: Loader<'_>,
    names: &PackagePaths,
    earlier: Loaded,
    files: &mut F,
) -> Result<Loaded, Fault<Cause>>
    requires some { length earlier ≤ length names.now }
    requires few { length names.now ≤ package_limit }
    requires files { All (HasFile (inputs_by loader)) names.now }
    ensures ok { IfOk result
        (LoadsFiles (F.state files.old) (inputs_by loader.entry) earlier names.now) }
    ensures same { OnOk result (FilesUnchanged (F.state files.old) (F.state files.new)) }
    ensures err { IfErr result
        (RefusesFiles (F.state files.old) (F.state files.new) (inputs_by loader.entry) earlier names.now) }
{
    let from = earlier.packages() as usize;
    let left = FILE_LIMIT - earlier.bytes();
    let mut wave = read_wave(alloc, loader, names, from, left, files)?;
    check_files(rt, alloc, &mut wave);
    let now = append_wave(alloc, loader, names, earlier, wave)?;
    Ok(now)
}

// The refusal of a wave for an import: the first that differs, of those that are compared with it,
// or the first that is missing, of its own.
fn import_refusal(alloc: Global, wave: WaveImports<'_>) -> Result<Option<Cause>, OutOfMemory>
    requires paths { paths_of wave.list.now ≡ wave.names.now }
    requires refs { AreImportsOf wave.list.now wave.list.now wave.refs.now }
    requires compared { wave.compared ≤ wave.known }
    requires known { wave.known ≤ length wave.refs.now }
    ensures { IfOk result (λ refusal. refusal ≡ refusal_by wave.entry) }
{
    let WaveImports {
        list,
        names,
        config,
        refs,
        compared,
        known,
        earlier,
    } = wave;
    if let Some(import) = first_unequal(list, names, refs, compared, earlier) {
        return Ok(Some(Cause::Fingerprint {
            importer: Text::new(alloc, import.importer)?,
            package: Text::new(alloc, import.imported)?,
            wanted: import.wanted,
            found: fingerprint_of(list, names, import.imported),
        }));
    }
    match first_missing(list, names, config, refs, known) {
        Some(import) => Ok(Some(Cause::MissingPackage {
            importer: Text::new(alloc, import.importer)?,
            package: Text::new(alloc, import.imported)?,
        })),
        None => Ok(None),
    }
}

// Loaded packages, with what holds of all of them.
fn checked(list: Loaded) -> Loaded
    ensures same { result ≡ list }
    ensures few { length result ≤ package_limit }
    ensures small { file_bytes result ≤ file_limit }
    ensures objects { All IsObject (objects_of result) }
{
    let _ = list.bytes();
    let _ = list.packages();
    list
}

// How far loading has come between two waves: the loaded packages, the listed paths, and the imports of
// the packages, of which those before `compared` were compared before the last wave.
#[derive(Drop)]
struct Loading {
    names: PackagePaths,
    list: Loaded,
    refs: Vec<ImportRef>,
    compared: usize,
}

// Loads one wave after the packages that are loaded, and lists the next.
fn one_wave<R: Threads + Sync, F: Files>(
    rt: &R,
    alloc: Global,
    loader: Loader<'_>,
    loading: Loading,
    files: &mut F,
) -> Result<Loading, Fault<Cause>>
    requires { IsLoading (inputs_by loader) (F.state files.old).contents loading }
    ensures ok { IfOk result
        (IsWaveOf (inputs_by loader.entry) (F.state files.old).contents loading) }
    ensures same { OnOk result (FilesUnchanged (F.state files.old) (F.state files.new)) }
    ensures err { IfErr result
        (RefusesLoad (F.state files.old) (F.state files.new) (inputs_by loader.entry)) }
{
    let Loading {
        mut names,
        list,
        mut refs,
        compared,
    } = loading;
    let earlier = list.packages() as usize;
    let known = refs.len();
    let now = load_files(rt, alloc, loader, &names, list, files)?;
    add_imports(&now, &mut refs, earlier)?;
    let wave = WaveImports {
        list: &now,
        names: &names,
        config: loader.config,
        refs: &refs,
        compared,
        known,
        earlier,
    };
    match import_refusal(alloc, wave)? {
        Some(refusal) => return Err(Fault::Bad(refusal)),
        None => {}
    }
    queue_imports(alloc, &now, &mut names, &refs, known)?;
    Ok(Loading {
        names,
        list: now,
        refs,
        compared: known,
    })
}

/// Loads the main file under the path `main`, the package `runtime` where it is listed, and what
/// packages import, wave by wave, or answers the first refusal.
///
/// The first wave is the main file and `runtime`; each further one is what the packages of the wave
/// before import, each once and in order, without `unsafe` and without those already listed. Of a
/// wave first all files are read, then all formats are checked, then fingerprints are compared, then
/// each import has to be loaded or listed. Files have at most 2^30 bytes together, and there are at
/// most 65,536 packages, which are counted as a wave is listed. Files change nothing.
pub fn load_waves<R: Threads + Sync, F: Files>(
    rt: &R,
    alloc: Global,
    main: &str,
    config: &Config,
    files: &mut F,
) -> Result<Loaded, Fault<Cause>>
    ensures loads { let inputs = inputs_of main.now config.now in
        LoadAnswer (F.state files.old) (F.state files.new) inputs result }
    ensures objects { IfOk result (λ loaded. All IsObject (objects_of loaded)) }
    ensures few { IfOk result (λ loaded. length loaded ≤ package_limit) }
    ensures small { IfOk result (λ loaded. file_bytes loaded ≤ file_limit) }
{
    let loader = Loader { main, config };
    let mut loading = Loading {
        names: first_names(alloc, config)?,
        list: Loaded::new(alloc),
        refs: Vec::new(alloc),
        compared: 0,
    };
    'waves: loop {
        loading = one_wave(rt, alloc, loader, loading, files)?;
        if loading.names.len() == loading.list.packages() as usize {
            let Loading {
                names: _,
                list,
                refs: _,
                compared: _,
            } = loading;
            return Ok(checked(list));
        }
        if loading.names.len() > PACKAGE_LIMIT {
            return Err(Fault::Bad(Cause::TooLarge {
                limit: Limit::Packages,
                number: loading.names.len() as u64,
            }));
        }
    }
}
