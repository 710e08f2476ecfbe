// What packages import, by the refs of the entries in which they say so.
ghost use Rattle.std.specs.Prelude.{◌≡◌, ◌<◌, ◌≤◌, ◌+◌, ◌++◌, ◌∷◌, [], length, take, OnOk};
ghost use Rattle.std.specs.Option.{option_map};
ghost use Rattle.glk_arena.specs.World.{paths_of};
ghost use Rattle.glk_arena.specs.Imports.{fingerprint_in, is_compared, is_set, is_unequal};
ghost use Rattle.glk_arena.specs.Waves.{first_uses, is_missing};
ghost use Rattle.glk_arena.specs.ConfigViews.{file_in};
ghost use Rattle.glk_arena.specs.LoadParts.{is_refused, unequal_import, missing_import, next_imports};
ghost use Rattle.glk_arena.specs.ImportRefs.{AreImportsOf, IsImportRef, import_by, import_view, refs_of_object};

use crate::config::Config;
use crate::loaded::Loaded;
use crate::paths::PackagePaths;
use glk_base::OutOfMemory;
use glk_obj::Block;
use std::alloc::Global;

// Where an import is: its package, the object there, and the entry of its block Autolib.
#[derive(Clone, Copy)]
pub(crate) struct ImportRef {
    owner: usize,
    object: usize,
    entry: u32,
}

// The imports of loaded packages as a wave is checked, whose packages are those after the first
// `earlier`: imports before `compared` were compared before, and those from `known` on are its own.
#[derive(Clone, Copy)]
pub(crate) struct WaveImports<'a> {
    pub list: &'a Loaded,
    pub names: &'a PackagePaths,
    pub config: &'a Config,
    pub refs: &'a [ImportRef],
    pub compared: usize,
    pub known: usize,
    pub earlier: usize,
}

// An import: who imports, what, and the fingerprint that it had when the importer was compiled.
#[derive(Clone, Copy)]
pub(crate) struct ImportEntry<'a> {
    pub importer: &'a [u8],
    pub imported: &'a [u8],
    pub wanted: [u8; 8],
}

// The import of a reference.
pub(crate) fn import_at(list: &Loaded, place: ImportRef) -> ImportEntry<'_>
    requires { IsImportRef list.now place }
    ensures { import_view result ≡ import_by list.now place }
{
    let package = list.package(place.owner);
    let object = package.object(place.object);
    let (imported, wanted) = object.autolib(place.entry);
    ImportEntry {
        importer: package.path(),
        imported,
        wanted,
    }
}

// The fingerprint of the package with this path, of loaded packages with these paths.
pub(crate) fn fingerprint_of(list: &Loaded, names: &PackagePaths, path: &[u8]) -> [u8; 8]
    requires { paths_of list.now ≡ names.now }
    ensures { result ≡ fingerprint_in list.now path.now }
{
    match names.position(path) {
        Some(p) => list.package(p).fingerprint(),
        None => [0; 8],
    }
}

// Whether an import is compared with the wave after the first `earlier` paths.
#[tactic(auto, unfolding(crate::specs::Imports::is_compared))]
fn is_compared_now(names: &PackagePaths, earlier: usize, import: ImportEntry<'_>) -> bool
    ensures { result ≡ is_compared (take earlier names.now) names.now (import_view import.entry) }
{
    if !names.has(import.imported) {
        return false;
    }
    if !names.has_before(import.importer, earlier) {
        return true;
    }
    !names.has_before(import.imported, earlier)
}

// Whether a fingerprint is not zero.
fn is_set(print: [u8; 8]) -> bool
    ensures { result ≡ is_set print }
{
    print != [0; 8]
}

// Whether an import wants another fingerprint than its package has, and neither is zero.
#[tactic(auto, unfolding(crate::specs::Imports::is_unequal))]
fn differs(list: &Loaded, names: &PackagePaths, import: ImportEntry<'_>) -> bool
    requires { paths_of list.now ≡ names.now }
    ensures { result ≡ is_unequal list.now (import_view import.entry) }
{
    let found = fingerprint_of(list, names, import.imported);
    if !is_set(import.wanted) {
        return false;
    }
    if !is_set(found) {
        return false;
    }
    import.wanted != found
}

// Whether an import is compared with the wave after the first `earlier` paths, and differs.
fn is_refused(list: &Loaded, names: &PackagePaths, earlier: usize, import: ImportEntry<'_>) -> bool
    requires { paths_of list.now ≡ names.now }
    ensures { result ≡ is_refused list.now names.now earlier (import_view import.entry) }
{
    if !is_compared_now(names, earlier, import) {
        return false;
    }
    differs(list, names, import)
}

// The first of the imports from `from` on that is compared with the wave after the first
// `earlier` paths, and differs.
pub(crate) fn first_unequal<'a>(
    list: &'a Loaded,
    names: &PackagePaths,
    refs: &[ImportRef],
    from: usize,
    earlier: usize,
) -> Option<ImportEntry<'a>>
    requires paths { paths_of list.now ≡ names.now }
    requires refs { AreImportsOf list.now list.now refs.now }
    requires from { from ≤ length refs.now }
    ensures { option_map import_view result ≡ unequal_import list.now names.now earlier from }
{
    for k in from..refs.len() {
        let import = import_at(list, refs[k]);
        if is_refused(list, names, earlier, import) {
            return Some(import);
        }
    }
    None
}

// Whether an import is neither `unsafe`, nor loaded, nor listed.
fn is_unresolved(names: &PackagePaths, config: &Config, import: ImportEntry<'_>) -> bool
    ensures { result ≡ is_missing (file_in config.now) names.now (import_view import.entry) }
{
    if names.knows(import.imported) {
        return false;
    }
    match config.file_of(import.imported) {
        Some(_) => false,
        None => true,
    }
}

// The first of the imports from `from` on that is neither `unsafe`, nor loaded, nor listed.
pub(crate) fn first_missing<'a>(
    list: &'a Loaded,
    names: &PackagePaths,
    config: &Config,
    refs: &[ImportRef],
    from: usize,
) -> Option<ImportEntry<'a>>
    requires refs { AreImportsOf list.now list.now refs.now }
    requires from { from ≤ length refs.now }
    ensures { option_map import_view result ≡ missing_import list.now (file_in config.now) names.now from }
{
    for k in from..refs.len() {
        let import = import_at(list, refs[k]);
        if is_unresolved(names, config, import) {
            return Some(import);
        }
    }
    None
}

// Lists a path, unless it asks for no further package.
fn queue_path(alloc: Global, names: &mut PackagePaths, path: &[u8]) -> Result<(), OutOfMemory>
    ensures { OnOk result (names.new ≡ names.old ++ first_uses names.old (path.now ∷ [])) }
{
    if names.knows(path) {
        return Ok(());
    }
    names.push(alloc, path)?;
    Ok(())
}

// Lists what the imports from `from` on ask for further.
pub(crate) fn queue_imports(
    alloc: Global,
    list: &Loaded,
    names: &mut PackagePaths,
    refs: &[ImportRef],
    from: usize,
) -> Result<(), OutOfMemory>
    requires refs { AreImportsOf list.now list.now refs.now }
    requires from { from ≤ length refs.now }
    ensures { OnOk result (names.new ≡ names.old ++ next_imports names.old list.now from) }
{
    for k in from..refs.len() {
        let import = import_at(list, refs[k]);
        queue_path(alloc, names, import.imported)?;
    }
    Ok(())
}

// Adds the refs of the imports of an object.
fn add_object(
    refs: &mut Vec<ImportRef>,
    owner: usize,
    object: usize,
    entries: u32,
) -> Result<(), OutOfMemory>
    ensures { OnOk result (refs.new.items ≡ refs.old.items ++ refs_of_object owner object entries) }
{
    for entry in 0..entries {
        refs.push(ImportRef {
            owner,
            object,
            entry,
        })?;
    }
    Ok(())
}

// Adds the refs of the imports of package `p`.
fn add_package(list: &Loaded, refs: &mut Vec<ImportRef>, p: usize) -> Result<(), OutOfMemory>
    requires package { p < length list.now }
    requires refs { AreImportsOf list.now (take p list.now) refs.old.items }
    ensures { OnOk result (AreImportsOf list.now (take (p + 1) list.now) refs.new.items) }
{
    let package = list.package(p);
    for object in 0..package.objects() {
        let entries = package.object(object).count(Block::Autolib);
        add_object(refs, p, object, entries)?;
    }
    Ok(())
}

// Adds the refs of the imports of the packages from `from` on.
pub(crate) fn add_imports(
    list: &Loaded,
    refs: &mut Vec<ImportRef>,
    from: usize,
) -> Result<(), OutOfMemory>
    requires from { from ≤ length list.now }
    requires refs { AreImportsOf list.now (take from list.now) refs.old.items }
    ensures { OnOk result (AreImportsOf list.now list.now refs.new.items) }
{
    for p in from..list.packages() as usize {
        add_package(list, refs, p)?;
    }
    Ok(())
}
