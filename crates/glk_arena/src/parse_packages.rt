// The objects of the files of a wave.
ghost use Rattle.std.specs.Prelude.{◌≡◌, ◌≤◌, ◌+◌, length, drop, Err, IfOk, IfErr, IfSome};
ghost use Rattle.std.specs.List.{sum_by};
ghost use Rattle.glk_package.specs.ObjectRules.{rules_view};
ghost use Rattle.glk_arena.specs.World.{file_bytes, package_limit};
ghost use Rattle.glk_base.specs.Limits.{file_limit};
ghost use Rattle.glk_arena.specs.Stored.{AreStored, IsWhole};
ghost use Rattle.glk_arena.specs.WaveFiles.{IsFoundUniform};
ghost use Rattle.glk_arena.specs.LoadParts.{inputs_by, AppendsWave, HoldsStored, RefusesFormats, IsFormatRefusal, IsPackageIn};
ghost use Rattle.glk_package.specs.PackageRefusal.{IsRefusedFor};

use crate::loaded::Loaded;
use crate::loader::Loader;
use crate::paths::PackagePaths;
use crate::read_files::file_of;
use crate::shared_rules::meets_rules;
use crate::stored::{LoadedPackage, StoredObjects};
use crate::wave_files::{WaveFile, stored_objects};
use glk_base::{Fault, Text};
use glk_cause::Cause;
use glk_package::{ObjectRules, package_refusal};
use std::alloc::Global;
use std::collections::VecDeque;

// What is stored of the objects of the file at this path. What was found of them before is used where
// it goes with what the rules ask.
fn parse_package(
    alloc: Global,
    rules: ObjectRules<'_>,
    path: &[u8],
    file: &[u8],
    found: Option<StoredObjects>,
) -> Result<StoredObjects, Fault<Cause>>
    requires short { length file.now ≤ file_limit }
    requires found { IfSome found (IsFoundUniform file.now) }
    ensures ok { IfOk result (HoldsStored (rules_view rules.entry) file.now) }
    ensures stored { IfOk result (λ kept. AreStored file.now kept.list.items) }
    ensures err { IfErr result (IsRefusedFor (IsFormatRefusal (rules_view rules.entry) file.now path.now)) }
{
    if let Some(found) = found {
        if meets_rules(rules, file, &found) {
            return Ok(found);
        }
    }
    match stored_objects(alloc, rules, file) {
        Ok(kept) => Ok(kept),
        Err(Fault::Bad(bad)) => Err(package_refusal(alloc, path, bad)),
        Err(Fault::OutOfMemory) => Err(Fault::OutOfMemory),
    }
}

// The package with this path, whose file is at that one.
fn load_package(
    alloc: Global,
    rules: ObjectRules<'_>,
    name: &[u8],
    path: &[u8],
    file: WaveFile,
) -> Result<LoadedPackage, Fault<Cause>>
    ensures ok { IfOk result (IsPackageIn (rules_view rules.entry) name.now file) }
    ensures whole { IfOk result IsWhole }
    ensures err { IfErr result (IsRefusedFor (IsFormatRefusal (rules_view rules.entry) file path.now)) }
{
    let name = Text::new(alloc, name)?;
    let (file, found) = file.into_parts();
    match parse_package(alloc, rules, path, file.as_bytes(), found) {
        Ok(kept) => Ok(LoadedPackage::new(name, file, kept)),
        Err(fault) => Err(fault),
    }
}

// The packages of a wave go after the earlier ones: those of the paths that are not loaded yet,
// whose files these are.
pub(crate) fn append_wave(
    alloc: Global,
    loader: Loader<'_>,
    names: &PackagePaths,
    earlier: Loaded,
    files: VecDeque<WaveFile>,
) -> Result<Loaded, Fault<Cause>>
    requires all { length earlier + length files.items ≡ length names.now }
    requires few { length names.now ≤ package_limit }
    requires small { file_bytes earlier + sum_by length files.items ≤ file_limit }
    ensures ok { IfOk result (AppendsWave (inputs_by loader.entry) earlier names.now files.items) }
    ensures err { IfErr result
        (RefusesFormats (inputs_by loader.entry) earlier names.now files.items) }
{
    let mut list = earlier;
    let mut rest = files;
    while let Some(file) = rest.pop_front() {
        let name = names.get(list.packages() as usize);
        let path = file_of(loader, name).as_bytes();
        match load_package(alloc, list.rules(), name, path, file) {
            Ok(package) => list = list.push(alloc, package)?,
            Err(fault) => return Err(fault),
        }
    }
    Ok(list)
}
