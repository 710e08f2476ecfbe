// The objects of a world.
ghost use Rattle.std.specs.Prelude.{◌≡◌, ◌+◌, ◌*◌, ◌<◌, ◌≤◌, ◌^◌, IfOk, length, map};
ghost use Rattle.glk_gen.specs.Packages.{package_count, function_count, package_path, packages, functions};
ghost use Rattle.glk_base.specs.Limits.{function_limit};
ghost use Rattle.glk_gen.specs.Calls.{imports};
ghost use Rattle.glk_gen.specs.Objects.{object_with, function_of, package_object, autolib_of, main_object};

use crate::calls::{CALLS_EACH, Calls};
use crate::functions::{data, entry, function};
use crate::imports::imports;
use crate::names::package_path;
use crate::world::{PACKAGE_SIZE, package_count};
use glk_base::{OutOfMemory, Seq, Text};
use glk_objdesc::{AutolibDesc, DefDesc, ObjDesc};
use std::alloc::Global;

// The fingerprint of all packages.
const NO_FINGERPRINT: [u8; 8] = [0; 8];

// The paths of packages.
fn paths(alloc: Global, packages: &[u32]) -> Result<Vec<Text>, OutOfMemory>
    ensures { IfOk result (λ paths. paths.items ≡ map package_path packages.now) }
{
    let mut paths = Vec::with_capacity(alloc, packages.len())?;
    for package in packages {
        paths.push(package_path(alloc, *package)?)?;
    }
    Ok(paths)
}

// How many functions package k has, of a world of n functions.
fn function_count(n: u32, k: u32) -> u32
    requires { k < package_count n }
    ensures { result ≡ function_count n k }
{
    PACKAGE_SIZE.min(n - PACKAGE_SIZE * k)
}

// The packages that the functions of package k call into.
#[tactic(auto, unfolding(crate::specs::Calls::imports))]
fn imports_of(alloc: Global, calls: &Calls, k: u32) -> Result<Vec<u32>, OutOfMemory>
    requires { k < package_count calls.now.functions }
    ensures value { IfOk result (λ used. used.items ≡ imports calls.now.seed calls.now.functions k) }
    ensures few { IfOk result (λ used. length used.items ≤ 128) }
{
    let first = PACKAGE_SIZE * k;
    let count = function_count(calls.functions, k);
    imports(
        alloc,
        k,
        calls.callees(CALLS_EACH * first, CALLS_EACH * count),
    )
}

// The functions of package k.
fn functions(
    alloc: Global,
    calls: &Calls,
    k: u32,
    imported: &[u32],
) -> Result<Vec<DefDesc>, OutOfMemory>
    requires inside { k < package_count calls.now.functions }
    requires imported { imported.now ≡ imports calls.now.seed calls.now.functions k }
    requires few { length imported.now < 2 ^ 31 }
    ensures { IfOk result (λ defs. defs.items
        ≡ map (function_of calls.now.seed calls.now.functions k) (functions calls.now.functions k)) }
{
    let first = PACKAGE_SIZE * k;
    let count = function_count(calls.functions, k);
    let mut defs = Vec::with_capacity(alloc, count as usize)?;
    for i in 0..count {
        defs.push(function(alloc, calls, k, imported, first + i)?)?;
    }
    Ok(defs)
}

// An object that was compiled against these packages, and has these in PkgIdx, and these definitions.
fn object_with(
    alloc: Global,
    autolib: Vec<AutolibDesc>,
    pkgs: Vec<Text>,
    defs: Vec<DefDesc>,
    ndefs: Vec<DefDesc>,
) -> ObjDesc
    ensures { result ≡ object_with autolib.items pkgs.items defs.items ndefs.items }
{
    ObjDesc {
        flags: 0,
        fingerprint: NO_FINGERPRINT,
        autolib: Seq::new(autolib),
        pkgs: Seq::new(pkgs),
        files: Seq::new(Vec::new(alloc)),
        defs: Seq::new(defs),
        hash64: Seq::new(Vec::new(alloc)),
        hashed: Seq::new(Vec::new(alloc)),
        ndefs: Seq::new(ndefs),
        refs: Seq::new(Vec::new(alloc)),
        ref_flags: Seq::new(Vec::new(alloc)),
        ref_names: Seq::new(Vec::new(alloc)),
    }
}

/// Package k.
#[tactic(auto, unfolding(crate::specs::Objects::package_object))]
pub(crate) fn package(alloc: Global, calls: &Calls, k: u32) -> Result<ObjDesc, OutOfMemory>
    requires { k < package_count calls.now.functions }
    ensures { IfOk result (λ object. object ≡ package_object calls.now.seed calls.now.functions k) }
{
    let imported = imports_of(alloc, calls, k)?;
    let pkgs = paths(alloc, &imported)?;
    let defs = functions(alloc, calls, k, &imported)?;
    let ndefs = vec![in alloc; data(alloc, k)?]?;
    Ok(object_with(alloc, Vec::new(alloc), pkgs, defs, ndefs))
}

// The packages that the main package was compiled against, of a world of n functions.
fn autolib(alloc: Global, n: u32) -> Result<Vec<AutolibDesc>, OutOfMemory>
    requires { n ≤ function_limit }
    ensures { IfOk result (λ autolib. autolib.items ≡ map autolib_of (packages n)) }
{
    let count = package_count(n);
    let mut autolib = Vec::with_capacity(alloc, count as usize)?;
    for k in 0..count {
        autolib.push(AutolibDesc {
            path: package_path(alloc, k)?,
            fingerprint: NO_FINGERPRINT,
        })?;
    }
    Ok(autolib)
}

/// The main package of a world of n functions.
#[tactic(auto, unfolding(crate::specs::Objects::main_object))]
pub(crate) fn main_package(alloc: Global, n: u32) -> Result<ObjDesc, OutOfMemory>
    requires { n ≤ function_limit }
    ensures { IfOk result (λ object. object ≡ main_object n) }
{
    let autolib = autolib(alloc, n)?;
    let pkgs = vec![in alloc; package_path(alloc, 0)?]?;
    let defs = vec![in alloc; entry(alloc)?]?;
    Ok(object_with(alloc, autolib, pkgs, defs, Vec::new(alloc)))
}
