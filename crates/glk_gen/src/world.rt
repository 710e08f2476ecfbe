// A world: its import configuration and its package files.
ghost use Rattle.std.specs.Prelude.{◌≡◌, ◌+◌, ◌<◌, ◌≤◌, ◌^◌, ◌∷◌, IfOk, length, map, codes};
ghost use Rattle.glk_objdesc.specs.Canonical.{object_bytes};
ghost use Rattle.glk_base.specs.Limits.{function_limit};
ghost use Rattle.glk_gen.specs.Packages.{package_count};
ghost use Rattle.glk_gen.specs.Configs.{importcfg_of};
ghost use Rattle.glk_gen.specs.Worlds.{archive_of, main_archive, package_archive, archives_of, object_bound, world_of};

use crate::calls::Calls;
use crate::names::{package_file, push_config_line};
use crate::objects::{main_package, package};
use glk_ar::one_member;
use glk_base::{Fault, OutOfMemory, Seq, StrText, Text};
use glk_objdesc::{ObjDesc, write_object};
use std::alloc::Global;

/// How many functions a package has, where the functions do not end before.
pub(crate) const PACKAGE_SIZE: u32 = 64;

// The path of the main package's file.
const MAIN_FILE: &str = "main.a";

/// A world: what a linker is given.
#[derive(Debug, Drop)]
pub struct World {
    /// The import configuration: the file of each package but the main one.
    pub importcfg: Text,
    /// The package files by their paths; the first is the main package's.
    pub archives: Seq<(StrText, Text)>,
}

/// How many packages a world of n functions has beside the main one.
pub(crate) fn package_count(n: u32) -> u32
    requires { n ≤ function_limit }
    ensures { result ≡ package_count n }
{
    n.div_ceil(PACKAGE_SIZE)
}

// The import configuration of a world of n functions.
#[tactic(auto, unfolding(crate::specs::Configs::importcfg_of))]
fn importcfg(alloc: Global, n: u32) -> Result<Text, OutOfMemory>
    requires { n ≤ function_limit }
    ensures { IfOk result (λ text. text ≡ importcfg_of n) }
{
    let mut out = Vec::new(alloc);
    for k in 0..package_count(n) {
        push_config_line(alloc, &mut out, k)?;
    }
    Ok(Text::of(out))
}

// The package file of an object.
fn archive(alloc: Global, object: &ObjDesc) -> Result<Text, OutOfMemory>
    requires { length (object_bytes object.now) ≤ object_bound }
    ensures { IfOk result (λ archive. archive ≡ archive_of object.now) }
{
    let bytes = match write_object(alloc, object) {
        Ok(bytes) => bytes,
        Err(Fault::Bad(_)) => unreachable!(),
        Err(Fault::OutOfMemory) => return Err(OutOfMemory),
    };
    match one_member(alloc, &bytes) {
        Ok(archive) => Ok(Text::of(archive)),
        Err(Fault::Bad(_)) => unreachable!(),
        Err(Fault::OutOfMemory) => Err(OutOfMemory),
    }
}

// The main package's file.
fn main_archive(alloc: Global, n: u32) -> Result<(StrText, Text), OutOfMemory>
    requires { n ≤ function_limit }
    ensures { IfOk result (λ file. file ≡ main_archive n) }
{
    let path = StrText::of(String::from_str(alloc, MAIN_FILE)?);
    let object = main_package(alloc, n)?;
    Ok((path, archive(alloc, &object)?))
}

// The file of package k.
fn package_archive(alloc: Global, calls: &Calls, k: u32) -> Result<(StrText, Text), OutOfMemory>
    requires { k < package_count calls.now.functions }
    ensures { IfOk result (λ file. file ≡ package_archive calls.now.seed calls.now.functions k) }
{
    let path = package_file(alloc, k)?;
    let object = package(alloc, calls, k)?;
    Ok((path, archive(alloc, &object)?))
}

// All package files of a world.
#[tactic(auto, unfolding(crate::specs::Worlds::archives_of))]
fn archives(alloc: Global, calls: &Calls) -> Result<Vec<(StrText, Text)>, OutOfMemory>
    ensures { IfOk result (λ archives. archives.items ≡ archives_of calls.now.seed calls.now.functions) }
{
    let n = calls.functions;
    let count = package_count(n);
    let mut archives = Vec::with_capacity(alloc, count as usize + 1)?;
    archives.push(main_archive(alloc, n)?)?;
    for k in 0..count {
        archives.push(package_archive(alloc, calls, k)?)?;
    }
    Ok(archives)
}

/// The world of a seed with `n` functions, 1 to `FUNCTION_LIMIT`, in packages of 64. Each function
/// calls two that are drawn from the seed, and the main package's entry calls function 0. A function
/// takes about 175 bytes of package file, and the time is linear in `n`.
///
/// # Errors
/// Only out of memory.
pub fn gen_world(alloc: Global, seed: u64, n: u32) -> Result<World, OutOfMemory>
    requires some { 1 ≤ n }
    requires few { n ≤ function_limit }
    ensures { IfOk result (λ world. world ≡ world_of seed n) }
{
    let calls = Calls::draw(alloc, seed, n)?;
    let archives = archives(alloc, &calls)?;
    Ok(World {
        importcfg: importcfg(alloc, n)?,
        archives: Seq::new(archives),
    })
}
