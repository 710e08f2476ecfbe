// The names of keys, and of what references mean.
ghost use Rattle.std.specs.Prelude.{◌≡◌, ◌<◌, length, IfOk};
ghost use Rattle.glk_arena.specs.World.{objects_of};
ghost use Rattle.glk_keys.specs.Names.{is_entry as is_entry_of, is_special as is_special_number, key_name as key_name_of, missing_name as missing_name_of, package_name as package_name_of, target_name as target_name_of};
ghost use Rattle.glk_merge.specs.Mergings.{IsKey, IsTargetKey};

use glk_arena::Loaded;
use glk_base::{KeyId, ObjId, OutOfMemory, SymId, Text};
use glk_keys::Target;
use glk_merge::Merged;
use glk_obj::{
    BUILTIN_PACKAGE, Block, HASHED_PACKAGE, HASHED64_PACKAGE, NIL_PACKAGE, NONE_PACKAGE,
    SELF_PACKAGE,
};
use itoa::Buffer;
use std::alloc::Global;

/// The name of a key: that of its chosen definition, else that of the reference that the key is. It is
/// empty where the symbol has no name.
#[tactic(auto, unfolding(glk_keys::specs::Names::key_name))]
pub fn key_name<'a>(merged: &Merged<'a>, key: KeyId) -> &'a [u8]
    requires { IsKey merged.now.program key.0 }
    ensures { result.now ≡ key_name_of merged.now.program key.0 }
{
    match merged.chosen(key) {
        Some(id) => merged.row(id).name,
        None => merged.row(SymId(key.0)).name,
    }
}

// Whether a package number is none of an entry of an object's list of packages.
fn is_special(pkg: u32) -> bool
    ensures { result ≡ is_special_number pkg }
{
    pkg == NIL_PACKAGE
        || pkg == NONE_PACKAGE
        || pkg == HASHED64_PACKAGE
        || pkg == HASHED_PACKAGE
        || pkg == BUILTIN_PACKAGE
        || pkg == SELF_PACKAGE
}

// Whether an object's list of packages has an entry with this number.
fn is_entry(merged: &Merged<'_>, o: ObjId, pkg: u32) -> bool
    requires { o.0 < length (objects_of merged.now.program.world) }
    ensures { result ≡ is_entry_of merged.now.program o.0 pkg }
{
    !is_special(pkg) && pkg < merged.object(o).count(Block::PkgIdx)
}

// The name of the package of a missing target: of an entry of the object's list the path of the package
// that it means where that is loaded, else its spelling.
#[tactic(auto, unfolding(glk_keys::specs::Names::package_name, glk_keys::specs::Targets::package_of_entry))]
fn package_name<'a>(merged: &Merged<'a>, loaded: &'a Loaded, o: ObjId, pkg: u32) -> &'a [u8]
    requires world { loaded.now ≡ merged.now.program.world }
    requires object { o.0 < length (objects_of merged.now.program.world) }
    ensures { result.now ≡ package_name_of merged.now.program o.0 pkg }
{
    if pkg == BUILTIN_PACKAGE {
        return b"builtin";
    }
    if !is_entry(merged, o, pkg) {
        return &[];
    }
    let spelling = merged.object(o).pkg(pkg);
    match loaded.find_package(spelling) {
        Some(q) => loaded.path(q),
        None => spelling,
    }
}

// The name of a missing target of an object: its package, and its index there.
fn missing_name(
    alloc: Global,
    merged: &Merged<'_>,
    loaded: &Loaded,
    o: ObjId,
    pkg: u32,
    index: u32,
) -> Result<Text, OutOfMemory>
    requires world { loaded.now ≡ merged.now.program.world }
    requires object { o.0 < length (objects_of merged.now.program.world) }
    ensures { IfOk result (λ name. name ≡ missing_name_of merged.now.program o.0 pkg index) }
{
    let mut name = Vec::from_slice(alloc, package_name(merged, loaded, o, pkg))?;
    name.push(b'#')?;
    let mut buffer = Buffer::new();
    name.extend_from_slice(buffer.format(index).as_bytes())?;
    Ok(Text::of(name))
}

/// The name of what a reference in an object means: that of its key; of a target that no loaded object has
/// the name of its package, `#` and its index there; and an empty one of a reference to nothing.
///
/// # Errors
/// Out of memory.
#[tactic(auto, unfolding(glk_keys::specs::Names::target_name))]
pub fn target_name(
    alloc: Global,
    merged: &Merged<'_>,
    loaded: &Loaded,
    o: ObjId,
    target: Target,
) -> Result<Text, OutOfMemory>
    requires world { loaded.now ≡ merged.now.program.world }
    requires object { o.0 < length (objects_of merged.now.program.world) }
    requires target { IsTargetKey merged.now.program target }
    ensures { IfOk result (λ name. name ≡ target_name_of merged.now.program o.0 target) }
{
    match target {
        Target::Nothing => Ok(Text::of(Vec::new(alloc))),
        Target::Key(key) => Text::new(alloc, key_name(merged, key)),
        Target::Missing { pkg, index } => missing_name(alloc, merged, loaded, o, pkg, index),
    }
}
