// The roots of what is kept.
ghost use Rattle.std.specs.Prelude.{◌≡◌, ◌<◌, ◌++◌, Some, OnOk, IfOk};
ghost use Rattle.std.specs.List.{All};
ghost use Rattle.glk_effects.specs.Roots.{some_list};
ghost use Rattle.glk_keys.specs.Rows.{row_count};
ghost use Rattle.glk_merge.specs.Mergings.{IsRow};
ghost use Rattle.glk_reach.specs.Graphs.{find_defined, stand_in as stand_in_of, entry_keys as entry_keys_of, roots_of};

use crate::entry::entry_name;
use glk_base::OutOfMemory;
use glk_keys::{MAP_INIT_NOOP, UNREACHABLE_METHOD};
use glk_merge::Merged;
use glk_reach::is_defined;
use std::alloc::Global;

const ABI0: u16 = 0;

const ABI_INTERNAL: u16 = 1;

// The key of a name with an ABI, where it has a definition.
fn defined_key(merged: &Merged<'_>, name: &[u8], abi: u16) -> Option<u32>
    ensures value { result ≡ find_defined merged.now.program name.now abi }
    ensures within { IsRow merged.now.program result }
{
    let key = merged.find(name, abi)?;
    if !is_defined(merged, key.0) {
        return None;
    }
    Some(key.0)
}

/// What stands for a symbol that is not kept, by its name: the one with the internal ABI where that has
/// a definition, else the one of ABI0.
#[tactic(auto, unfolding(glk_reach::specs::Graphs::stand_in))]
pub fn stand_in(merged: &Merged<'_>, name: &[u8]) -> Option<u32>
    ensures value { result ≡ stand_in_of merged.now.program name.now }
    ensures within { IsRow merged.now.program result }
{
    match defined_key(merged, name, ABI_INTERNAL) {
        Some(key) => Some(key),
        None => defined_key(merged, name, ABI0),
    }
}

// Adds a root, where there is one.
fn push_root(roots: &mut Vec<u32>, root: Option<u32>) -> Result<(), OutOfMemory>
    ensures { OnOk result (roots.new.items ≡ roots.old.items ++ some_list root) }
{
    match root {
        Some(key) => roots.push(key)?,
        None => {}
    }
    Ok(())
}

/// The entry in both ABIs, where it has a definition.
///
/// # Errors
/// Out of memory.
#[tactic(auto, unfolding(glk_reach::specs::Graphs::entry_keys))]
pub fn entry_keys(alloc: Global, merged: &Merged<'_>) -> Result<Vec<u32>, OutOfMemory>
    ensures { IfOk result (λ keys. keys.items ≡ entry_keys_of merged.now.program) }
{
    let entry = entry_name(merged);
    let mut keys = Vec::new(alloc);
    push_root(&mut keys, defined_key(merged, entry, ABI0))?;
    push_root(&mut keys, defined_key(merged, entry, ABI_INTERNAL))?;
    Ok(keys)
}

// The roots: the entry, the two stand-ins, and the init tasks.
#[tactic(auto, unfolding(glk_reach::specs::Graphs::roots_of))]
pub(crate) fn roots(
    alloc: Global,
    merged: &Merged<'_>,
    tasks: &[u32],
) -> Result<Vec<u32>, OutOfMemory>
    ensures { IfOk result (λ keys. keys.items ≡ roots_of merged.now.program tasks.now) }
{
    let mut keys = entry_keys(alloc, merged)?;
    push_root(&mut keys, stand_in(merged, UNREACHABLE_METHOD.as_bytes()))?;
    push_root(&mut keys, stand_in(merged, MAP_INIT_NOOP.as_bytes()))?;
    keys.extend_from_slice(tasks)?;
    Ok(keys)
}
