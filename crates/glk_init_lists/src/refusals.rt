// The refusals of init order.
ghost use Rattle.std.specs.Prelude.{◌≡◌, ◌<◌, length, IfOk, IfSome};
ghost use Rattle.glk_keys.specs.Relocations.{relocs_of};
ghost use Rattle.glk_init_lists.specs.Refusals.{awaited_name as awaited_name_of, cycle_refusal, undefined_refusal};
ghost use Rattle.glk_merge.specs.Mergings.{IsKey};
ghost use Rattle.glk_reach.specs.Chosen.{definition_row};

use glk_arena::Loaded;
use glk_base::{KeyId, OutOfMemory, Text};
use glk_cause::Cause;
use glk_init::{InitCycle, UndefinedTarget};
use glk_merge::Merged;
use glk_names::{key_name, target_name};
use glk_reach::definition;
use std::alloc::Global;

// The name of what a task waits for.
fn awaited_name(
    alloc: Global,
    merged: &Merged<'_>,
    loaded: &Loaded,
    undefined: UndefinedTarget,
) -> Result<Text, OutOfMemory>
    requires world { loaded.now ≡ merged.now.program.world }
    requires task { IsKey merged.now.program undefined.task }
    requires relocation { IfSome (definition_row merged.now.program undefined.task)
        (λ r. undefined.relocation < length (relocs_of merged.now.program r)) }
    ensures { IfOk result (λ name. name ≡ awaited_name_of merged.now.program undefined) }
{
    match definition(merged, undefined.task) {
        Some(id) => {
            let (o, _) = merged.owner(id);
            target_name(
                alloc,
                merged,
                loaded,
                o,
                merged.reloc_target(id, undefined.relocation),
            )
        }
        None => Ok(Text::of(Vec::new(alloc))),
    }
}

// The refusal of a task that waits for what has no definition.
pub(crate) fn undefined_cause(
    alloc: Global,
    merged: &Merged<'_>,
    loaded: &Loaded,
    undefined: UndefinedTarget,
) -> Result<Cause, OutOfMemory>
    requires world { loaded.now ≡ merged.now.program.world }
    requires task { IsKey merged.now.program undefined.task }
    requires relocation { IfSome (definition_row merged.now.program undefined.task)
        (λ r. undefined.relocation < length (relocs_of merged.now.program r)) }
    ensures { IfOk result (λ refusal. refusal ≡ undefined_refusal merged.now.program undefined) }
{
    let from = Text::new(alloc, key_name(merged, KeyId(undefined.task)))?;
    let name = awaited_name(alloc, merged, loaded, undefined)?;
    Ok(Cause::Undefined { from, name })
}

// The refusal of a task that waits for itself.
pub(crate) fn cycle_cause(
    alloc: Global,
    merged: &Merged<'_>,
    cycle: InitCycle,
) -> Result<Cause, OutOfMemory>
    requires { IsKey merged.now.program cycle.task }
    ensures { IfOk result (λ refusal. refusal ≡ cycle_refusal merged.now.program cycle) }
{
    let name = Text::new(alloc, key_name(merged, KeyId(cycle.task)))?;
    Ok(Cause::InitCycle { name })
}
