// The init lists of a program.
ghost use Rattle.std.specs.Prelude.{◌≡◌, IfOk};
ghost use Rattle.glk_cause.specs.Chain.{Answers, Checks};
ghost use Rattle.glk_init_lists.specs.Outputs.{scheduled_of};
ghost use Rattle.glk_init_lists.specs.Schedules.{HasDefinedTasks, HasOrder, IsInitListOf, IsScheduled};
ghost use Rattle.glk_tasks.specs.Lists.{root_key, AreTasksOf};
ghost use Rattle.glk_tasks.specs.Tasks.{init_graph};

use crate::refusals::{cycle_cause, undefined_cause};
use glk_arena::Loaded;
use glk_base::Fault;
use glk_cause::Cause;
use glk_keys::{MAIN_INIT_TASK, RUNTIME_INIT_TASK};
use glk_merge::Merged;
use std::alloc::Global;

/// The tasks that run before the main function, by their keys, in the order in which they run.
#[derive(Drop)]
pub struct InitLists {
    /// Those of the main package and of what it needs.
    pub main: Vec<u32>,
    /// Those of the runtime, which run before them.
    pub runtime: Vec<u32>,
}

// The tasks of a root.
fn defined_tasks(
    alloc: Global,
    merged: &Merged<'_>,
    loaded: &Loaded,
    root: &[u8],
) -> Result<Vec<u32>, Fault<Cause>>
    requires { loaded.now ≡ merged.now.program.world }
    ensures defined { Checks (HasDefinedTasks root.now) merged.now.program result }
    ensures tasks { IfOk result (λ tasks. AreTasksOf (init_graph merged.now.program)
        (root_key merged.now.program root.now) tasks.items) }
{
    match glk_tasks::tasks(alloc, merged, root) {
        Ok(tasks) => Ok(tasks),
        Err(Fault::Bad(undefined)) => Err(Fault::Bad(undefined_cause(
            alloc, merged, loaded, undefined,
        )?)),
        Err(Fault::OutOfMemory) => Err(Fault::OutOfMemory),
    }
}

// The init list of a root.
fn ordered_tasks(
    alloc: Global,
    merged: &Merged<'_>,
    root: &[u8],
    tasks: &[u32],
) -> Result<Vec<u32>, Fault<Cause>>
    requires { AreTasksOf (init_graph merged.now.program)
        (root_key merged.now.program root.now) tasks.now }
    ensures order { Checks (HasOrder root.now) merged.now.program result }
    ensures list { IfOk result (λ list. IsInitListOf root.now merged.now.program list.items) }
{
    match glk_tasks::schedule(alloc, merged, root, tasks) {
        Ok(list) => Ok(list),
        Err(Fault::Bad(cycle)) => Err(Fault::Bad(cycle_cause(alloc, merged, cycle)?)),
        Err(Fault::OutOfMemory) => Err(Fault::OutOfMemory),
    }
}

/// The init lists of a program: of each root the tasks that are reached from it by INITORDER relocations,
/// each after those that it waits for, of those that are ready the least by name and then by load position;
/// tasks of at most eight bytes are left out. The packages are those that the program was merged of. The
/// time is that of a sort of the tasks by name, and linear in their relocations.
///
/// # Errors
/// `Undefined` where a task waits for what has no definition, of the main package's tasks first, then of
/// the runtime's; else `InitCycle` where a task waits for itself, in the same order; or out of memory.
pub fn schedule(
    alloc: Global,
    merged: &Merged<'_>,
    loaded: &Loaded,
) -> Result<InitLists, Fault<Cause>>
    requires { loaded.now ≡ merged.now.program.world }
    ensures { Answers (IsScheduled merged.now.program) (scheduled_of merged.now.program) result }
{
    let main_root = MAIN_INIT_TASK.as_bytes();
    let runtime_root = RUNTIME_INIT_TASK.as_bytes();
    let main_tasks = defined_tasks(alloc, merged, loaded, main_root)?;
    let runtime_tasks = defined_tasks(alloc, merged, loaded, runtime_root)?;
    let main = ordered_tasks(alloc, merged, main_root, main_tasks.as_slice())?;
    let runtime = ordered_tasks(alloc, merged, runtime_root, runtime_tasks.as_slice())?;
    Ok(InitLists { main, runtime })
}
