// The init tasks of a root that is given by its name, and their init list.
ghost use Rattle.std.specs.Prelude.{◌≡◌, IfOk, IfErr};
ghost use Rattle.glk_merge.specs.Accessors.{key_numbers};
ghost use Rattle.glk_merge.specs.Mergings.{IsSomeKey};
ghost use Rattle.glk_tasks.specs.Lists.{root_key, AreTasksOf, IsTasksFaultOf, IsListOf, IsOrderFaultOf};
ghost use Rattle.glk_tasks.specs.Tasks.{init_graph};

use crate::program::InitTasks;
use glk_base::{Fault, KeyId};
use glk_init::{InitCycle, UndefinedTarget, init_tasks};
use glk_merge::Merged;
use std::alloc::Global;

// An init task is a symbol of ABI0.
const ABI0: u16 = 0;

// The init tasks of a root, if there is one.
fn tasks_of(
    alloc: Global,
    merged: &Merged<'_>,
    root: Option<KeyId>,
) -> Result<Vec<u32>, Fault<UndefinedTarget>>
    requires { IsSomeKey merged.now.program (key_numbers root) }
    ensures tasks { IfOk result (λ tasks. AreTasksOf (init_graph merged.now.program)
        (key_numbers root) tasks.items) }
    ensures undefined { IfErr result (IsTasksFaultOf (init_graph merged.now.program) (key_numbers root)) }
{
    match root {
        Some(key) => init_tasks(alloc, &InitTasks { merged }, key.0),
        None => Ok(Vec::new(alloc)),
    }
}

/// The init tasks of a root, a symbol of ABI0 that is given by its name, by their keys, in the order of
/// these: the root, where it has a definition, and what a task waits for by INITORDER relocations. A name
/// that no row has is the root of none. The time is linear in the relocations of the tasks, and for a
/// root that the linker does not ask for by itself also in the rows; the memory is two bytes a row and
/// four a task.
///
/// # Errors
///
/// The first target without a definition: of the tasks by load position, of a task's relocations by
/// their order.
pub fn tasks(
    alloc: Global,
    merged: &Merged<'_>,
    root: &[u8],
) -> Result<Vec<u32>, Fault<UndefinedTarget>>
    ensures tasks { IfOk result (λ tasks. AreTasksOf (init_graph merged.now.program)
        (root_key merged.now.program root.now) tasks.items) }
    ensures undefined { IfErr result (IsTasksFaultOf (init_graph merged.now.program)
        (root_key merged.now.program root.now)) }
{
    tasks_of(alloc, merged, merged.find(root, ABI0))
}

// The init list of the tasks of a root, if there is one.
fn list_of(
    alloc: Global,
    merged: &Merged<'_>,
    root: Option<KeyId>,
    tasks: &[u32],
) -> Result<Vec<u32>, Fault<InitCycle>>
    requires root { IsSomeKey merged.now.program (key_numbers root) }
    requires tasks { AreTasksOf (init_graph merged.now.program) (key_numbers root) tasks.now }
    ensures list { IfOk result (λ list. IsListOf (init_graph merged.now.program)
        (key_numbers root) list.items) }
    ensures cycle { IfErr result (IsOrderFaultOf (init_graph merged.now.program) (key_numbers root)) }
{
    let keys = merged.rows();
    prove!(tasks.len() <= keys as usize);
    match root {
        Some(key) => glk_init::schedule(alloc, &InitTasks { merged }, key.0, tasks),
        None => Ok(Vec::new(alloc)),
    }
}

/// The init list of the tasks of a root: each after those that it waits for, of those that are ready
/// the least by name and then by load position; tasks of at most eight bytes, which have nothing to run,
/// are left out. The time is that of a sort by name, and linear in the edges; the memory is some 40
/// bytes a task and 12 an edge.
///
/// # Errors
///
/// The least task that waits for itself, where one does: then there is no order.
pub fn schedule(
    alloc: Global,
    merged: &Merged<'_>,
    root: &[u8],
    tasks: &[u32],
) -> Result<Vec<u32>, Fault<InitCycle>>
    requires { AreTasksOf (init_graph merged.now.program)
        (root_key merged.now.program root.now) tasks.now }
    ensures list { IfOk result (λ list. IsListOf (init_graph merged.now.program)
        (root_key merged.now.program root.now) list.items) }
    ensures cycle { IfErr result (IsOrderFaultOf (init_graph merged.now.program)
        (root_key merged.now.program root.now)) }
{
    list_of(alloc, merged, merged.find(root, ABI0), tasks)
}
