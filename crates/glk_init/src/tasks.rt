// The init tasks that are reached from a root.
ghost use Rattle.std.specs.Prelude.{◌≡◌, ◌<◌, ◌≤◌, ℕ, None, IfOk, IfErr, OnOk, IfSome, IfNone, IsTrue, length};
ghost use Rattle.std.specs.List.{All, Contains, find};
ghost use Rattle.glk_base.specs.declared.fault.Fault.TheVariants as fault;
ghost use Rattle.glk_init.specs.Graph.{IsWithin};
ghost use Rattle.glk_init.specs.Tasks.{is_undefined, is_undefined_target, undefined_edge, AreTasks, IsFirstUndefined, IsTask, IsWhole};
ghost use Rattle.glk_init.specs.Reached.{IsEarlier, IsFirstAmong, IsTasksFault, TakesIn};

use crate::program::{InitEdge, InitProgram};
use crate::reached::reached_keys;
use glk_base::{Fault, OutOfMemory};
use std::alloc::Global;

/// A task waits for what has no definition.
#[derive(Clone, Copy, Debug, PartialEq, Eq)]
pub struct UndefinedTarget {
    /// The task: of those that do the one of least load position.
    pub task: u32,
    /// The first of its relocations whose target has no definition.
    pub relocation: u32,
}

// Whether a target has no definition.
fn is_missing<P: InitProgram>(program: &P, target: Option<u32>) -> bool
    requires { IsWithin (P.graph program.now).keys (record { relocation = 0; target = target }) }
    ensures { result ≡ is_undefined_target (P.graph program.now) target }
{
    match target {
        Some(key) => !program.is_defined(key),
        None => true,
    }
}

// The first of some relocations whose target has no definition.
fn first_missing<P: InitProgram>(program: &P, edges: &[InitEdge]) -> Option<InitEdge>
    requires { All (IsWithin (P.graph program.now).keys) edges.now }
    ensures { result ≡ find (is_undefined (P.graph program.now)) edges.now }
{
    for edge in edges {
        if is_missing(program, edge.target) {
            return Some(*edge);
        }
    }
    None
}

// The first of a task's relocations whose target has no definition.
fn missing_of<P: InitProgram>(
    program: &P,
    task: u32,
    edges: &mut Vec<InitEdge>,
) -> Result<Option<InitEdge>, OutOfMemory>
    requires { task < (P.graph program.now).keys }
    ensures { IfOk result (λ missing. missing ≡ undefined_edge (P.graph program.now) task) }
{
    program.edges(task, edges)?;
    Ok(first_missing(program, edges.as_slice()))
}

// Of two targets without a definition the one whose task is earlier in load order.
fn earlier<P: InitProgram>(
    program: &P,
    first: Option<UndefinedTarget>,
    second: UndefinedTarget,
) -> UndefinedTarget
    requires first { IfSome first (λ u. u.task < (P.graph program.now).keys) }
    requires second { second.task < (P.graph program.now).keys }
    ensures value { IsEarlier (P.graph program.now) first second result }
    ensures within { result.task < (P.graph program.now).keys }
{
    match first {
        Some(first) if program.position(first.task) <= program.position(second.task) => first,
        _ => second,
    }
}

// The first target without a definition, once one task more is looked at.
fn with_task<P: InitProgram>(
    program: &P,
    first: Option<UndefinedTarget>,
    task: u32,
    missing: Option<InitEdge>,
) -> Option<UndefinedTarget>
    requires first { IfSome first (λ u. u.task < (P.graph program.now).keys) }
    requires task { task < (P.graph program.now).keys }
    ensures value { TakesIn (P.graph program.now) first task missing result }
    ensures within { IfSome result (λ u. u.task < (P.graph program.now).keys) }
{
    match missing {
        None => first,
        Some(edge) => Some(earlier(
            program,
            first,
            UndefinedTarget {
                task,
                relocation: edge.relocation,
            },
        )),
    }
}

// The first target of some tasks without a definition, if there is one.
fn first_undefined<P: InitProgram>(
    alloc: Global,
    program: &P,
    tasks: &[u32],
) -> Result<Option<UndefinedTarget>, OutOfMemory>
    requires { All (λ k. k < (P.graph program.now).keys) tasks.now }
    ensures { IfOk result (IsFirstAmong (P.graph program.now) tasks.now) }
{
    let mut edges = Vec::new(alloc);
    let mut first = None;
    for task in tasks {
        let missing = missing_of(program, *task, &mut edges)?;
        first = with_task(program, first, *task, missing);
    }
    Ok(first)
}

/// The init tasks that are reached from a root, in the order of their keys: the root, where it has a
/// definition, and what a task waits for. The time is linear in their relocations; the memory is two
/// bytes a key and four a task.
///
/// # Errors
///
/// The first target without a definition: of the tasks by load position, of a task's relocations by
/// their order.
pub fn init_tasks<P: InitProgram>(
    alloc: Global,
    program: &P,
    root: u32,
) -> Result<Vec<u32>, Fault<UndefinedTarget>>
    requires { root < (P.graph program.now).keys }
    ensures tasks { IfOk result (λ tasks. AreTasks (P.graph program.now) root tasks.items) }
    ensures keys { IfOk result (λ tasks. All (λ k. k < (P.graph program.now).keys) tasks.items) }
    ensures whole { OnOk result ((k : ℕ) → IsTask (P.graph program.now) root k
        → IsWhole (P.graph program.now) k) }
    ensures undefined { IfErr result (IsTasksFault (P.graph program.now) root) }
{
    let tasks = reached_keys(alloc, program, root)?;
    match first_undefined(alloc, program, tasks.as_slice())? {
        None => Ok(tasks),
        Some(undefined) => Err(Fault::Bad(undefined)),
    }
}
