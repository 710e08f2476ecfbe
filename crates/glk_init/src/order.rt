// The order of init tasks.
ghost use Rattle.std.specs.Prelude.{◌≡◌, ◌<◌, ◌^◌, ℕ, IfOk, IfErr, OnOk, length, map, slice_index};
ghost use Rattle.std.specs.List.{All, filter};
ghost use Rattle.glk_init.specs.Order.{has_functions, IsInitList, IsOnCycle};
ghost use Rattle.glk_init.specs.Ranks.{IsOrderFault, IsRankFault, fault_of_rank};
ghost use Rattle.glk_init.specs.Tasks.{AreTasks, IsTask, IsWhole};

use crate::program::InitProgram;
use crate::ranks::{ranked_edges, ranked_tasks};
use glk_base::{Fault, OutOfMemory};
use glk_order::Cycle;
use std::alloc::Global;

// A task of at most this many bytes has nothing to run.
const HEADER_SIZE: u32 = 8;

/// Tasks wait for each other.
#[derive(Clone, Copy, Debug, PartialEq, Eq)]
pub struct InitCycle {
    /// A task that waits for itself along one or more edges: the least of them by name, and then by
    /// load position.
    pub task: u32,
}

// Those of some tasks that have something to run, by their ranks.
fn list_tasks<P: InitProgram>(
    alloc: Global,
    program: &P,
    ranked: &[u32],
    order: &[u32],
) -> Result<Vec<u32>, OutOfMemory>
    requires keys { All (λ k. k < (P.graph program.now).keys) ranked.now }
    requires inside { All (λ rank. rank < length ranked.now) order.now }
    ensures { IfOk result (λ list. list.items
        ≡ filter (has_functions (P.graph program.now)) (map (slice_index ranked.now) order.now)) }
{
    let mut list = Vec::new(alloc);
    for rank in order {
        let task = ranked[*rank as usize];
        if program.size(task) > HEADER_SIZE {
            list.push(task)?;
        }
    }
    Ok(list)
}

// The fault of tasks that a fault of their ranks is.
fn task_fault(ranked: &[u32], why: Fault<Cycle>) -> Fault<InitCycle>
    requires { IsRankFault (length ranked.now) why }
    ensures { result ≡ fault_of_rank ranked.now why }
{
    match why {
        Fault::Bad(cycle) => Fault::Bad(InitCycle {
            task: ranked[cycle.least as usize],
        }),
        Fault::OutOfMemory => Fault::OutOfMemory,
    }
}

/// The init list of the tasks that are reached from a root: each after those that it waits for, of those
/// that are ready the least by name and then by load position; tasks of at most eight bytes, which have
/// nothing to run, are left out. The time is that of a sort by name, and linear in the edges; the memory
/// is some 40 bytes a task and 12 an edge.
///
/// # Errors
///
/// The least task that waits for itself, where one does: then there is no order.
pub fn schedule<P: InitProgram>(
    alloc: Global,
    program: &P,
    root: u32,
    tasks: &[u32],
) -> Result<Vec<u32>, Fault<InitCycle>>
    requires keys { All (λ k. k < (P.graph program.now).keys) tasks.now }
    requires few { length tasks.now < 2 ^ 32 }
    requires tasks { AreTasks (P.graph program.now) root tasks.now }
    requires whole { (k : ℕ) → IsTask (P.graph program.now) root k → IsWhole (P.graph program.now) k }
    ensures list { IfOk result (λ list. IsInitList (P.graph program.now) root list.items) }
    ensures no_cycle { OnOk result ((k : ℕ) → IsTask (P.graph program.now) root k
        → IsOnCycle (P.graph program.now) k → ⊥) }
    ensures cycle { IfErr result (IsOrderFault (P.graph program.now) root) }
{
    let ranked = ranked_tasks(alloc, program, tasks)?;
    let by_rank = ranked.as_slice();
    let edges = ranked_edges(alloc, program, by_rank)?;
    match glk_order::schedule(alloc, by_rank.len() as u32, edges.as_slice()) {
        Ok(order) => Ok(list_tasks(alloc, program, by_rank, order.as_slice())?),
        Err(why) => Err(task_fault(by_rank, why)),
    }
}
