// Tasks by rank: their numbers in the order of names and load positions.
ghost use Rattle.std.specs.Prelude.{◌≡◌, ◌<◌, ◌^◌, ◌++◌, ◌∷◌, [], IfOk, OnOk, length, map, nat_eq};
ghost use Rattle.std.specs.List.{All, IsDistinct, cons_option, filter_map};
ghost use Rattle.glk_init.specs.Ranks.{AreNamed, AreRanked, AreRankEdges, IsRankTable, rank_edges};

use crate::program::{InitEdge, InitProgram};
use glk_base::OutOfMemory;
use glk_order::Edge;
use std::alloc::Global;
use std::collections::HashMap;

// An order has fewer edges than this many; more would not fit into memory.
const MOST_EDGES: usize = 0xFFFF_FFFF;

// A task as it is compared: by its name, and then by its load position. The key decides where both
// are the same.
#[derive(Clone, Copy, PartialEq, Eq, PartialOrd, Ord)]
pub(crate) struct NamedTask<'a> {
    name: &'a [u8],
    position: u32,
    key: u32,
}

// The tasks with their names, as they come.
fn named_tasks<'a, P: InitProgram>(
    alloc: Global,
    program: &'a P,
    tasks: &[u32],
) -> Result<Vec<NamedTask<'a>>, OutOfMemory>
    requires { All (λ k. k < (P.graph program.now).keys) tasks.now }
    ensures { IfOk result (λ named. AreNamed (P.graph program.now) tasks.now named.items) }
{
    let mut named = Vec::with_capacity(alloc, tasks.len())?;
    for task in tasks {
        named.push(NamedTask {
            name: program.name(*task),
            position: program.position(*task),
            key: *task,
        })?;
    }
    Ok(named)
}

// Their keys.
fn keys_of(alloc: Global, named: &[NamedTask<'_>]) -> Result<Vec<u32>, OutOfMemory>
    ensures { IfOk result (λ keys. keys.items ≡ map (λ task. task.key) named.now) }
{
    let mut keys = Vec::with_capacity(alloc, named.len())?;
    for task in named {
        keys.push(task.key)?;
    }
    Ok(keys)
}

// The tasks by rank. The time is that of a sort by name.
pub(crate) fn ranked_tasks<P: InitProgram>(
    alloc: Global,
    program: &P,
    tasks: &[u32],
) -> Result<Vec<u32>, OutOfMemory>
    requires { All (λ k. k < (P.graph program.now).keys) tasks.now }
    ensures { IfOk result (λ ranked. AreRanked (P.graph program.now) tasks.now ranked.items) }
{
    let mut named = named_tasks(alloc, program, tasks)?;
    named.sort()?;
    keys_of(alloc, named.as_slice())
}

// The rank of each task.
fn rank_table(alloc: Global, ranked: &[u32]) -> Result<HashMap<u32, u32>, OutOfMemory>
    requires distinct { IsDistinct nat_eq ranked.now }
    requires few { length ranked.now < 2 ^ 32 }
    ensures { IfOk result (IsRankTable ranked.now (length ranked.now)) }
{
    let mut ranks = HashMap::new(alloc);
    for (rank, task) in ranked.iter().enumerate() {
        ranks.insert(*task, rank as u32)?;
    }
    Ok(ranks)
}

// Appends an edge, where there is a memory for its number.
fn push_edge(edges: &mut Vec<Edge>, edge: Edge) -> Result<(), OutOfMemory>
    requires { length edges.old.items < 2 ^ 32 }
    ensures value { OnOk result (edges.new.items ≡ edges.old.items ++ edge ∷ []) }
    ensures few { OnOk result (length edges.new.items < 2 ^ 32) }
{
    if edges.len() >= MOST_EDGES {
        return Err(OutOfMemory);
    }
    edges.push(edge)?;
    Ok(())
}

// Appends the edge to one target, if it has a rank.
fn push_target(
    ranks: &HashMap<u32, u32>,
    rank: u32,
    target: Option<u32>,
    edges: &mut Vec<Edge>,
) -> Result<(), OutOfMemory>
    requires { length edges.old.items < 2 ^ 32 }
    ensures value { OnOk result (edges.new.items
        ≡ edges.old.items ++ rank_edges ranks.now rank (cons_option target [])) }
    ensures few { OnOk result (length edges.new.items < 2 ^ 32) }
{
    let Some(key) = target else {
        return Ok(());
    };
    match ranks.get(&key) {
        Some(target) => push_edge(
            edges,
            Edge {
                task: rank,
                target: *target,
            },
        ),
        None => Ok(()),
    }
}

// Appends the edges of one task.
fn push_edges(
    ranks: &HashMap<u32, u32>,
    rank: u32,
    targets: &[InitEdge],
    edges: &mut Vec<Edge>,
) -> Result<(), OutOfMemory>
    requires { length edges.old.items < 2 ^ 32 }
    ensures value { OnOk result (edges.new.items
        ≡ edges.old.items ++ rank_edges ranks.now rank (filter_map (λ e. e.target) targets.now)) }
    ensures few { OnOk result (length edges.new.items < 2 ^ 32) }
{
    for edge in targets {
        push_target(ranks, rank, edge.target, edges)?;
    }
    Ok(())
}

// The edges between tasks, by their ranks.
pub(crate) fn ranked_edges<P: InitProgram>(
    alloc: Global,
    program: &P,
    ranked: &[u32],
) -> Result<Vec<Edge>, OutOfMemory>
    requires keys { All (λ k. k < (P.graph program.now).keys) ranked.now }
    requires distinct { IsDistinct nat_eq ranked.now }
    requires few { length ranked.now < 2 ^ 32 }
    ensures edges { IfOk result (λ edges. AreRankEdges (P.graph program.now) ranked.now edges.items) }
    ensures few { IfOk result (λ edges. length edges.items < 2 ^ 32) }
{
    let ranks = rank_table(alloc, ranked)?;
    let mut targets = Vec::new(alloc);
    let mut edges = Vec::new(alloc);
    for (rank, task) in ranked.iter().enumerate() {
        program.edges(*task, &mut targets)?;
        push_edges(&ranks, rank as u32, targets.as_slice(), &mut edges)?;
    }
    Ok(edges)
}
