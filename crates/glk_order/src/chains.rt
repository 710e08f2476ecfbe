// The edges of each task, one after the other, from the last to the first.
ghost use Rattle.std.specs.Prelude.{◌≡◌, ◌<◌, ◌-◌, ◌^◌, ℕ, Option, List, length, IfOk, IfSome};
ghost use Rattle.glk_order.specs.Order.{AreEdgesOf};
ghost use Rattle.glk_order.specs.Chains.{edge_at, task_at, last_edge, stored_edge, AreLasts, AreBefores};

use crate::edges::{Edge, End};
use glk_base::OutOfMemory;
use std::alloc::Global;

// Stands for no edge.
const NONE: u32 = u32::MAX;

// The edges that have a task at one end are a chain. A chain costs four bytes an edge and four a
// task, and a step along it is one read.
#[derive(Drop)]
pub(crate) struct Chains<'a> {
    edges: &'a [Edge],
    end: End,
    // the last edge of each task
    lasts: Vec<u32>,
    // the last edge before each edge that has the same task
    befores: Vec<u32>,
    ghost few: { length edges.now < 2 ^ 32 },
    ghost few_tasks: { length lasts.items < 2 ^ 32 },
    ghost inside: { AreEdgesOf (length lasts.items) edges.now },
    ghost last_edges: { AreLasts end edges.now (length edges.now) lasts.items },
    ghost one_before_each: { length befores.items ≡ length edges.now },
    ghost edges_before: { AreBefores end edges.now (length edges.now) befores.items },
}

impl<'a> Chains<'a> {
    // The chains of `count` tasks, by the task at this end of the edges.
    pub(crate) fn new(
        alloc: Global,
        count: u32,
        edges: &'a [Edge],
        end: End,
    ) -> Result<Chains<'a>, OutOfMemory>
        requires inside { AreEdgesOf count edges.now }
        requires few { length edges.now < 2 ^ 32 }
        ensures edges { IfOk result (λ chains. chains.edges.now ≡ edges.now) }
        ensures ends { IfOk result (λ chains. chains.end ≡ end) }
        ensures tasks { IfOk result (λ chains. length chains.lasts.items ≡ count) }
    {
        let mut lasts = vec![in alloc; NONE; count as usize]?;
        let mut befores = Vec::with_capacity(alloc, edges.len())?;
        for (i, edge) in edges.iter().enumerate() {
            let task = edge.at(end) as usize;
            befores.push(lasts[task])?;
            lasts[task] = i as u32;
        }
        Ok(Chains {
            edges,
            end,
            lasts,
            befores,
        })
    }

    // How many tasks there are.
    pub(crate) fn count(&self) -> u32
        ensures { result ≡ length self.now.lasts.items }
    {
        self.lasts.len() as u32
    }

    // How many edges there are.
    pub(crate) fn edge_count(&self) -> u32
        ensures { result ≡ length self.now.edges.now }
    {
        self.edges.len() as u32
    }

    // The edge of this number.
    pub(crate) fn edge(&self, edge: u32) -> Edge
        requires { edge < length self.now.edges.now }
        ensures value { result ≡ edge_at self.now.edges.now edge }
        ensures task { result.task < length self.now.lasts.items }
        ensures target { result.target < length self.now.lasts.items }
    {
        self.edges[edge as usize]
    }

    // The last edge of a task.
    pub(crate) fn last(&self, task: u32) -> Option<u32>
        requires { task < length self.now.lasts.items }
        ensures { result ≡ last_edge self.now.end self.now.edges.now task (length self.now.edges.now) }
    {
        some_edge(self.lasts[task as usize])
    }

    // The last edge before an edge that has the same task.
    pub(crate) fn before(&self, edge: u32) -> Option<u32>
        requires { edge < length self.now.edges.now }
        ensures { (task : ℕ) → task ≡ task_at self.now.end (edge_at self.now.edges.now edge)
            → result ≡ last_edge self.now.end self.now.edges.now task edge }
    {
        some_edge(self.befores[edge as usize])
    }
}

// The edge of this number, if it is one.
fn some_edge(edge: u32) -> Option<u32>
    ensures { (stored : Option ℕ) → edge ≡ stored_edge stored → IfSome stored (λ e. e < 2 ^ 32 - 1)
        → result ≡ stored }
{
    if edge == NONE { None } else { Some(edge) }
}
