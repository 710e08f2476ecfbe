// The order of tasks, as far as it goes, and the call that answers it whole.
ghost use Rattle.std.specs.Prelude.{◌≡◌, ◌<◌, ◌^◌, ℕ, Bool, List, length, true, false, IfOk, IfErr, IfSome, IfNone, OnOk, slice_index, slice_set};
ghost use Rattle.glk_order.specs.declared.edges.End.TheVariants.{Target};
ghost use Rattle.glk_order.specs.Order.{AreEdgesOf, Needs, InOrder, IsOrder, IsOnCycle};
ghost use Rattle.glk_order.specs.Schedule.{IsFaultOf};
ghost use Rattle.glk_order.specs.Progress.{is_listed, AreOpen, AreClosed, AreReady, ClosesEdge, AreMarks, IsStuck};

use crate::chains::Chains;
use crate::cycles::least_on_cycle;
use crate::edges::{Edge, End};
use glk_base::{Fault, OutOfMemory};
use std::alloc::Global;
use std::collections::BTreeSet;

/// Tasks that wait for each other.
#[derive(Clone, Copy, Debug, PartialEq, Eq)]
pub struct Cycle {
    /// The least task that reaches itself by one or more edges.
    pub least: u32,
}

// The tasks that are listed, in order, and a mark for each of them.
#[derive(Drop)]
struct Progress {
    list: Vec<u32>,
    listed: Vec<bool>,
}

// How many edges each task has.
fn edge_counts(alloc: Global, count: u32, edges: &[Edge]) -> Result<Vec<u32>, OutOfMemory>
    requires inside { AreEdgesOf count edges.now }
    requires few { length edges.now < 2 ^ 32 }
    ensures { IfOk result (λ counts. (listed : List Bool) → ((task : ℕ) → is_listed listed task ≡ false)
        → AreOpen count edges.now listed counts.items) }
{
    let mut counts = vec![in alloc; 0u32; count as usize]?;
    for edge in edges {
        counts[edge.task as usize] += 1;
    }
    Ok(counts)
}

// The tasks without an edge.
fn first_ready(alloc: Global, open_counts: &[u32]) -> Result<BTreeSet<u32>, OutOfMemory>
    requires { length open_counts.now < 2 ^ 32 }
    ensures { IfOk result (λ ready. (listed : List Bool) → ((task : ℕ) → is_listed listed task ≡ false)
        → AreReady (length open_counts.now) listed open_counts.now ready) }
{
    let mut ready = BTreeSet::new(alloc);
    for (task, count) in open_counts.iter().enumerate() {
        if *count == 0 {
            ready.insert(task as u32)?;
        }
    }
    Ok(ready)
}

// One edge of a task less is open; without open edges it is ready.
fn close_edge(
    open_counts: &mut [u32],
    ready: &mut BTreeSet<u32>,
    task: u32,
) -> Result<(), OutOfMemory>
    requires inside { task < length open_counts.old }
    requires some { 0 < slice_index open_counts.old task }
    ensures { OnOk result (ClosesEdge task open_counts.old open_counts.new ready.old ready.new) }
{
    open_counts[task as usize] -= 1;
    if open_counts[task as usize] == 0 {
        ready.insert(task)?;
    }
    Ok(())
}

// A task is listed: the edges that lead to it are open no more.
fn close_edges(
    users: &Chains<'_>,
    task: u32,
    listed: &mut [bool],
    open_counts: &mut [u32],
    ready: &mut BTreeSet<u32>,
) -> Result<(), OutOfMemory>
    requires ends { users.now.end ≡ Target }
    requires marks { length listed.old ≡ length users.now.lasts.items }
    requires task { task < length users.now.lasts.items }
    requires unlisted { is_listed listed.old task ≡ false }
    requires none_open { slice_index open_counts.old task ≡ 0 }
    requires counts { AreOpen (length users.now.lasts.items) users.now.edges.now listed.old open_counts.old }
    requires closed { AreClosed listed.old open_counts.old }
    requires ready { AreReady (length users.now.lasts.items) (slice_set listed.old task true)
        open_counts.old ready.old }

    ensures marks { OnOk result (listed.new ≡ slice_set listed.old task true) }
    ensures counts { OnOk result (AreOpen (length users.now.lasts.items) users.now.edges.now
        listed.new open_counts.new) }
    ensures closed { OnOk result (AreClosed listed.new open_counts.new) }
    ensures ready { OnOk result (AreReady (length users.now.lasts.items)
        listed.new open_counts.new ready.new) }
{
    listed[task as usize] = true;
    let mut at = users.last(task);
    while let Some(edge) = at {
        close_edge(open_counts, ready, users.edge(edge).task)?;
        at = users.before(edge);
    }
    Ok(())
}

// The tasks in order, until none is ready.
fn list_ready(alloc: Global, count: u32, edges: &[Edge]) -> Result<Progress, OutOfMemory>
    requires inside { AreEdgesOf count edges.now }
    requires few { length edges.now < 2 ^ 32 }
    ensures order { IfOk result (λ p. InOrder count edges.now p.list.items) }
    ensures size { IfOk result (λ p. length p.listed.items ≡ count) }
    ensures marks { IfOk result (λ p. AreMarks p.listed.items p.list.items) }
    ensures stuck { IfOk result (λ p. IsStuck count edges.now p.listed.items) }
{
    let users = Chains::new(alloc, count, edges, End::Target)?;
    let mut open_counts = edge_counts(alloc, count, edges)?;
    let mut ready = first_ready(alloc, open_counts.as_slice())?;
    let mut listed = vec![in alloc; false; count as usize]?;
    let mut list = Vec::with_capacity(alloc, count as usize)?;
    while let Some(task) = ready.pop_first() {
        list.push(task)?;
        close_edges(
            &users,
            task,
            listed.as_mut_slice(),
            open_counts.as_mut_slice(),
            &mut ready,
        )?;
    }
    Ok(Progress { list, listed })
}

// A task that is not listed.
fn first_unlisted(listed: &[bool]) -> Option<u32>
    requires { length listed.now < 2 ^ 32 }
    ensures inside { IfSome result (λ task. task < length listed.now) }
    ensures unlisted { IfSome result (λ task. is_listed listed.now task ≡ false) }
    ensures none { IfNone result ((task : ℕ) → task < length listed.now → is_listed listed.now task ≡ true) }
{
    for (task, is_listed) in listed.iter().enumerate() {
        if !*is_listed {
            return Some(task as u32);
        }
    }
    None
}

/// The tasks from 0 to `count - 1` in order: each one is the least of those that are not earlier
/// and whose targets all are. It takes time for each edge once, and for each task the logarithm of
/// how many are ready; 13 bytes a task and 4 an edge.
///
/// # Errors
///
/// The least task that reaches itself, where one does: then there is no order.
pub fn schedule(alloc: Global, count: u32, edges: &[Edge]) -> Result<Vec<u32>, Fault<Cycle>>
    requires inside { AreEdgesOf count edges.now }
    requires few { length edges.now < 2 ^ 32 }
    ensures order { IfOk result (λ list. IsOrder count edges.now list.items) }
    ensures no_cycle { OnOk result ((task : ℕ) → IsOnCycle edges.now task → ⊥) }
    ensures cycle { IfErr result (IsFaultOf edges.now) }
{
    let progress = list_ready(alloc, count, edges)?;
    match first_unlisted(progress.listed.as_slice()) {
        None => Ok(progress.list),
        Some(start) => {
            let least = least_on_cycle(alloc, count, edges, progress.listed.as_slice(), start)?;
            Err(Fault::Bad(Cycle { least }))
        }
    }
}
