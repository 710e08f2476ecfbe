// The least task on a cycle.
ghost use Rattle.std.specs.Prelude.{◌≡◌, ◌<◌, ◌^◌, ℕ, length, true, false, IfOk, IfSome, IfNone};
ghost use Rattle.glk_order.specs.declared.edges.End.TheVariants.{Task};
ghost use Rattle.glk_order.specs.Order.{AreEdgesOf, Needs, IsOnCycle, IsLeastOnCycle};
ghost use Rattle.glk_order.specs.Progress.{is_listed, AreTargetsListed, IsStuck};

use crate::chains::Chains;
use crate::components::component_levels;
use crate::edges::{Edge, End};
use crate::levels::least_within_level;
use crate::search::reaches_itself;
use glk_base::OutOfMemory;
use std::alloc::Global;

// A target of a task that is not listed.
fn unlisted_target(needs: &Chains<'_>, listed: &[bool], task: u32) -> Option<u32>
    requires ends { needs.now.end ≡ Task }
    requires size { length listed.now ≡ length needs.now.lasts.items }
    requires task { task < length needs.now.lasts.items }
    ensures inside { IfSome result (λ target. target < length listed.now) }
    ensures unlisted { IfSome result (λ target. is_listed listed.now target ≡ false) }
    ensures target { IfSome result (Needs needs.now.edges.now task) }
    ensures none { IfNone result (AreTargetsListed needs.now.edges.now listed.now task) }
{
    let mut at = needs.last(task);
    while let Some(edge) = at {
        let target = needs.edge(edge).target;
        if !listed[target as usize] {
            return Some(target);
        }
        at = needs.before(edge);
    }
    None
}

// A task on a cycle, where each task that is not listed has a target that is not.
fn some_on_cycle(
    alloc: Global,
    needs: &Chains<'_>,
    listed: &[bool],
    start: u32,
) -> Result<u32, OutOfMemory>
    requires ends { needs.now.end ≡ Task }
    requires size { length listed.now ≡ length needs.now.lasts.items }
    requires start { start < length listed.now }
    requires unlisted { is_listed listed.now start ≡ false }
    requires stuck { IsStuck (length listed.now) needs.now.edges.now listed.now }
    ensures inside { IfOk result (λ task. task < length listed.now) }
    ensures cycle { IfOk result (IsOnCycle needs.now.edges.now) }
{
    let mut seen = vec![in alloc; false; listed.len()]?;
    let mut at = start;
    while !seen[at as usize] {
        seen[at as usize] = true;
        match unlisted_target(needs, listed, at) {
            Some(next) => at = next,
            None => unreachable!(),
        }
    }
    Ok(at)
}

// The least task on a cycle, where one is on a cycle: a search from each task.
fn least_by_searches(
    alloc: Global,
    count: u32,
    needs: &Chains<'_>,
    known: u32,
) -> Result<u32, OutOfMemory>
    requires ends { needs.now.end ≡ Task }
    requires tasks { count ≡ length needs.now.lasts.items }
    requires known { known < count }
    requires cycle { IsOnCycle needs.now.edges.now known }
    ensures { IfOk result (IsLeastOnCycle needs.now.edges.now) }
{
    for task in 0..known {
        if reaches_itself(alloc, count, needs, task)? {
            return Ok(task);
        }
    }
    Ok(known)
}

// The least task on a cycle, if the levels of the strong components tell it.
fn least_by_levels(
    alloc: Global,
    count: u32,
    edges: &[Edge],
    needs: &Chains<'_>,
) -> Result<Option<u32>, OutOfMemory>
    requires ends { needs.now.end ≡ Task }
    requires tasks { count ≡ length needs.now.lasts.items }
    requires edges { needs.now.edges.now ≡ edges.now }
    ensures { IfOk result (λ found. IfSome found (IsLeastOnCycle edges.now)) }
{
    let levels = component_levels(alloc, count, needs)?;
    match least_within_level(edges, levels.as_slice()) {
        Some(task) => {
            if reaches_itself(alloc, count, needs, task)? {
                Ok(Some(task))
            } else {
                Ok(None)
            }
        }
        None => Ok(None),
    }
}

// The least task on a cycle, where each task that is not listed has a target that is not.
pub(crate) fn least_on_cycle(
    alloc: Global,
    count: u32,
    edges: &[Edge],
    listed: &[bool],
    start: u32,
) -> Result<u32, OutOfMemory>
    requires inside { AreEdgesOf count edges.now }
    requires few { length edges.now < 2 ^ 32 }
    requires size { length listed.now ≡ count }
    requires start { start < count }
    requires unlisted { is_listed listed.now start ≡ false }
    requires stuck { IsStuck count edges.now listed.now }
    ensures { IfOk result (IsLeastOnCycle edges.now) }
{
    let needs = Chains::new(alloc, count, edges, End::Task)?;
    match least_by_levels(alloc, count, edges, &needs)? {
        Some(task) => Ok(task),
        // The levels are those of the strong components, so the search from each task in turn,
        // which is slow, is never needed; it is here since nothing is proved of the components.
        None => {
            let known = some_on_cycle(alloc, &needs, listed, start)?;
            least_by_searches(alloc, count, &needs, known)
        }
    }
}
