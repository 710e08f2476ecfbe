// What a task reaches.
ghost use Rattle.std.specs.Prelude.{◌≡◌, ◌<◌, ◌↔◌, length, IfOk, OnOk, IsTrue};
ghost use Rattle.glk_order.specs.declared.edges.End.TheVariants.{Task};
ghost use Rattle.glk_order.specs.Order.{IsOnCycle};
ghost use Rattle.glk_order.specs.Search.{SeesTarget, SeesTargets};

use crate::chains::Chains;
use glk_base::OutOfMemory;
use std::alloc::Global;

// A task is seen; if it was not, it is left to be searched from.
fn see_target(target: u32, seen: &mut [bool], work: &mut Vec<u32>) -> Result<(), OutOfMemory>
    requires { target < length seen.old }
    ensures { OnOk result (SeesTarget target seen.old seen.new work.old.items work.new.items) }
{
    if !seen[target as usize] {
        work.push(target)?;
        seen[target as usize] = true;
    }
    Ok(())
}

// The targets of a task are seen; those that were not are left to be searched from.
fn see_targets(
    needs: &Chains<'_>,
    task: u32,
    seen: &mut [bool],
    work: &mut Vec<u32>,
) -> Result<(), OutOfMemory>
    requires ends { needs.now.end ≡ Task }
    requires task { task < length needs.now.lasts.items }
    requires size { length seen.old ≡ length needs.now.lasts.items }
    ensures { OnOk result (SeesTargets needs.now.edges.now task seen.old seen.new
        work.old.items work.new.items) }
{
    let mut at = needs.last(task);
    while let Some(edge) = at {
        see_target(needs.edge(edge).target, seen, work)?;
        at = needs.before(edge);
    }
    Ok(())
}

// Whether a task reaches itself by one or more edges.
pub(crate) fn reaches_itself(
    alloc: Global,
    count: u32,
    needs: &Chains<'_>,
    task: u32,
) -> Result<bool, OutOfMemory>
    requires ends { needs.now.end ≡ Task }
    requires tasks { count ≡ length needs.now.lasts.items }
    requires task { task < count }
    ensures { IfOk result (λ yes. IsTrue yes ↔ IsOnCycle needs.now.edges.now task) }
{
    let mut seen = vec![in alloc; false; count as usize]?;
    let mut work = Vec::new(alloc);
    see_targets(needs, task, seen.as_mut_slice(), &mut work)?;
    while let Some(next) = work.pop() {
        see_targets(needs, next, seen.as_mut_slice(), &mut work)?;
    }
    Ok(seen[task as usize])
}
