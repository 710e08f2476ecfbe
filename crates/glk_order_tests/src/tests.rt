// The order of many tasks, and cycles.
ghost use Rattle.std.specs.Prelude.{◌≡◌, true};
ghost use Rattle.glk_order.specs.Order.{AreEdgesOf};

use glk_base::Fault;
use glk_order::{Cycle, Edge, schedule};
use std::alloc::{AllocError, Global};
use std::test::Fail;

// How many tasks the chain and the star have.
const MANY: u32 = 1000;

// Whether these are edges between so many tasks.
fn are_edges(count: u32, edges: &[Edge]) -> bool
    ensures { result ≡ true → AreEdgesOf count edges.now }
{
    for edge in edges {
        if edge.task >= count || edge.target >= count {
            return false;
        }
    }
    true
}

// The order, or the least task on a cycle.
fn order_of(alloc: Global, count: u32, edges: &[Edge]) -> Result<Result<Vec<u32>, u32>, Fail> {
    if edges.len() > u32::MAX as usize || !are_edges(count, edges) {
        return Err(Fail::from("no edges"));
    }
    match schedule(alloc, count, edges) {
        Ok(list) => Ok(Ok(list)),
        Err(Fault::Bad(Cycle { least })) => Ok(Err(least)),
        Err(Fault::OutOfMemory) => Err(Fail::from("out of memory")),
    }
}

// Whether this is the order of the tasks.
fn has_order(alloc: Global, count: u32, edges: &[Edge], want: &[u32]) -> Result<bool, Fail> {
    match order_of(alloc, count, edges)? {
        Ok(list) => Ok(list.as_slice() == want),
        Err(_) => Ok(false),
    }
}

// The least task on a cycle.
fn least_on_cycle(alloc: Global, count: u32, edges: &[Edge]) -> Result<Option<u32>, Fail> {
    match order_of(alloc, count, edges)? {
        Ok(_) => Ok(None),
        Err(least) => Ok(Some(least)),
    }
}

// Each task but the last one waits for the next.
fn chain(alloc: Global) -> Result<Vec<Edge>, AllocError> {
    let mut edges = Vec::new(alloc);
    for target in 1..MANY {
        let task = target - 1;
        edges.push(Edge { task, target })?;
    }
    Ok(edges)
}

// The numbers below, from the greatest on.
fn down(alloc: Global) -> Result<Vec<u32>, AllocError> {
    let mut numbers = Vec::new(alloc);
    for k in 0..MANY {
        numbers.push(MANY - 1 - k)?;
    }
    Ok(numbers)
}

#[test]
fn a_chain_comes_from_its_end(rt: HostRuntime) -> Result<(), Fail> {
    let edges = chain(rt.alloc())?;
    let want = down(rt.alloc())?;
    let is = has_order(rt.alloc(), MANY, edges.as_slice(), want.as_slice())?;
    assert!(rt; is);
    Ok(())
}

#[test]
fn tasks_that_lead_to_a_cycle_are_not_on_it(rt: HostRuntime) -> Result<(), Fail> {
    let mut edges = chain(rt.alloc())?;
    edges.push(Edge {
        task: MANY - 1,
        target: 7,
    })?;
    let found = least_on_cycle(rt.alloc(), MANY, edges.as_slice())?;
    assert_eq!(rt; found, Some(7));
    Ok(())
}

// Task 0 waits for all others, and all others wait for the last one, twice.
fn star(alloc: Global) -> Result<Vec<Edge>, AllocError> {
    let mut edges = Vec::new(alloc);
    for task in 1..MANY {
        let waits = Edge { task, target: MANY };
        let waited_for = Edge {
            task: 0,
            target: task,
        };
        edges.extend_from_slice(&[waited_for, waits, waits])?;
    }
    Ok(edges)
}

// The last task, the others from the least on, and task 0.
fn up(alloc: Global) -> Result<Vec<u32>, AllocError> {
    let mut numbers = Vec::new(alloc);
    numbers.push(MANY)?;
    for k in 1..MANY {
        numbers.push(k)?;
    }
    numbers.push(0)?;
    Ok(numbers)
}

#[test]
fn the_least_ready_task_is_next(rt: HostRuntime) -> Result<(), Fail> {
    let edges = star(rt.alloc())?;
    let want = up(rt.alloc())?;
    let is = has_order(rt.alloc(), MANY + 1, edges.as_slice(), want.as_slice())?;
    assert!(rt; is);
    Ok(())
}

// Tasks 0 and 1 lead to the cycles 2, 5 and 3, 4; task 6 waits for itself.
const EDGES: [Edge; 8] = [
    Edge { task: 6, target: 6 },
    Edge { task: 4, target: 3 },
    Edge { task: 3, target: 4 },
    Edge { task: 5, target: 2 },
    Edge { task: 2, target: 5 },
    Edge { task: 2, target: 4 },
    Edge { task: 1, target: 2 },
    Edge { task: 0, target: 1 },
];

#[test]
fn the_least_task_on_a_cycle_is_told(rt: HostRuntime) -> Result<(), Fail> {
    for (from, to, least) in [
        (0, 8, Some(2)),
        (0, 3, Some(3)),
        (0, 1, Some(6)),
        (6, 8, None),
    ] {
        let edges = EDGES.get(from..to).ok_or("no such edges")?;
        assert_eq!(rt; least_on_cycle(rt.alloc(), 8, edges)?, least);
    }
    Ok(())
}
