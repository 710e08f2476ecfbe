// Tasks of the sample.
use crate::sample::Sample;
use glk_base::Fault;
use glk_init::{InitCycle, UndefinedTarget, init_tasks, schedule};
use std::test::Fail;

// Tasks come by name where they are ready, and one of eight bytes is not listed.
#[test]
fn tasks_are_listed_in_order(rt: HostRuntime) -> Result<(), Fail> {
    let alloc = rt.alloc();
    let Ok(tasks) = init_tasks(alloc, &Sample::Sound, 0) else {
        return Err(Fail::from("no tasks"));
    };
    assert_eq!(rt; tasks.as_slice(), [0, 1, 2].as_slice());
    match schedule(alloc, &Sample::Sound, 0, tasks.as_slice()) {
        Ok(list) => assert_eq!(rt; list.as_slice(), [1, 0].as_slice()),
        Err(_) => return Err(Fail::from("no list")),
    }
    Ok(())
}

// Of the tasks on a cycle the least by name is told.
#[test]
fn a_cycle_is_told_by_its_least_name(rt: HostRuntime) -> Result<(), Fail> {
    let alloc = rt.alloc();
    let Ok(tasks) = init_tasks(alloc, &Sample::Cyclic, 0) else {
        return Err(Fail::from("no tasks"));
    };
    match schedule(alloc, &Sample::Cyclic, 0, tasks.as_slice()) {
        Err(Fault::Bad(cycle)) => assert_eq!(rt; cycle, InitCycle { task: 2 }),
        _ => return Err(Fail::from("no cycle")),
    }
    Ok(())
}

// Of the targets without a definition the one of the earliest task is told.
#[test]
fn the_first_undefined_target_is_told(rt: HostRuntime) -> Result<(), Fail> {
    match init_tasks(rt.alloc(), &Sample::Undefined, 0) {
        Err(Fault::Bad(undefined)) => {
            assert_eq!(rt;
                undefined,
                UndefinedTarget {
                    task: 1,
                    relocation: 7
                }
            );
        }
        _ => return Err(Fail::from("all are defined")),
    }
    Ok(())
}
