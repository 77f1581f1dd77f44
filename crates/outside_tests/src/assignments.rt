use assignor::{Assignment, Owned, assign};
use ksql_types::{CopyOf, Items, TaskName};
use std::alloc::Global;
use std::test::Fail;

/// The first tasks of sub-topology 0, each with its worker.
fn pairs(alloc: Global, workers: &[u32]) -> Result<Assignment, Fail> {
    let mut pairs = Vec::new(alloc);
    for (part, worker) in workers.iter().enumerate() {
        let task = TaskName {
            sub: 0,
            part: u32::try_from(part)?,
        };
        pairs.push(Owned {
            task,
            worker: *worker,
        })?;
    }
    Ok(Items::of(pairs))
}

/// The workers that get the first `count` tasks of sub-topology 0.
fn workers(
    alloc: Global,
    previous: &Assignment,
    live: &[u32],
    count: u32,
) -> Result<Vec<u32>, Fail> {
    let mut tasks = Vec::new(alloc);
    for part in 0..count {
        tasks.push(TaskName { sub: 0, part })?;
    }
    let mut workers = Vec::new(alloc);
    for owned in assign(alloc, previous, live, &tasks)?.items() {
        workers.push(owned.worker)?;
    }
    Ok(workers)
}

#[test]
fn only_one_task_moves_to_a_worker_that_starts(rt: HostRuntime) -> Result<(), Fail> {
    let alloc = rt.alloc();
    let none = pairs(alloc, &[])?;
    let first = workers(alloc, &none, &[1, 2], 5)?;
    assert_eq!(rt; first.as_slice(), [1, 2, 1, 2, 1].as_slice());
    let previous = pairs(alloc, &first)?;
    let second = workers(alloc, &previous, &[1, 2, 3], 5)?;
    assert_eq!(rt; second.as_slice(), [1, 2, 1, 2, 3].as_slice());
    Ok(())
}

#[test]
fn all_tasks_go_from_the_worker_that_is_gone(rt: HostRuntime) -> Result<(), Fail> {
    let alloc = rt.alloc();
    let none = pairs(alloc, &[])?;
    let first = workers(alloc, &none, &[1], 4)?;
    assert_eq!(rt; first.as_slice(), [1, 1, 1, 1].as_slice());
    let previous = pairs(alloc, &first)?;
    let second = workers(alloc, &previous, &[2], 4)?;
    assert_eq!(rt; second.as_slice(), [2, 2, 2, 2].as_slice());
    assert_eq!(rt; workers(alloc, &previous, &[], 4)?.len(), 0);
    Ok(())
}

#[test]
fn a_worker_keeps_its_share_and_no_more(rt: HostRuntime) -> Result<(), Fail> {
    let alloc = rt.alloc();
    // Six tasks on two workers are three each.
    let six = pairs(alloc, &[1, 1, 1, 1, 1, 1])?;
    let even = workers(alloc, &six, &[1, 2], 6)?;
    assert_eq!(rt; even.as_slice(), [1, 1, 1, 2, 2, 2].as_slice());
    // Of seven tasks, one worker may keep four.
    let seven = pairs(alloc, &[4, 4, 4, 4, 4, 4, 5])?;
    let odd = workers(alloc, &seven, &[4, 5], 7)?;
    assert_eq!(rt; odd.as_slice(), [4, 4, 4, 4, 5, 5, 5].as_slice());
    Ok(())
}

#[test]
fn the_fewest_come_first_and_then_the_smallest_number(rt: HostRuntime) -> Result<(), Fail> {
    let alloc = rt.alloc();
    // Worker 2 is gone. Worker 3 has one task and gets a second, so that it has as many as worker 1.
    let five = pairs(alloc, &[1, 2, 3, 2, 1])?;
    let moved = workers(alloc, &five, &[1, 3], 5)?;
    assert_eq!(rt; moved.as_slice(), [1, 3, 3, 1, 1].as_slice());
    // The third task is new.
    let two = pairs(alloc, &[9, 7])?;
    let more = workers(alloc, &two, &[7, 8, 9], 3)?;
    assert_eq!(rt; more.as_slice(), [9, 7, 8].as_slice());
    Ok(())
}

#[test]
fn an_assignment_is_copied_whole(rt: HostRuntime) -> Result<(), Fail> {
    let alloc = rt.alloc();
    let copied = pairs(alloc, &[6, 5])?.copy(alloc)?;
    assert_eq!(rt; copied.items().len(), 2);
    Ok(())
}
