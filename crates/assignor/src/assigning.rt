ghost use Rattle.std.specs.Prelude.{◌≡◌, IfOk};
ghost use Rattle.std.specs.List.Sorted.{IsStrictlyIncreasing};
ghost use Rattle.assignor.specs.Rule.{assignment, owned_at, IsAssignment};

use crate::assignment::{Assignment, Owned, Share};
use crate::places::{first_pass, second_pass};
use crate::previous::owners_of;
use ksql_types::{Items, TaskName};
use std::alloc::{AllocError, Global};

/// Assigns tasks to the live workers. A task stays with its live owner unless the owner is over its share, and each
/// other task goes to the worker with the fewest tasks.
pub fn assign(
    alloc: Global,
    previous: &Assignment,
    live: &[u32],
    tasks: &[TaskName],
) -> Result<Assignment, AllocError>
    ensures value { IfOk result (λ made. made ≡ assignment previous.now live.now tasks.now) }
    ensures assigned { IfOk result (λ made. IsStrictlyIncreasing live.now → IsAssignment previous.now live.now tasks.now made) }
{
    if live.is_empty() {
        return Ok(Items::of(Vec::new(alloc)));
    }
    let share = Share {
        low: tasks.len() / live.len(),
        extra: tasks.len() % live.len(),
    };
    let owners = owners_of(alloc, previous.items(), tasks)?;
    let kept = first_pass(alloc, share, live, &owners)?;
    let places = second_pass(alloc, live, &kept)?;
    Ok(Items::of(owned_at(alloc, tasks, &places)?))
}

/// The tasks and the workers at their places.
fn owned_at(
    alloc: Global,
    tasks: &[TaskName],
    places: &[Option<u32>],
) -> Result<Vec<Owned>, AllocError>
    ensures { IfOk result (λ owned. owned.items ≡ owned_at tasks.now places.now) }
{
    let mut owned = Vec::new(alloc);
    for (task, place) in tasks.iter().zip(places) {
        if let Some(worker) = place {
            owned.push(Owned {
                task: *task,
                worker: *worker,
            })?;
        }
    }
    Ok(owned)
}
