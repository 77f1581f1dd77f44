//! Where the tasks are during assignment: each with a worker, or set aside.
ghost use Rattle.std.specs.Prelude.{◌≡◌, ◌+◌, ◌<◌, ◌^◌, [], All, IfOk};
ghost use Rattle.assignor.specs.Rule.{second_pass, first_pass};
ghost use Rattle.assignor.specs.Loads.{after_next, next_place, loads_of, kept_place_by};

use crate::assignment::Share;
use crate::loads::{Load, add_task, lightest, load_among, no_loads, workers_with};
use std::alloc::{AllocError, Global};

/// The first pass: decides for each task whether it stays with the worker that had it.
pub fn first_pass(
    alloc: Global,
    share: Share,
    live: &[u32],
    owners: &[Option<u32>],
) -> Result<Vec<Option<u32>>, AllocError>
    requires { share.low + 1 < 2 ^ 64 }
    ensures { IfOk result (λ places. places.items ≡ first_pass share live.now [] owners.now) }
{
    let mut loads = no_loads(alloc, live)?;
    let mut places = Vec::new(alloc);
    for owner in owners {
        let place = kept_place(&loads, share, *owner);
        add_task(&mut loads, place);
        places.push(place)?;
    }
    Ok(places)
}

fn kept_place(loads: &[Load], share: Share, owner: Option<u32>) -> Option<u32>
    requires { share.low + 1 < 2 ^ 64 }
    ensures { result ≡ kept_place_by share loads.now owner }
{
    let worker = owner?;
    let kept = load_among(loads, worker)?;
    let low = share.low;
    if kept < low || (kept == low && workers_with(loads, low + 1) < share.extra) {
        Some(worker)
    } else {
        None
    }
}

/// The second pass: gives each task that was set aside to a worker.
pub fn second_pass(
    alloc: Global,
    live: &[u32],
    kept: &[Option<u32>],
) -> Result<Vec<Option<u32>>, AllocError>
    ensures { IfOk result (λ places. places.items ≡ second_pass live.now [] kept.now) }
{
    let mut loads = loads_of(alloc, live, kept)?;
    let mut places = Vec::new(alloc);
    for place in kept {
        let place = next_place(&mut loads, *place);
        places.push(place)?;
    }
    Ok(places)
}

/// The place of the next task: where it stays, or else the worker with the fewest tasks, whose load grows by one.
fn next_place(loads: &mut [Load], place: Option<u32>) -> Option<u32>
    requires { All (λ load. load.tasks + 1 < 2 ^ 64) loads.old }
    ensures place { result ≡ next_place place loads.old }
    ensures loads { loads.new ≡ after_next place loads.old }
{
    match place {
        Some(worker) => Some(worker),
        None => {
            let worker = lightest(loads);
            add_task(loads, worker);
            worker
        }
    }
}

fn loads_of(alloc: Global, live: &[u32], places: &[Option<u32>]) -> Result<Vec<Load>, AllocError>
    ensures { IfOk result (λ loads. loads.items ≡ loads_of live.now places.now) }
{
    let mut loads = no_loads(alloc, live)?;
    for place in places {
        add_task(&mut loads, *place);
    }
    Ok(loads)
}
