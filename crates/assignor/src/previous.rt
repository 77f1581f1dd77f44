//! Who had the tasks before.
ghost use Rattle.std.specs.Prelude.{◌≡◌, map, IfOk};
ghost use Rattle.std.specs.BTreeMap.{get};
ghost use Rattle.ksql_types.specs.declared.relation.TaskName.{TaskName};
ghost use Rattle.ksql_types.specs.Order.{task_cmp};
ghost use Rattle.assignor.specs.Rule.{owner_of};

use crate::assignment::Owned;
use ksql_types::TaskName;
use std::alloc::{AllocError, Global};
use std::collections::BTreeMap;

type Owners = BTreeMap<TaskName, u32>;

fn owners_by_task(alloc: Global, previous: &[Owned]) -> Result<Owners, AllocError>
    ensures { IfOk result (λ owners. (task : TaskName) → get task_cmp owners task ≡ owner_of previous.now task) }
{
    let mut owners = BTreeMap::new(alloc);
    for owned in previous {
        owners.insert(owned.task, owned.worker)?;
    }
    Ok(owners)
}

/// The previous owner of each task.
pub fn owners_of(
    alloc: Global,
    previous: &[Owned],
    tasks: &[TaskName],
) -> Result<Vec<Option<u32>>, AllocError>
    ensures { IfOk result (λ owners. owners.items ≡ map (owner_of previous.now) tasks.now) }
{
    let by_task = owners_by_task(alloc, previous)?;
    let mut owners = Vec::new(alloc);
    for task in tasks {
        owners.push(by_task.get(task).copied())?;
    }
    Ok(owners)
}
