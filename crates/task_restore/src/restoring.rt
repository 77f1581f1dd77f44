ghost use Rattle.std.specs.Prelude.{◌≡◌, All, IfOk, IsTrue};
ghost use Rattle.op_chain.specs.Chain.{MayLoad, has_operator, maps_after};

use ksql_types::{StoreEntry, TaskName};
use std::alloc::{AllocError, Global};
use task_core::Task;
use topology::Sub;

/// A task of a sub-topology restored from its changelog alone: its stores are the replay of the changelog, and it is
/// done with feed `done`. Each node must have an operator, and each entry must be loadable.
pub fn restore(
    alloc: Global,
    sub: &Sub,
    name: TaskName,
    generation: u64,
    logs: &[StoreEntry],
    done: u64,
) -> Result<Task, AllocError>
    requires operators { All (λ n. IsTrue (has_operator n)) sub.now.nodes }
    requires loadable { All (MayLoad sub.now.nodes) logs.now }
    ensures { IfOk result (λ task. task ≡ record {
      name = name;
      generation = generation;
      done = done;
      inputs = sub.now.inputs;
      nodes = sub.now.nodes;
      maps = maps_after sub.now.nodes logs.now;
    }) }
{
    let task = Task::fresh(alloc, sub, name, generation)?;
    task.load(alloc, logs, done)
}
