//! What a broker has of relations and tasks.
ghost use Rattle.std.specs.Prelude.{◌≡◌, All, IfOk, map};
ghost use Rattle.ksql_program.specs.Program.{relation_of, relations};
ghost use Rattle.core_state.specs.Routes.{IsWriter};
ghost use Rattle.topic_log.specs.Shelves.{routes_in};
ghost use Rattle.run_text.specs.Shown.{HasTopicOf};
ghost use Rattle.cluster_tests.specs.Runs.{closed_at, standing_at};

use ksql_program::{Item, relation_of};
use ksql_types::TaskName;
use std::alloc::{AllocError, Global};
use topic_log::Broker;

/// A task: the last feed that it committed, and its newest generation.
#[derive(Clone, Copy, Debug, PartialEq, Eq)]
pub struct Standing {
    pub task: TaskName,
    pub done: u64,
    pub newest: u64,
}

/// The feeds up to which the topics of these relations are closed.
pub(crate) fn closed_of(
    alloc: Global,
    broker: &Broker,
    items: &[Item],
) -> Result<Vec<u64>, AllocError>
    requires { All (HasTopicOf broker.now) (relations items.now) }
    ensures { IfOk result (λ closed. closed.items ≡ map (closed_at broker.now) (relations items.now)) }
{
    let mut closed = Vec::with_capacity(alloc, items.len())?;
    for item in items {
        closed.push(broker.closed(relation_of(item).number))?;
    }
    Ok(closed)
}

/// The state of these tasks.
pub(crate) fn standings_of(
    alloc: Global,
    broker: &Broker,
    tasks: &[TaskName],
) -> Result<Vec<Standing>, AllocError>
    requires { All (IsWriter (routes_in broker.now)) tasks.now }
    ensures { IfOk result (λ standings. standings.items ≡ map (standing_at broker.now) tasks.now) }
{
    let mut standings = Vec::with_capacity(alloc, tasks.len())?;
    for task in tasks {
        standings.push(Standing {
            task: *task,
            done: broker.done(*task),
            newest: broker.newest(*task),
        })?;
    }
    Ok(standings)
}
