//! The tasks of a topology, and the number of rounds that a record takes from a source to the last topic.
ghost use Rattle.std.specs.Prelude.{◌≡◌, ◌<◌, ◌++◌, ℕ, IfOk, OnOk, map, unwrap_or};
ghost use Rattle.std.specs.BTreeMap.{get};
ghost use Rattle.std.specs.List.{AllPairs};
ghost use Rattle.std.specs.Ordering.{nat_cmp};
ghost use Rattle.ksql_types.specs.Order.{task_cmp};
ghost use Rattle.ksql_place.specs.Ascending.{Rises};
ghost use Rattle.ksql_place.specs.Order.{greatest};
ghost use Rattle.topology.specs.Tasks.{chain_of, depth_after, tasks_of, tasks_of_sub};

use crate::topology::{Sub, SubInput, Topology};
use ksql_types::TaskName;
use std::alloc::{AllocError, Global};
use std::collections::BTreeMap;

/// The number of sub-topologies on the longest path to each topic, by the topic's number; no entry for a topic that
/// isn't there.
type Depths = BTreeMap<u32, usize>;

/// The tasks of a topology: sub-topology by sub-topology, then by partition. They ascend if the numbers of the
/// sub-topologies do.
pub fn tasks_of(alloc: Global, t: &Topology) -> Result<Vec<TaskName>, AllocError>
    ensures value { IfOk result (λ tasks. tasks.items ≡ tasks_of t.now.subs) }
    ensures ascending { AllPairs (λ a b. a.number < b.number) t.now.subs → IfOk result (λ tasks. Rises task_cmp tasks.items) }
{
    let subs = t.subs.items();
    let mut tasks = Vec::new(alloc);
    for sub in subs {
        push_tasks(&mut tasks, sub)?;
    }
    Ok(tasks)
}

/// Appends the tasks of a sub-topology.
fn push_tasks(tasks: &mut Vec<TaskName>, sub: &Sub) -> Result<(), AllocError>
    ensures { OnOk result (tasks.new.items ≡ tasks.old.items ++ tasks_of_sub sub.now) }
{
    for part in 0..sub.partitions {
        tasks.push(TaskName {
            sub: sub.number,
            part,
        })?;
    }
    Ok(())
}

/// The chain of a topology: the number of sub-topologies on its longest path from topic to topic. Fails with out of
/// memory at 2^32 or more, which no script makes.
pub fn chain_of(alloc: Global, t: &Topology) -> Result<u32, AllocError>
    ensures { IfOk result (λ chain. chain ≡ chain_of t.now.subs) }
{
    let subs = t.subs.items();
    let depths = depths_of(alloc, subs)?;
    u32::try_from(longest(&depths, subs)).map_err(|_| AllocError)
}

/// The number of sub-topologies on the longest path to each topic, if each sub-topology comes after those that it
/// reads.
fn depths_of(alloc: Global, subs: &[Sub]) -> Result<Depths, AllocError>
    ensures { IfOk result (λ depths. (topic : ℕ) → unwrap_or (get nat_cmp depths topic) 0 ≡ depth_after (λ topic. 0) subs.now topic) }
{
    let mut depths = BTreeMap::new(alloc);
    for sub in subs {
        let depth = 1 + deepest(&depths, sub.inputs.items());
        depths.insert(sub.output, depth)?;
    }
    Ok(depths)
}

/// The number of sub-topologies on the longest path to one of the inputs.
fn deepest(depths: &Depths, inputs: &[SubInput]) -> usize
    ensures { result ≡ greatest (map (λ input. unwrap_or (get nat_cmp depths.now input.topic) 0) inputs.now) }
{
    let mut deepest = 0usize;
    for input in inputs {
        deepest = deepest.max(depth_of(depths, input.topic));
    }
    deepest
}

/// The number of sub-topologies on the longest path to one of the topics that these sub-topologies write.
fn longest(depths: &Depths, subs: &[Sub]) -> usize
    ensures { result ≡ greatest (map (λ s. unwrap_or (get nat_cmp depths.now s.output) 0) subs.now) }
{
    let mut longest = 0usize;
    for sub in subs {
        longest = longest.max(depth_of(depths, sub.output));
    }
    longest
}

/// The number of sub-topologies on the longest path to a topic.
fn depth_of(depths: &Depths, topic: u32) -> usize
    ensures { result ≡ unwrap_or (get nat_cmp depths.now topic) 0 }
{
    depths.get(&topic).copied().unwrap_or(0)
}
