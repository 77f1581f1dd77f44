//! A task and its step.
ghost use Rattle.std.specs.Prelude.{◌≡◌, [], ◌≤◌, ◌==◌, All, IfOk, IfNone, IfSome, IsSome, IsTrue, None, is_none};
ghost use Rattle.topic_log.specs.Shelves.{routes_in, shelf_of};
ghost use Rattle.op_chain.specs.Chain.{HaveOwnStores, MayLoad, StandAlong, has_operator, maps_after};
ghost use Rattle.task_core.specs.Readers.{IsOrdered, pending};
ghost use Rattle.task_core.specs.Tasks.{CanRead, CanStore, CanTake, IsProposedBy, IsProposedOver, IsSameTask, bound_of};

use crate::inputs::{Feeds, Kinds, bound_of, kind_read, reader_of};
use crate::reader::Reader;
use crate::running::made_of;
use core_state::Proposal;
use ksql_types::{CopyOf, Items, StoreEntry, TaskName};
use op_chain::Chain;
use std::alloc::{AllocError, Global};
use std::marker::Model;
use topic_log::Broker;
use topology::{Sub, SubInputs};

/// A task of a sub-topology: its generation, the last feed that it processed, and an operator for each of its nodes.
#[derive(Drop)]
pub struct Task {
    name: TaskName,
    generation: u64,
    done: u64,
    inputs: SubInputs,
    kinds: Kinds,
    chain: Chain,
}

impl Model for Task {
    ghost use Rattle.std.specs.Prelude.{◌≡◌};
    ghost use Rattle.op_chain.specs.Chain.{at_rest, maps_in};
    ghost use Rattle.task_core.specs.Codes.{task_code};
    ghost use Rattle.task_core.specs.Reading.{kind_read};
    ghost use Rattle.task_core.specs.Tasks.{TaskView};

    ghost Value = { TaskView };

    ghost coded = { task_code };

    ghost view = { λ t. record {
      name = t.name;
      generation = t.generation;
      done = t.done;
      inputs = t.inputs;
      nodes = t.chain.nodes;
      maps = maps_in t.chain;
    } };

    ghost invariant = { λ t. (t.chain ≡ at_rest t.chain.nodes (maps_in t.chain))
        × (t.kinds.left ≡ kind_read t.chain.nodes 0) × (t.kinds.right ≡ kind_read t.chain.nodes 1) };
}

/// A task after a step, and what it proposes to commit.
#[derive(Drop)]
pub struct Moved {
    pub task: Task,
    pub proposal: Option<Proposal>,
}

impl Task {
    /// A task that has processed nothing yet. Each node of the sub-topology must have an operator: a window is valid,
    /// and over a stream.
    pub fn fresh(
        alloc: Global,
        sub: &Sub,
        name: TaskName,
        generation: u64,
    ) -> Result<Task, AllocError>
        requires { All (λ n. IsTrue (has_operator n)) sub.now.nodes }
        ensures task { IfOk result (λ task. task ≡ record {
          name = name;
          generation = generation;
          done = 0;
          inputs = sub.now.inputs;
          nodes = sub.now.nodes;
          maps = maps_after sub.now.nodes [];
        }) }
        ensures stands { IfOk result (λ task. StandAlong task.nodes task.maps []) }
    {
        let nodes = sub.nodes.items();
        let kinds = Kinds {
            left: kind_read(nodes, 0),
            right: kind_read(nodes, 1),
        };
        let inputs = sub.inputs.copy(alloc)?;
        let chain = Chain::new(alloc, nodes)?;
        Ok(Task {
            name,
            generation,
            done: 0,
            inputs,
            kinds,
            chain,
        })
    }

    /// The task with the stores from replaying a changelog, done with feed `done`. After an error the task is gone.
    pub fn load(self, alloc: Global, logs: &[StoreEntry], done: u64) -> Result<Task, AllocError>
        requires { All (MayLoad self.nodes) logs.now }
        ensures { IfOk result (λ task. task ≡ record self { done = done; maps = maps_after self.nodes logs.now }) }
    {
        let Task {
            name,
            generation,
            inputs,
            kinds,
            mut chain,
            ..
        } = self;
        chain.load(alloc, logs)?;
        Ok(Task {
            name,
            generation,
            done,
            inputs,
            kinds,
            chain,
        })
    }

    /// The task after all entries of its inputs up to the feed up to which they are closed, and what it then proposes
    /// to commit: nothing if it is already done with that feed. The task isn't done with a later one.
    pub fn advance(self, alloc: Global, broker: &Broker) -> Result<Moved, AllocError>
        requires readable { CanRead broker.now self }
        requires within { self.done ≤ bound_of (routes_in broker.now) (shelf_of broker.now) self }
        requires stores { HaveOwnStores self.nodes }
        requires storable { CanStore (routes_in broker.now) (shelf_of broker.now) self }
        ensures same { IfOk result (λ moved. IsSameTask self moved.task) }
        ensures done { IfOk result (λ moved. moved.task.done ≡ bound_of (routes_in broker.now) (shelf_of broker.now) self) }
        ensures none { IfOk result (λ moved. is_none moved.proposal ≡ (bound_of (routes_in broker.now) (shelf_of broker.now) self == self.done)) }
        ensures still { IfOk result (λ moved. IfNone moved.proposal (moved.task ≡ self)) }
        ensures proposal { IfOk result (λ moved. IfSome moved.proposal (IsProposedBy (routes_in broker.now) (shelf_of broker.now) self moved.task)) }
    {
        let bound = bound_of(self.inputs.items(), broker);
        if bound == self.done {
            return Ok(self.still());
        }
        let feeds = self.feeds(bound);
        let reader = reader_of(broker, feeds, self.kinds, self.inputs.items());
        self.moved(alloc, reader, bound)
    }

    /// The unchanged task, which proposes nothing.
    fn still(self) -> Moved
        ensures task { result.task ≡ self }
        ensures proposal { result.proposal ≡ None }
    {
        Moved {
            task: self,
            proposal: None,
        }
    }

    /// The feeds after those that the task processed, up to `to`.
    fn feeds(&self, to: u64) -> Feeds
        ensures { result ≡ record { part = self.now.name.part; from = self.now.done; to = to } }
    {
        Feeds {
            part: self.name.part,
            from: self.done,
            to,
        }
    }

    /// The task after everything from a reader, up to feed `bound`, and what it then proposes to commit.
    fn moved(self, alloc: Global, reader: Reader, bound: u64) -> Result<Moved, AllocError>
        requires order { IsOrdered reader }
        requires stores { HaveOwnStores self.nodes }
        requires storable { CanTake self (pending reader) }
        ensures same { IfOk result (λ moved. IsSameTask self moved.task) }
        ensures done { IfOk result (λ moved. moved.task.done ≡ bound) }
        ensures some { IfOk result (λ moved. IsSome moved.proposal) }
        ensures proposal { IfOk result (λ moved. IfSome moved.proposal (IsProposedOver bound (pending reader.entry) self moved.task)) }
    {
        let Task {
            name,
            generation,
            done,
            inputs,
            kinds,
            mut chain,
        } = self;
        let made = made_of(&mut chain, alloc, reader)?;
        let proposal = Proposal {
            task: name,
            generation,
            from: done,
            to: bound,
            outputs: Items::of(made.outputs),
            entries: Items::of(made.entries),
        };
        let task = Task {
            name,
            generation,
            done: bound,
            inputs,
            kinds,
            chain,
        };
        Ok(Moved {
            task,
            proposal: Some(proposal),
        })
    }

    /// The task's name.
    pub fn name(&self) -> TaskName
        ensures { result ≡ self.now.name }
    {
        self.name
    }

    /// The last feed that the task processed.
    pub fn done(&self) -> u64
        ensures { result ≡ self.now.done }
    {
        self.done
    }

    /// The generation with which the task was made.
    pub fn generation(&self) -> u64
        ensures { result ≡ self.now.generation }
    {
        self.generation
    }
}
