ghost use Rattle.std.specs.Prelude.{◌≡◌, ◌<◌, [], IfOk, OnOk};
ghost use Rattle.ksql_types.specs.declared.relation.TaskName.{TaskName as OneTask};
ghost use Rattle.core_state.specs.Routes.{IsWriter};
ghost use Rattle.topic_log.specs.Ready.{IsProposal};
ghost use Rattle.topic_log.specs.Shelves.{routes_in, shelf_of, topics_of};

use core_state::Proposal;
use ksql_place::{Body, Change, Path, Place, Stamp};
use ksql_types::{Items, Key, StoreEntry, TaskName};
use std::alloc::{AllocError, Global};
use topic_log::Broker;

/// A change without a key, of the first feed, whose record has this offset in this partition, where it goes too.
fn change(alloc: Global, part: u32, offset: u64) -> Change
    ensures { result.place ≡ record {
      stamp = record { feed = 1; high = 0; topic = 0; part = part; offset = offset };
      path = [];
    } }
{
    let stamp = Stamp {
        feed: 1,
        high: 0,
        topic: 0,
        part,
        offset,
    };
    Change {
        place: Place {
            stamp,
            path: Path::root(),
        },
        time: 0,
        key: Key::of(Vec::new(alloc)),
        span: None,
        body: Body::Said(Items::of(Vec::new(alloc))),
    }
}

/// A deletion in a task's first store.
fn deletion(alloc: Global) -> StoreEntry {
    StoreEntry {
        store: 0,
        key: Items::of(Vec::new(alloc)),
        value: None,
    }
}

/// What a task proposes for the first feed: two changes in partition 0, whose offsets ascend, and one in
/// partition 1; and a deletion.
pub fn proposal(
    alloc: Global,
    task: TaskName,
    first: u64,
    second: u64,
) -> Result<Proposal, AllocError>
    requires { first < second }
    ensures task { IfOk result (λ made. made.task ≡ task) }
    ensures from { IfOk result (λ made. made.from ≡ 0) }
    ensures proposal { IfOk result IsProposal }
{
    let outputs = vec![in alloc;
        change(alloc, 0, first),
        change(alloc, 0, second),
        change(alloc, 1, first),
    ]?;
    let entries = vec![in alloc; deletion(alloc)]?;
    Ok(Proposal {
        task,
        generation: 1,
        from: 0,
        to: 1,
        outputs: Items::of(outputs),
        entries: Items::of(entries),
    })
}

/// Commits what a task proposes for the first feed.
pub fn commit(
    alloc: Global,
    broker: &mut Broker,
    task: TaskName,
    first: u64,
    second: u64,
) -> Result<(), AllocError>
    requires writer { IsWriter (routes_in broker.old) task }
    requires begins { (shelf_of broker.old).done task ≡ 0 }
    requires ascends { first < second }
    ensures topics { OnOk result (topics_of broker.new ≡ topics_of broker.old) }
    ensures others { OnOk result ((u : OneTask) → IsWriter (routes_in broker.old) u → ¬ (u ≡ task) →
        (shelf_of broker.new).done u ≡ (shelf_of broker.old).done u) }
{
    match broker.prepare(alloc, proposal(alloc, task, first, second)?) {
        Ok(prepared) => {
            broker.apply(prepared);
            Ok(())
        }
        Err(_) => Err(AllocError),
    }
}
