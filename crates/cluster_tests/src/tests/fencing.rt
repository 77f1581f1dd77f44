ghost use Rattle.std.specs.Prelude.{◌≡◌, IfOk};
ghost use Rattle.core_state.specs.Routes.{IsWriter, routes_of};
ghost use Rattle.topic_log.specs.Ready.{IsProposal};
ghost use Rattle.topic_log.specs.Shelves.{AreTopics};

use ksql_place::{Body, Change, Path, Place, Stamp};
use ksql_types::{Chars, Items, Key, StoreEntry, TaskName, TopicSpec, Writer};
use std::alloc::{AllocError, Global};
use std::test::Fail;
use task_commit::{Verdict, commit};
use topic_log::{Broker, Proposal};

const TASK: TaskName = TaskName { sub: 0, part: 0 };

/// A topic of one partition, which the task writes.
#[tactic(auto, unfolding(ksql_types::specs::Text::longest_text))]
fn one_topic(alloc: Global) -> Result<Vec<TopicSpec>, AllocError>
    ensures topics { IfOk result (λ topics. AreTopics topics.items) }
    ensures written { IfOk result (λ topics. IsWriter (routes_of topics.items) TASK) }
{
    let topic = TopicSpec {
        number: 0,
        name: Chars::of(String::new(alloc))?,
        partitions: 1,
        writer: Some(Writer {
            sub: 0,
            partitions: 1,
        }),
    };
    Ok(vec![in alloc; topic]?)
}

/// The change that a record of the first feed causes.
fn change(alloc: Global) -> Change
    ensures { result.place.stamp.feed ≡ 1 }
{
    Change {
        place: Place {
            stamp: Stamp {
                feed: 1,
                high: 0,
                topic: 0,
                part: 0,
                offset: 0,
            },
            path: Path::root(),
        },
        time: 0,
        key: Key::of(Vec::new(alloc)),
        span: None,
        body: Body::Said(Items::of(Vec::new(alloc))),
    }
}

/// What the task's first generation proposes for the first feed: a change, and a deletion in a store.
fn proposal(alloc: Global) -> Result<Proposal, AllocError>
    ensures task { IfOk result (λ proposal. proposal.task ≡ TASK) }
    ensures generation { IfOk result (λ proposal. proposal.generation ≡ 1) }
    ensures proposal { IfOk result IsProposal }
{
    let deletion = StoreEntry {
        store: 0,
        key: Items::of(Vec::new(alloc)),
        value: None,
    };
    Ok(Proposal {
        task: TASK,
        generation: 1,
        from: 0,
        to: 1,
        outputs: Items::of(vec![in alloc; change(alloc)]?),
        entries: Items::of(vec![in alloc; deletion]?),
    })
}

#[test]
fn a_proposal_of_an_older_generation_is_fenced(rt: HostRuntime) -> Result<(), Fail> {
    let alloc = rt.alloc();
    let topics = one_topic(alloc)?;
    let mut broker = Broker::new(alloc, topics.as_slice())?;
    let prepared = broker
        .prepare(alloc, proposal(alloc)?)
        .map_err(|_| AllocError)?;
    assert_eq!(rt; broker.raise(TASK), 2);
    let fenced = Verdict::Fenced { held: 1, newest: 2 };
    assert_eq!(rt; commit(&mut broker, prepared), fenced);
    assert_eq!(rt; broker.done(TASK), 0);
    assert!(rt; broker.logs(TASK).is_empty());
    for part in 0..broker.partitions(0) {
        assert!(rt; broker.visible(0, part).said.is_empty());
    }
    Ok(())
}
