ghost use Rattle.std.specs.Prelude.{All};
ghost use Rattle.cluster_core.specs.Cluster.{IsBuilt};

use crate::{Fault, Ran, run};
use cluster_core::Step;
use core_state::JournalEntry;
use ksql_types::TaskName;
use std::alloc::{AllocError, Global};
use std::test::Fail;

mod fencing;
mod plain;
mod windows;

/// The number of times that each page was looked at.
const PAGES: &str = "CREATE STREAM K (ID VARCHAR KEY, PAGE VARCHAR)
  WITH (KAFKA_TOPIC='k', VALUE_FORMAT='JSON', PARTITIONS=2);
CREATE TABLE P AS SELECT PAGE, COUNT(*) AS C FROM K GROUP BY PAGE;
";

const TWO_LOOKS: &str = "{\"t\":1,\"k\":\"a\",\"v\":{\"PAGE\":\"x\"}}
{\"t\":2,\"k\":\"b\",\"v\":{\"PAGE\":\"x\"}}
";

const NOTHING_SHOWN: &str = "
table P query c=0 changes=0 rows=0
end
";

const TWO_SHOWN: &str = "
table P query c=1 changes=2 rows=1
{\"p\":0,\"t\":1,\"k\":\"x\",\"v\":{\"C\":1}}
{\"p\":0,\"t\":2,\"k\":\"x\",\"v\":{\"C\":2}}
row {\"t\":2,\"k\":\"x\",\"v\":{\"C\":2}}
end
";

/// Runs the pages on two looks at one.
fn pages(alloc: Global, workers: u32, steps: Vec<Step>) -> Result<Ran, Fault>
    requires { All IsBuilt steps.items }
{
    run(alloc, PAGES, &[TWO_LOOKS], workers, steps)
}

/// A round in which no worker is lost.
fn round() -> Step
    ensures { IsBuilt result }
{
    Step::Round {
        lost: None,
        stalled: None,
    }
}

/// A round in which this worker is lost.
fn round_losing(worker: u32) -> Step
    ensures { IsBuilt result }
{
    Step::Round {
        lost: Some(worker),
        stalled: None,
    }
}

/// A journal as text, one event per line.
fn journal_text(alloc: Global, ran: &Ran) -> Result<String, AllocError> {
    let mut text = String::new(alloc);
    for entry in ran.cluster.journal() {
        push_event(&mut text, entry)?;
    }
    Ok(text)
}

/// Appends an event.
fn push_event(text: &mut String, entry: &JournalEntry) -> Result<(), AllocError> {
    match entry {
        JournalEntry::Step { line } => writeln!(text, "step {line}"),
        JournalEntry::Round { number } => writeln!(text, "round {number}"),
        JournalEntry::Fed { feed, records } => writeln!(text, "fed {feed} records {records}"),
        JournalEntry::Committed { task, from, to } => {
            let TaskName { sub, part } = task;
            writeln!(text, "committed {sub}_{part} {from} to {to}")
        }
        JournalEntry::Left { task, generation } => {
            let TaskName { sub, part } = task;
            writeln!(text, "left {sub}_{part} generation {generation}")
        }
        JournalEntry::Restored {
            task,
            worker,
            generation,
            done,
        } => {
            let TaskName { sub, part } = task;
            writeln!(
                text,
                "restored {sub}_{part} worker {worker} generation {generation} done {done}"
            )
        }
        JournalEntry::Fenced { task, held, newest } => {
            let TaskName { sub, part } = task;
            writeln!(text, "fenced {sub}_{part} held {held} newest {newest}")
        }
    }
}

/// The last feed that each task committed.
fn dones(alloc: Global, ran: &Ran) -> Result<Vec<u64>, AllocError> {
    ran.tasks
        .iter()
        .map(|standing| standing.done)
        .collect(alloc)
}

/// The newest generation of each task.
fn generations(alloc: Global, ran: &Ran) -> Result<Vec<u64>, AllocError> {
    ran.tasks
        .iter()
        .map(|standing| standing.newest)
        .collect(alloc)
}

#[test]
fn a_round_commits_one_sub_topology_after_another(rt: HostRuntime) -> Result<(), Fail> {
    let alloc = rt.alloc();
    let one = pages(alloc, 1, vec![in alloc; Step::FeedAll, round()]?)?;
    assert_eq!(rt; one.closed.as_slice(), [1, 0].as_slice());
    assert_eq!(rt; dones(alloc, &one)?.as_slice(), [1, 1, 0, 0].as_slice());
    let two = pages(alloc, 1, vec![in alloc; Step::FeedAll, round(), round()]?)?;
    assert_eq!(rt; two.closed.as_slice(), [1, 1].as_slice());
    assert_eq!(rt; dones(alloc, &two)?.as_slice(), [1, 1, 1, 1].as_slice());
    Ok(())
}

const LOST_WORKER: &str = "step 0
restored 0_0 worker 1 generation 1 done 0
restored 0_1 worker 1 generation 1 done 0
restored 1_0 worker 1 generation 1 done 0
restored 1_1 worker 1 generation 1 done 0
step 1
fed 1 records 2
step 2
round 1
left 0_0 generation 2
left 0_1 generation 2
left 1_0 generation 2
left 1_1 generation 2
step 3
restored 0_0 worker 2 generation 2 done 0
restored 0_1 worker 2 generation 2 done 0
restored 1_0 worker 2 generation 2 done 0
restored 1_1 worker 2 generation 2 done 0
step 4
round 2
committed 0_0 0 to 1
committed 0_1 0 to 1
round 3
committed 1_0 0 to 1
committed 1_1 0 to 1
";

#[test]
fn another_worker_does_what_a_lost_one_did_not_commit(rt: HostRuntime) -> Result<(), Fail> {
    let alloc = rt.alloc();
    let steps = vec![in alloc; Step::FeedAll, round_losing(1), Step::Start(2), Step::Drain]?;
    let ran = pages(alloc, 1, steps)?;
    assert_eq!(rt; journal_text(alloc, &ran)?.as_str(), LOST_WORKER);
    assert!(rt; ran.report.ends_with(TWO_SHOWN));
    Ok(())
}

#[test]
fn a_topic_waits_for_the_tasks_of_a_lost_worker(rt: HostRuntime) -> Result<(), Fail> {
    let alloc = rt.alloc();
    let early = pages(
        alloc,
        2,
        vec![in alloc; Step::FeedAll, round_losing(2), round()]?,
    )?;
    assert_eq!(rt; early.closed.as_slice(), [1, 0].as_slice());
    assert!(rt; early.report.ends_with(NOTHING_SHOWN));
    let steps = vec![in alloc; Step::FeedAll, round_losing(2), round(), round()]?;
    let late = pages(alloc, 2, steps)?;
    assert_eq!(rt; late.closed.as_slice(), [1, 1].as_slice());
    assert!(rt; late.report.ends_with(TWO_SHOWN));
    Ok(())
}

const FIVE_PARTITIONS: &str = "CREATE STREAM S5 (ID VARCHAR KEY, N INTEGER)
  WITH (KAFKA_TOPIC='s5', VALUE_FORMAT='JSON', PARTITIONS=5);
CREATE STREAM Z AS SELECT * FROM S5;
";

const ONE_MOVED: &str = "step 0
restored 0_0 worker 1 generation 1 done 0
restored 0_1 worker 2 generation 1 done 0
restored 0_2 worker 1 generation 1 done 0
restored 0_3 worker 2 generation 1 done 0
restored 0_4 worker 1 generation 1 done 0
step 1
left 0_4 generation 2
restored 0_4 worker 3 generation 2 done 0
";

#[test]
fn a_worker_that_comes_takes_no_more_than_its_share(rt: HostRuntime) -> Result<(), Fail> {
    let alloc = rt.alloc();
    let ran = run(
        alloc,
        FIVE_PARTITIONS,
        &[""],
        2,
        vec![in alloc; Step::Start(3)]?,
    )?;
    assert_eq!(rt; journal_text(alloc, &ran)?.as_str(), ONE_MOVED);
    Ok(())
}

const NO_WORKER: &str = "step 0
restored 0_0 worker 1 generation 1 done 0
restored 0_1 worker 1 generation 1 done 0
restored 1_0 worker 1 generation 1 done 0
restored 1_1 worker 1 generation 1 done 0
step 1
fed 1 records 2
step 2
left 0_0 generation 2
restored 0_0 worker 1 generation 2 done 0
step 3
left 0_0 generation 3
left 0_1 generation 2
left 1_0 generation 2
left 1_1 generation 2
step 4
round 1
step 5
restored 0_0 worker 1 generation 3 done 0
restored 0_1 worker 1 generation 2 done 0
restored 1_0 worker 1 generation 2 done 0
restored 1_1 worker 1 generation 2 done 0
step 6
round 2
committed 0_0 0 to 1
committed 0_1 0 to 1
round 3
committed 1_0 0 to 1
committed 1_1 0 to 1
";

#[test]
fn a_round_without_workers_changes_nothing(rt: HostRuntime) -> Result<(), Fail> {
    let alloc = rt.alloc();
    let first = TaskName { sub: 0, part: 0 };
    let steps = vec![in alloc;
        Step::FeedAll,
        Step::Lose(first),
        Step::Stop(1),
        round(),
        Step::Start(1),
        Step::Drain,
    ]?;
    let ran = pages(alloc, 1, steps)?;
    assert_eq!(rt; journal_text(alloc, &ran)?.as_str(), NO_WORKER);
    assert_eq!(rt;
        generations(alloc, &ran)?.as_slice(),
        [3, 2, 2, 2].as_slice()
    );
    assert!(rt; ran.report.ends_with(TWO_SHOWN));
    Ok(())
}
