ghost use Rattle.std.specs.Prelude.{◌≡◌, ℕ, ◌<◌, [], IfOk, length};
ghost use Rattle.core_state.specs.Routes.{IsWriter, routes_of};
ghost use Rattle.topic_log.specs.Shelves.{AreTopics, routes_in, topics_of};

use crate::commits::{commit, proposal};
use crate::feeds::feed_three;
use ksql_types::{Chars, TaskName, TopicSpec, Writer};
use std::alloc::{AllocError, Global};
use topic_log::{Broker, Entries};

/// A topic of two partitions.
#[tactic(auto, unfolding(ksql_types::specs::Text::longest_text))]
fn topic(alloc: Global, number: u32, writer: Option<Writer>) -> Result<TopicSpec, AllocError>
    ensures number { IfOk result (λ topic. topic.number ≡ number) }
    ensures partitions { IfOk result (λ topic. topic.partitions ≡ 2) }
    ensures writer { IfOk result (λ topic. topic.writer ≡ writer) }
{
    let name = Chars::of(String::new(alloc))?;
    Ok(TopicSpec {
        number,
        name,
        partitions: 2,
        writer,
    })
}

/// A source with the number 0, and a topic that the two tasks of sub-topology 0 write.
fn source_and_topic(alloc: Global) -> Result<Vec<TopicSpec>, AllocError>
    ensures topics { IfOk result (λ topics. AreTopics topics.items) }
    ensures count { IfOk result (λ topics. length topics.items ≡ 2) }
    ensures source { IfOk result (λ topics. (routes_of topics.items).writers 0 ≡ []) }
    ensures written { IfOk result (λ topics. (part : ℕ) → part < 2 → IsWriter (routes_of topics.items) (record { sub = 0; part = part })) }
{
    let writer = Writer {
        sub: 0,
        partitions: 2,
    };
    let source = topic(alloc, 0, None)?;
    let written = topic(alloc, 1, Some(writer))?;
    Ok(vec![in alloc; source, written]?)
}

/// The same topics, for those who feed nothing.
fn two_topics(alloc: Global) -> Result<Vec<TopicSpec>, AllocError>
    ensures topics { IfOk result (λ topics. AreTopics topics.items) }
    ensures count { IfOk result (λ topics. length topics.items ≡ 2) }
    ensures written { IfOk result (λ topics. (part : ℕ) → part < 2 → IsWriter (routes_of topics.items) (record { sub = 0; part = part })) }
{
    source_and_topic(alloc)
}

/// Appends the offset of each entry that a partition shows.
fn push_offsets(shown: &mut String, entries: Entries<'_>) -> Result<(), AllocError> {
    for record in entries.fed {
        write!(shown, " {}", record.stamp.offset)?;
    }
    for change in entries.said {
        write!(shown, " {}", change.place.stamp.offset)?;
    }
    Ok(())
}

/// Appends what the partitions of a topic show.
fn push_topic(shown: &mut String, broker: &Broker, topic: u32) -> Result<(), AllocError>
    requires { topic < length (topics_of broker.now) }
{
    write!(shown, "; {topic} closed {}", broker.closed(topic))?;
    for part in 0..broker.partitions(topic) {
        write!(shown, ", {part}:")?;
        push_offsets(shown, broker.visible(topic, part))?;
    }
    Ok(())
}

/// What the two topics of a broker show.
fn topics_shown(alloc: Global, broker: &Broker) -> Result<String, AllocError>
    requires { length (topics_of broker.now) ≡ 2 }
{
    let mut shown = format!(in alloc; "fed {}", broker.fed())?;
    push_topic(&mut shown, broker, 0)?;
    push_topic(&mut shown, broker, 1)?;
    Ok(shown)
}

/// What a task has committed, its newest generation, and how many entries its changelog has.
fn task_shown(alloc: Global, broker: &Broker, task: TaskName) -> Result<String, AllocError>
    requires { IsWriter (routes_in broker.now) task }
{
    let (done, newest) = (broker.done(task), broker.newest(task));
    format!(in alloc;
        "; done {done} newest {newest} logs {}",
        broker.logs(task).len()
    )
}

fn begun(alloc: Global) -> Result<String, AllocError> {
    let topics = two_topics(alloc)?;
    let broker = Broker::new(alloc, topics.as_slice())?;
    let first = task_shown(alloc, &broker, TaskName { sub: 0, part: 0 })?;
    let second = task_shown(alloc, &broker, TaskName { sub: 0, part: 1 })?;
    format!(in alloc; "{}{first}{second}", topics_shown(alloc, &broker)?)
}

fn raised(alloc: Global) -> Result<String, AllocError> {
    let topics = two_topics(alloc)?;
    let mut broker = Broker::new(alloc, topics.as_slice())?;
    let second = TaskName { sub: 0, part: 1 };
    let numbers = (broker.raise(second), broker.raise(second));
    let first = task_shown(alloc, &broker, TaskName { sub: 0, part: 0 })?;
    format!(in alloc; "{numbers:?}{first}{}", task_shown(alloc, &broker, second)?)
}

fn fed(alloc: Global) -> Result<String, AllocError> {
    let topics = source_and_topic(alloc)?;
    let mut broker = Broker::new(alloc, topics.as_slice())?;
    if broker.partitions(0) != 2 {
        return Err(AllocError);
    }
    let feed = feed_three(alloc, &mut broker)?;
    format!(in alloc; "{feed}; {}", topics_shown(alloc, &broker)?)
}

fn prepared(alloc: Global) -> Result<String, AllocError> {
    let topics = two_topics(alloc)?;
    let mut broker = Broker::new(alloc, topics.as_slice())?;
    let prepared = broker
        .prepare(alloc, proposal(alloc, TaskName { sub: 0, part: 0 }, 2, 5)?)
        .map_err(|_| AllocError)?;
    let first = task_shown(alloc, &broker, TaskName { sub: 0, part: 0 })?;
    format!(in alloc; "{}; {}{first}", prepared.to, topics_shown(alloc, &broker)?)
}

fn committed(alloc: Global) -> Result<String, AllocError> {
    let topics = two_topics(alloc)?;
    let mut broker = Broker::new(alloc, topics.as_slice())?;
    commit(alloc, &mut broker, TaskName { sub: 0, part: 0 }, 2, 5)?;
    let before = topics_shown(alloc, &broker)?;
    commit(alloc, &mut broker, TaskName { sub: 0, part: 1 }, 3, 4)?;
    format!(in alloc; "{before}; {}", topics_shown(alloc, &broker)?)
}

/// What a broker of two topics tells after what a word says.
pub fn told(alloc: Global, word: &str) -> Result<String, AllocError> {
    match word {
        "new" => begun(alloc),
        "raise" => raised(alloc),
        "feed" => fed(alloc),
        "prepare" => prepared(alloc),
        _ => committed(alloc),
    }
}
