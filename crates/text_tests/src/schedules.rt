use crate::streams::stream;
use ksql_program::{Item, Program};
use ksql_types::Items;
use schedule_text::read_schedule;
use std::alloc::{AllocError, Global};
use topology::{Lined, Step, Sub, SubInput, Topology};

/// Streams over the topics `k` and `all`.
fn program(alloc: Global) -> Result<Program, AllocError> {
    let mut items = Vec::new(alloc);
    items.push(Item::Declared(stream(alloc, 0, "k")?))?;
    items.push(Item::Declared(stream(alloc, 1, "all")?))?;
    Ok(Program {
        items: Items::of(items),
    })
}

/// A sub-topology of two partitions that reads a topic and writes the next one.
fn sub(alloc: Global, number: u32, topic: u32) -> Result<Sub, AllocError> {
    let input = SubInput {
        topic,
        relation: topic,
        keys: 1,
    };
    let output = topic.saturating_add(1);
    Ok(Sub {
        number,
        query: output,
        partitions: 2,
        inputs: Items::of(vec![in alloc; input]?),
        nodes: Items::of(Vec::new(alloc)),
        output,
    })
}

/// A chain of so many sub-topologies.
fn topology(alloc: Global, count: u32) -> Result<Topology, AllocError> {
    let mut subs = Vec::new(alloc);
    for number in 0..count {
        subs.push(sub(alloc, number, number.saturating_add(1))?)?;
    }
    Ok(Topology {
        topics: Items::of(Vec::new(alloc)),
        subs: Items::of(subs),
    })
}

/// The bytes of a text. The letter `ÿ` stands for a byte that is in no text, 255.
fn bytes(alloc: Global, text: &str) -> Result<Vec<u8>, AllocError> {
    let mut bytes = Vec::new(alloc);
    for piece in text.split('ÿ') {
        bytes.extend_from_slice(piece.as_bytes())?;
        bytes.push(255)?;
    }
    bytes.pop();
    Ok(bytes)
}

/// Appends a step after its line.
fn push_step(shown: &mut String, lined: &Lined) -> Result<(), AllocError> {
    write!(shown, "; {}", lined.line)?;
    match &lined.step {
        Step::FeedAll => write!(shown, " feed all"),
        Step::Feed(counts) => {
            write!(shown, " feed")?;
            for count in counts.items() {
                write!(shown, " {} {}", count.topic, count.n)?;
            }
            Ok(())
        }
        Step::Round { lost, .. } => write!(shown, " round {lost:?}"),
        Step::Start(worker) => write!(shown, " start {worker}"),
        Step::Stop(worker) => write!(shown, " stop {worker}"),
        Step::Lose(task) => write!(shown, " lose {}_{}", task.sub, task.part),
        Step::Wake(worker) => write!(shown, " wake {worker}"),
        Step::Drain => write!(shown, " drain"),
    }
}

/// What is read of a schedule for so many workers and a chain of so many sub-topologies, from a text
/// `WORKERS SUBS | SCHEDULE`: each step, or the refused line.
pub fn steps(alloc: Global, text: &str) -> Result<String, AllocError> {
    let (counts, text) = text.split_once(" | ").unwrap_or(("", text));
    let (workers, subs) = counts.split_once(' ').unwrap_or((counts, ""));
    let workers = workers.parse::<u32>().unwrap_or(0);
    let topology = topology(alloc, subs.parse::<u32>().unwrap_or(0))?;
    let bytes = bytes(alloc, text)?;
    let read = read_schedule(alloc, &bytes, &program(alloc)?, &topology, workers);
    let schedule = match read {
        Ok(schedule) => schedule,
        Err(fault) => return format!(in alloc; "{fault}"),
    };
    let mut shown = String::from_str(alloc, "steps")?;
    for lined in schedule.steps.items() {
        push_step(&mut shown, lined)?;
    }
    Ok(shown)
}
