//! Schedules drawn at random.
ghost use Rattle.std.specs.Prelude.{All, IfOk, ◌<◌};
ghost use Rattle.cluster_core.specs.Cluster.{IsBuilt};

use crate::random::Random;
use crate::scene::Scene;
use cluster_core::Step;
use ksql_types::{CopyOf, Items, TaskName};
use std::alloc::{AllocError, Global};
use topology::{Count, Counts};

/// The number of steps to draw.
const STEPS: u32 = 20;

/// The worker that comes at the end. Workers that are drawn have lower numbers.
const LAST_WORKER: u32 = 13;

/// Draws a schedule: some steps, then the remaining records, a worker that wasn't there before, and a drain.
pub fn draw(alloc: Global, random: &mut Random, scene: &Scene) -> Result<Vec<Step>, AllocError>
    ensures { IfOk result (λ steps. All IsBuilt steps.items) }
{
    let mut steps = Vec::new(alloc);
    for _ in 0..STEPS {
        steps.push(draw_step(alloc, random, scene)?)?;
    }
    steps.push(Step::FeedAll)?;
    steps.push(Step::Start(LAST_WORKER))?;
    steps.push(Step::Drain)?;
    Ok(steps)
}

/// Draws a step. A feed of all remaining records is rare, since nothing is fed after that.
fn draw_step(alloc: Global, random: &mut Random, scene: &Scene) -> Result<Step, AllocError>
    ensures { IfOk result IsBuilt }
{
    match random.below(40) {
        0 => Ok(Step::FeedAll),
        1..=12 => Ok(Step::Feed(draw_counts(alloc, random, scene)?)),
        13..=19 => Ok(round(None)),
        20..=25 => Ok(round(Some(draw_worker(random)))),
        26..=29 => Ok(Step::Start(draw_worker(random))),
        30..=33 => Ok(Step::Stop(draw_worker(random))),
        34..=37 => Ok(Step::Lose(draw_task(random, scene.tasks.as_slice()))),
        _ => Ok(Step::Drain),
    }
}

/// A round in which this worker is lost, if any.
fn round(lost: Option<u32>) -> Step
    ensures { IsBuilt result }
{
    Step::Round {
        lost,
        stalled: None,
    }
}

/// Draws how many records of each topic to feed: at most two.
fn draw_counts(alloc: Global, random: &mut Random, scene: &Scene) -> Result<Counts, AllocError> {
    let mut counts = Vec::new(alloc);
    for topic in &scene.topics {
        counts.push(Count {
            topic: *topic,
            n: u64::from(random.below(3)),
        })?;
    }
    Ok(Items::of(counts))
}

/// Draws a worker: one that is live, or not.
fn draw_worker(random: &mut Random) -> u32 {
    1 + random.below(LAST_WORKER - 1)
}

/// Draws one of the tasks, if there are any.
fn draw_task(random: &mut Random, tasks: &[TaskName]) -> TaskName {
    let count = u32::try_from(tasks.len()).unwrap_or(u32::MAX);
    if count == 0 {
        return TaskName { sub: 0, part: 0 };
    }
    tasks[random.below(count) as usize]
}

/// The feeds among some steps, and a drain.
pub fn feeds_of(alloc: Global, steps: &[Step]) -> Result<Vec<Step>, AllocError>
    ensures { IfOk result (λ feeds. All IsBuilt feeds.items) }
{
    let mut feeds = Vec::new(alloc);
    for step in steps {
        if let Step::FeedAll | Step::Feed(_) = step {
            feeds.push(step.copy(alloc)?)?;
        }
    }
    feeds.push(Step::Drain)?;
    Ok(feeds)
}
