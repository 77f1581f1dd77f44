//! The state after some lines of a schedule, and what the next line means there.

ghost use Rattle.std.specs.Prelude.{◌≡◌, ◌+◌, ◌<◌, ◌≤◌, ◌^◌, ◌==◌, ◌&&◌, ◌∷◌, ◌++◌, ℕ, IfOk, IsTrue, List, [], OnOk, Some, filter, is_some, length, map, min, nat_lt, not, option_map};
ghost use Rattle.topology.specs.declared.schedule.Step.TheVariants as step;
ghost use Rattle.schedule_text.specs.declared.fault.StepWhy.TheVariants.{TooLarge, UnknownTopic};
ghost use Rattle.schedule_text.specs.Forms.{form_view, named, pair_view};
ghost use Rattle.schedule_text.specs.Refusals.{form_refusal, is_live, most_bytes, most_rounds, most_steps, refusal_of, refused_if, start_refusal};
ghost use Rattle.schedule_text.specs.Standing.{Answers, first, setting_view, standing_after, task_in};
ghost use Rattle.schedule_text.specs.Steps.{counts_of, live_after_one, rounds_of, step_of, step_of_line, topic_number, with_worker, without_worker};

use crate::fault::{LineFault, StepWhy};
use crate::forms::{Form, Pair, form_of_line};
use crate::lines::is_skipped;
use crate::words::{decimal, is_text};
use ksql_program::Item;
use ksql_types::{Items, TaskName};
use std::alloc::{AllocError, Global};
use topology::{Count, Counts, Step, Sub};

/// The most bytes of a schedule.
const MOST_BYTES: usize = 1_048_576;

/// The most steps of a schedule.
const MOST_STEPS: u32 = 10_000;

/// The most rounds of a schedule.
const MOST_ROUNDS: u64 = 100_000;

/// The most live workers.
const MOST_WORKERS: usize = 32;

/// What a schedule is read for: relations, sub-topologies and their chain, and the size of the text.
#[derive(Clone, Copy)]
pub(crate) struct Setting<'a> {
    pub(crate) items: &'a [Item],
    pub(crate) subs: &'a [Sub],
    pub(crate) chain: u32,
    pub(crate) size: usize,
}

/// The state after some lines: the numbers of lines and bytes, line feeds included, of steps and of rounds, and the
/// live workers in ascending order.
#[derive(Drop)]
pub(crate) struct Standing {
    pub(crate) lines: u32,
    pub(crate) bytes: usize,
    pub(crate) steps: u32,
    pub(crate) rounds: u64,
    pub(crate) live: Items<u32>,
}

impl Standing {
    /// The state before the first line: the workers 1 to `workers` are live.
    pub(crate) fn first(alloc: Global, workers: u32) -> Result<Standing, AllocError>
        ensures { IfOk result (λ s. s ≡ first workers) }
    {
        let mut live = Vec::new(alloc);
        for before in 0..workers {
            live.push(before + 1)?;
        }
        Ok(Standing {
            lines: 0,
            bytes: 0,
            steps: 0,
            rounds: 0,
            live: Items::of(live),
        })
    }

    /// Reads one more line: its step, or None if it is skipped; or why it is refused after the lines before.
    pub(crate) fn read_line(
        &mut self,
        alloc: Global,
        setting: &Setting,
        line: &[u8],
    ) -> Result<Option<Step>, LineFault>
        requires lines { self.old.lines + 1 < 2 ^ 32 }
        requires bytes { self.old.bytes + (length line.now + 1) < 2 ^ 64 }
        requires rounds { self.old.rounds ≤ most_rounds }
        ensures read { (workers : ℕ) (before : List (List ℕ)) → self.old ≡ standing_after (setting_view setting.now) workers before
            → Answers (λ step. step) result (refusal_of (setting_view setting.now) workers before line.now) (step_of_line setting.now.items.now line.now) }
        ensures stands { (workers : ℕ) (before : List (List ℕ)) → self.old ≡ standing_after (setting_view setting.now) workers before
            → OnOk result (self.new ≡ standing_after (setting_view setting.now) workers (before ++ line.now ∷ [])) }
        ensures lines { self.new.lines ≡ self.old.lines + 1 }
        ensures bytes { self.new.bytes ≡ self.old.bytes + (length line.now + 1) }
        ensures short { OnOk result (min self.new.bytes setting.now.size ≤ most_bytes) }
        ensures rounds { OnOk result (self.new.rounds ≤ most_rounds) }
    {
        self.lines += 1;
        self.bytes += line.len() + 1;
        if self.bytes.min(setting.size) > MOST_BYTES {
            return Err(LineFault::Refused(StepWhy::TooLarge));
        }
        if is_skipped(line) {
            return Ok(None);
        }
        if self.steps >= MOST_STEPS {
            return Err(LineFault::Refused(StepWhy::TooLarge));
        }
        let Some(form) = form_of_line(alloc, line)? else {
            return Err(LineFault::Refused(StepWhy::BadStep));
        };
        let step = step_of(alloc, setting, self.live.items(), form)?;
        self.take(alloc, setting.chain, &step)?;
        Ok(Some(step))
    }

    /// Takes a step, unless there would be too many rounds.
    fn take(&mut self, alloc: Global, chain: u32, step: &Step) -> Result<(), LineFault>
        requires steps { self.old.steps < most_steps }
        requires rounds { self.old.rounds ≤ most_rounds }
        ensures answer { Answers (λ _. step.now) result (refused_if (nat_lt most_rounds (self.old.rounds + rounds_of chain step.now)) TooLarge) step.now }
        ensures steps { OnOk result (self.new.steps ≡ self.old.steps + 1) }
        ensures taken { OnOk result (self.new.rounds ≡ self.old.rounds + rounds_of chain step.now) }
        ensures live { OnOk result (self.new.live ≡ live_after_one self.old.live step.now) }
        ensures lines { self.new.lines ≡ self.old.lines }
        ensures bytes { self.new.bytes ≡ self.old.bytes }
        ensures rounds { OnOk result (self.new.rounds ≤ most_rounds) }
    {
        let rounds = self.rounds + rounds_of(chain, step);
        if rounds > MOST_ROUNDS {
            return Err(LineFault::Refused(StepWhy::TooLarge));
        }
        move_workers(alloc, &mut self.live, step)?;
        self.steps += 1;
        self.rounds = rounds;
        Ok(())
    }
}

/// The number of rounds of a step, given the length of the topology's chain.
fn rounds_of(chain: u32, step: &Step) -> u64
    ensures value { result ≡ rounds_of chain step.now }
    ensures small { result < 2 ^ 32 }
{
    match step {
        Step::Round { .. } => 1,
        Step::Drain => u64::from(chain),
        _ => 0,
    }
}

/// Changes the live workers as a step does.
fn move_workers(alloc: Global, live: &mut Items<u32>, step: &Step) -> Result<(), AllocError>
    ensures { OnOk result (live.new ≡ live_after_one live.old step.now) }
{
    match step {
        Step::Round {
            lost: Some(lost),
            ..
        } => *live = without_worker(alloc, live.items(), *lost)?,
        Step::Start(worker) => *live = with_worker(alloc, live.items(), *worker)?,
        Step::Stop(worker) => *live = without_worker(alloc, live.items(), *worker)?,
        _ => {}
    }
    Ok(())
}

/// The live workers and one more.
fn with_worker(alloc: Global, live: &[u32], worker: u32) -> Result<Items<u32>, AllocError>
    ensures { IfOk result (λ more. more ≡ with_worker worker live.now) }
{
    let mut more = lower(alloc, live, worker)?;
    more.push(worker)?;
    more.append(&mut higher(alloc, live, worker)?)?;
    Ok(Items::of(more))
}

/// The live workers without one.
fn without_worker(alloc: Global, live: &[u32], worker: u32) -> Result<Items<u32>, AllocError>
    ensures { IfOk result (λ others. others ≡ without_worker worker live.now) }
{
    let mut others = lower(alloc, live, worker)?;
    others.append(&mut higher(alloc, live, worker)?)?;
    Ok(Items::of(others))
}

/// The workers with lower numbers.
fn lower(alloc: Global, live: &[u32], worker: u32) -> Result<Vec<u32>, AllocError>
    ensures { IfOk result (λ some. some.items ≡ filter (λ w. nat_lt w worker) live.now) }
{
    live.iter().copied().filter(|w| *w < worker).collect(alloc)
}

/// The workers with higher numbers.
fn higher(alloc: Global, live: &[u32], worker: u32) -> Result<Vec<u32>, AllocError>
    ensures { IfOk result (λ some. some.items ≡ filter (λ w. nat_lt worker w) live.now) }
{
    live.iter().copied().filter(|w| worker < *w).collect(alloc)
}

/// The step of a form, given the live workers, or why there is none.
fn step_of(alloc: Global, setting: &Setting, live: &[u32], form: Form) -> Result<Step, LineFault>
    ensures { Answers Some result (form_refusal (setting_view setting.now) live.now (Some (form_view form.entry))) (step_of setting.now.items.now (form_view form.entry)) }
{
    match form {
        Form::FeedAll => Ok(Step::FeedAll),
        Form::Feed(pairs) => feed_of(counts_of(alloc, setting.items, pairs.as_slice())?),
        Form::Round(None) => Ok(Step::Round {
            lost: None,
            stalled: None,
        }),
        Form::Round(Some(worker)) if is_live(live, worker) => Ok(Step::Round {
            lost: Some(worker),
            stalled: None,
        }),
        Form::Round(Some(_)) => Err(LineFault::Refused(StepWhy::UnknownWorker)),
        Form::Start(worker) => start(live, worker),
        Form::Stop(worker) if is_live(live, worker) => Ok(Step::Stop(worker)),
        Form::Stop(_) => Err(LineFault::Refused(StepWhy::UnknownWorker)),
        Form::Lose { sub, part } => match task_of(setting.subs, sub, part) {
            Some(task) => Ok(Step::Lose(task)),
            None => Err(LineFault::Refused(StepWhy::UnknownTask)),
        },
        Form::Drain if live.is_empty() => Err(LineFault::Refused(StepWhy::NoWorker)),
        Form::Drain => Ok(Step::Drain),
    }
}

/// A feed with these counts, or an error if they are None because a topic is unknown.
fn feed_of(counts: Option<Counts>) -> Result<Step, LineFault>
    ensures { Answers Some result (refused_if (not (is_some counts)) UnknownTopic) (option_map step.Feed counts) }
{
    match counts {
        Some(counts) => Ok(Step::Feed(counts)),
        None => Err(LineFault::Refused(StepWhy::UnknownTopic)),
    }
}

/// The step that starts a worker that isn't live, unless as many workers are live as allowed.
fn start(live: &[u32], worker: u32) -> Result<Step, LineFault>
    ensures { Answers (λ step. step) result (start_refusal live.now worker) (step.Start worker) }
{
    if is_live(live, worker) {
        return Err(LineFault::Refused(StepWhy::WorkerTaken));
    }
    if live.len() >= MOST_WORKERS {
        return Err(LineFault::Refused(StepWhy::TooLarge));
    }
    Ok(Step::Start(worker))
}

/// Whether a worker is live.
fn is_live(live: &[u32], worker: u32) -> bool
    ensures { result ≡ is_live live.now worker }
{
    live.contains(&worker)
}

/// The counts of a feed by topic number, or None if a topic is unknown.
fn counts_of(alloc: Global, items: &[Item], pairs: &[Pair]) -> Result<Option<Counts>, AllocError>
    ensures { IfOk result (λ counts. counts ≡ counts_of items.now (map pair_view pairs.now)) }
{
    let mut counts = Vec::new(alloc);
    for pair in pairs {
        let Some(topic) = topic_number(items, pair.topic) else {
            return Ok(None);
        };
        counts.push(Count { topic, n: pair.n })?;
    }
    Ok(Some(Items::of(counts)))
}

/// The number of the declared relation with a topic.
fn topic_number(items: &[Item], topic: &[u8]) -> Option<u32>
    ensures { result ≡ topic_number items.now topic.now }
{
    for item in items {
        if let Item::Declared(relation) = item {
            if is_text(topic, relation.topic.items()) {
                return Some(relation.number);
            }
        }
    }
    None
}

/// The task with these digits, if the topology has it.
fn task_of(subs: &[Sub], sub: &[u8], part: &[u8]) -> Option<TaskName>
    ensures { result ≡ task_in subs.now (named sub.now part.now) }
{
    let number = decimal(sub);
    let partition = decimal(part);
    for other in subs {
        if has_task(other, number, partition) {
            return Some(TaskName {
                sub: other.number,
                part: partition as u32,
            });
        }
    }
    None
}

/// Whether a sub-topology has this number and a task for this partition. Numbers above the greatest one may be given as
/// that.
fn has_task(other: &Sub, number: u64, partition: u64) -> bool
    ensures test { (sub part : ℕ) → number ≡ min sub u64.MAX → partition ≡ min part u64.MAX
        → result ≡ ((other.now.number == sub) && nat_lt part other.now.partitions) }
    ensures small { IsTrue result → partition < 2 ^ 32 }
{
    u64::from(other.number) == number && partition < u64::from(other.partitions)
}
