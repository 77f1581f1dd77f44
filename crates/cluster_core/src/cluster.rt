//! The cluster and its steps.
ghost use Rattle.std.specs.Prelude.{◌≡◌, ◌+◌, Bool, All, IfOk, List, Some};
ghost use Rattle.std.specs.List.{AllZip};
ghost use Rattle.std.specs.List.Sorted.{IsStrictlyIncreasing};
ghost use Rattle.ksql_types.specs.declared.relation.TaskName.{TaskName as OneTask};
ghost use Rattle.ksql_place.specs.declared.change.SourceRecord.{SourceRecord as OneRecord};
ghost use Rattle.ksql_program.specs.Sound.{IsSound};
ghost use Rattle.ksql_program.specs.declared.program.Item.{Item as OneItem};
ghost use Rattle.topology.specs.Tasks.{chain_of};
ghost use Rattle.topology.specs.Topologies.{topology_of};
ghost use Rattle.feed_laws.specs.Feeds.{records_of};
ghost use Rattle.feed_laws.specs.Fitting.{AreFilesOf};
ghost use Rattle.task_core.specs.declared.task.Moved.{Moved as OneMoved};
ghost use Rattle.cluster_core.specs.Cluster.{CanMove, HasCome, HasComeWith, HasHappened, HasHappenedWith, IsBuilt};
ghost use Rattle.cluster_laws.specs.Tasks.{IsIdleAt};
ghost use Rattle.cluster_laws.specs.Progress.{Progress, after_assignment, after_line, after_loss, after_moves, after_steps, before_workers, feed, is_task, opening, round, rounds, taken, with_worker, without_worker};

use crate::rounds::{advance_all, commit_all};
use crate::seats::{leave_all, owners_of, seat_all, staying, staying_but};
use crate::sources::{Source, feed_sources, sources_of};
use crate::workers::{first_workers, with_worker, without_worker};
use assignor::{Owned, assign};
use cluster_laws::{Seat, texts_are_utf8};
use core_state::JournalEntry;
use feed_laws::feeds_fit;
use ksql_program::Program;
use ksql_types::TaskName;
use std::alloc::{AllocError, Global};
use topic_files::TopicLines;
use topic_log::Broker;
use topology::{Lined, Schedule, Step, Topology, chain_of, tasks_of};

/// A running topology: its broker, the live workers, the tasks at their owners, the remaining records of the topic
/// files, and the journal.
#[derive(Drop)]
pub struct Cluster {
    topology: Topology,
    chain: u32,
    broker: Broker,
    live: Vec<u32>,
    seats: Vec<Seat>,
    sources: Vec<Source>,
    rounds: u32,
    journal: Vec<JournalEntry>,
}

impl Cluster {
    /// A program's topology before its first step, with so many live workers and with the records of the topic files of its
    /// declared relations, one file for each. The program is sound.
    pub fn new(
        alloc: Global,
        program: &Program,
        topology: Topology,
        files: Vec<TopicLines>,
        workers: u32,
    ) -> Result<Cluster, AllocError>
        requires sound { IsSound program.now.items }
        requires topology { topology ≡ topology_of program.now.items }
        requires files { AreFilesOf program.now.items files.items }
        ensures { IfOk result (HasCome program.now.items (opening (topology_of program.now.items) program.now.items files.items workers)) }
    {
        let empty = Cluster::empty(alloc, program, topology, files)?;
        empty.assigned(alloc, first_workers(alloc, workers)?)
    }

    /// The same without any worker.
    fn empty(
        alloc: Global,
        program: &Program,
        topology: Topology,
        files: Vec<TopicLines>,
    ) -> Result<Cluster, AllocError>
        requires sound { IsSound program.now.items }
        requires topology { topology ≡ topology_of program.now.items }
        requires files { AreFilesOf program.now.items files.items }
        ensures { IfOk result (HasCome program.now.items (before_workers program.now.items files.items)) }
    {
        feeds_fit();
        texts_are_utf8(program);
        let broker = Broker::new(alloc, topology.topics.items())?;
        let sources = sources_of(alloc, program.items.items(), files)?;
        Ok(Cluster {
            chain: chain_of(alloc, &topology)?,
            topology,
            broker,
            live: Vec::new(alloc),
            seats: Vec::new(alloc),
            sources,
            rounds: 0,
            journal: vec![in alloc; JournalEntry::Step { line: 0 }]?,
        })
    }

    /// The cluster after a step of a schedule, one in which no worker stalls or wakes. Fails with out of memory at 2^32
    /// rounds or 2^64 feeds.
    pub fn step(self, alloc: Global, step: &Lined) -> Result<Cluster, AllocError>
        requires built { IsBuilt step.now.step }
        requires come { (items : List OneItem) × (p : Progress) × IsSound items × HasCome items p self }
        ensures come { IfOk result (λ next. (items : List OneItem) (p : Progress) → IsSound items → HasCome items p self →
            HasCome items (after_line self.topology p step.now) next) }
        ensures events { IfOk result (λ next. (items : List OneItem) (p : Progress) → IsSound items → HasCome items p self →
            HasHappened items (records_of (p.fed + 1) (taken step.now.step) p.sources) self next) }
    {
        let mut cluster = self;
        cluster
            .journal
            .push(JournalEntry::Step { line: step.line })?;
        match &step.step {
            Step::FeedAll => cluster.fed(alloc, &step.step),
            Step::Feed(_) => cluster.fed(alloc, &step.step),
            Step::Round { lost, .. } => cluster.round_losing(alloc, *lost),
            Step::Start(worker) => cluster.with(alloc, *worker),
            Step::Stop(worker) => cluster.without(alloc, *worker),
            Step::Lose(task) => cluster.losing(alloc, *task),
            Step::Drain => cluster.drained(alloc),
            Step::Wake(_) => unreachable!(),
        }
    }

    /// The broker.
    pub fn broker(&self) -> &Broker
        ensures { result.now ≡ self.now.broker }
    {
        &self.broker
    }

    /// The topology.
    pub fn topology(&self) -> &Topology
        ensures { result.now ≡ self.now.topology }
    {
        &self.topology
    }

    /// What happened, in order.
    pub fn journal(&self) -> &[JournalEntry]
        ensures { result.now ≡ self.now.journal.items }
    {
        self.journal.as_slice()
    }

    /// The cluster after the feed of a step.
    fn fed(mut self, alloc: Global, step: &Step) -> Result<Cluster, AllocError>
        requires come { (items : List OneItem) × (p : Progress) × IsSound items × HasCome items p self }
        ensures come { IfOk result (λ next. (items : List OneItem) (p : Progress) → IsSound items → HasCome items p self →
            HasCome items (feed (taken step.now) p) next) }
        ensures events { IfOk result (λ next. (items : List OneItem) (p : Progress) → IsSound items → HasCome items p self →
            HasHappened items (records_of (p.fed + 1) (taken step.now) p.sources) self next) }
    {
        feeds_fit();
        if self.broker.fed() == u64::MAX {
            return Err(AllocError);
        }
        let feed = self.broker.fed() + 1;
        self.broker.has_parts();
        let (sources, records) = feed_sources(alloc, self.sources, feed, step)?;
        self.journal.push(JournalEntry::Fed {
            feed,
            records: records.len() as u64,
        })?;
        self.broker.feed(alloc, records)?;
        Ok(Cluster { sources, ..self })
    }

    /// The cluster after as many rounds as its longest path has sub-topologies.
    fn drained(self, alloc: Global) -> Result<Cluster, AllocError>
        requires come { (items : List OneItem) × (p : Progress) × IsSound items × HasCome items p self }
        ensures come { IfOk result (λ next. (items : List OneItem) (p : Progress) → IsSound items → HasCome items p self →
            HasCome items (rounds self.topology (chain_of self.topology.subs) p) next) }
        ensures events { IfOk result (λ next. (items : List OneItem) (p : Progress) (records : List OneRecord) → IsSound items → HasCome items p self →
            HasHappened items records self next) }
    {
        let chain = self.chain;
        let mut cluster = self;
        for _turn in 0..chain {
            cluster = cluster.round(alloc, None)?;
        }
        Ok(cluster)
    }

    /// The cluster after a round in which a worker may be lost; if so, it is then gone.
    fn round_losing(self, alloc: Global, lost: Option<u32>) -> Result<Cluster, AllocError>
        requires come { (items : List OneItem) × (p : Progress) × IsSound items × HasCome items p self }
        ensures come { IfOk result (λ next. (items : List OneItem) (p : Progress) → IsSound items → HasCome items p self →
            HasCome items (after_loss lost self.topology (round lost self.topology p)) next) }
        ensures events { IfOk result (λ next. (items : List OneItem) (p : Progress) (records : List OneRecord) → IsSound items → HasCome items p self →
            HasHappened items records self next) }
    {
        let cluster = self.round(alloc, lost)?;
        match lost {
            None => Ok(cluster),
            Some(worker) => cluster.without(alloc, worker),
        }
    }

    /// The cluster after a round. The tasks of a lost worker stay as they were.
    fn round(mut self, alloc: Global, lost: Option<u32>) -> Result<Cluster, AllocError>
        requires come { (items : List OneItem) × (p : Progress) × IsSound items × HasCome items p self }
        ensures topology { IfOk result (λ next. next.topology ≡ self.topology) }
        ensures next { IfOk result (λ next. (items : List OneItem) (p : Progress) → IsSound items → HasCome items p self →
            HasCome items (round lost self.topology p) next) }
        ensures events { IfOk result (λ next. (items : List OneItem) (p : Progress) (records : List OneRecord) → IsSound items → HasCome items p self →
            HasHappened items records self next) }
    {
        if self.rounds == u32::MAX {
            return Err(AllocError);
        }
        let rounds = self.rounds + 1;
        self.journal.push(JournalEntry::Round { number: rounds })?;
        self.broker.has_parts();
        let seats = self.seats;
        let rans = advance_all(alloc, seats, &self.broker, lost)?;
        let seats = commit_all(alloc, &mut self.broker, rans, &mut self.journal)?;
        Ok(Cluster {
            seats,
            rounds,
            ..self
        })
    }

    /// The cluster with another live worker.
    fn with(self, alloc: Global, worker: u32) -> Result<Cluster, AllocError>
        requires come { (items : List OneItem) × (p : Progress) × IsSound items × HasCome items p self }
        ensures come { IfOk result (λ next. (items : List OneItem) (p : Progress) → IsSound items → HasCome items p self →
            HasCome items (after_assignment self.topology (with_worker worker p.live) p) next) }
        ensures events { IfOk result (λ next. (items : List OneItem) (p : Progress) (records : List OneRecord) → IsSound items → HasCome items p self →
            HasHappened items records self next) }
    {
        let live = with_worker(alloc, self.live.as_slice(), worker)?;
        self.assigned(alloc, live)
    }

    /// The cluster without a worker.
    fn without(self, alloc: Global, worker: u32) -> Result<Cluster, AllocError>
        requires come { (items : List OneItem) × (p : Progress) × IsSound items × HasCome items p self }
        ensures come { IfOk result (λ next. (items : List OneItem) (p : Progress) → IsSound items → HasCome items p self →
            HasCome items (after_assignment self.topology (without_worker worker p.live) p) next) }
        ensures events { IfOk result (λ next. (items : List OneItem) (p : Progress) (records : List OneRecord) → IsSound items → HasCome items p self →
            HasHappened items records self next) }
    {
        let live = without_worker(alloc, self.live.as_slice(), worker)?;
        self.assigned(alloc, live)
    }

    /// The cluster with other live workers, to which the tasks are reassigned.
    fn assigned(self, alloc: Global, live: Vec<u32>) -> Result<Cluster, AllocError>
        requires rises { IsStrictlyIncreasing live.items }
        requires come { (items : List OneItem) × (p : Progress) × (ms : List OneMoved) × IsSound items × HasComeWith items p ms self
            × AllZip (IsIdleAt live.items) self.seats.items ms }
        ensures come { IfOk result (λ next. (items : List OneItem) (p : Progress) (ms : List OneMoved) → IsSound items → HasComeWith items p ms self →
            AllZip (IsIdleAt live.items) self.seats.items ms → HasCome items (after_assignment self.topology live.items p) next) }
        ensures events { IfOk result (λ next. (items : List OneItem) (p : Progress) (ms : List OneMoved) (records : List OneRecord) → IsSound items →
            HasComeWith items p ms self → AllZip (IsIdleAt live.items) self.seats.items ms → HasHappenedWith items records ms self next) }
    {
        let tasks = tasks_of(alloc, &self.topology)?;
        let before = owners_of(alloc, self.seats.as_slice())?;
        let owners = assign(alloc, &before, live.as_slice(), tasks.as_slice())?;
        let stays = staying(alloc, self.seats.as_slice(), owners.items())?;
        let mut cluster = self;
        cluster.live = live;
        cluster.moved(alloc, stays.as_slice(), owners.items())
    }

    /// The cluster after the loss of a task, which is restored at its owner, if it has one.
    fn losing(self, alloc: Global, task: TaskName) -> Result<Cluster, AllocError>
        requires come { (items : List OneItem) × (p : Progress) × IsSound items × HasCome items p self }
        ensures come { IfOk result (λ next. (items : List OneItem) (p : Progress) → IsSound items → HasCome items p self →
            HasCome items (after_moves (is_task task) p.owners p) next) }
        ensures events { IfOk result (λ next. (items : List OneItem) (p : Progress) (records : List OneRecord) → IsSound items → HasCome items p self →
            HasHappened items records self next) }
    {
        let owners = owners_of(alloc, self.seats.as_slice())?;
        let stays = staying_but(alloc, self.seats.as_slice(), task)?;
        self.moved(alloc, stays.as_slice(), owners.items())
    }

    /// The cluster after some tasks left their owners: each task that has an owner among `owners`, and no instance, is
    /// restored.
    fn moved(
        mut self,
        alloc: Global,
        stays: &[bool],
        owners: &[Owned],
    ) -> Result<Cluster, AllocError>
        requires come { (items : List OneItem) × (p : Progress) × (ms : List OneMoved) × (leaves : OneTask → Bool) × IsSound items
            × HasComeWith items p ms self × CanMove self.topology leaves stays.now owners.now self.seats.items ms }
        ensures come { IfOk result (λ next. (items : List OneItem) (p : Progress) (ms : List OneMoved) (leaves : OneTask → Bool) → IsSound items →
            HasComeWith items p ms self → CanMove self.topology leaves stays.now owners.now self.seats.items ms → HasCome items (after_moves leaves owners.now p) next) }
        ensures events { IfOk result (λ next. (items : List OneItem) (p : Progress) (ms : List OneMoved) (leaves : OneTask → Bool) (records : List OneRecord) →
            IsSound items → HasComeWith items p ms self → CanMove self.topology leaves stays.now owners.now self.seats.items ms →
            HasHappenedWith items records ms self next) }
    {
        let seats = self.seats;
        let kept = leave_all(alloc, &mut self.broker, seats, stays, &mut self.journal)?;
        let seats = seat_all(
            alloc,
            &self.broker,
            &self.topology,
            kept,
            owners,
            &mut self.journal,
        )?;
        Ok(Cluster { seats, ..self })
    }
}

/// The cluster of a program's topology, with `workers` live workers at first, after the steps of a schedule in which no
/// worker stalls or wakes.
pub fn drive(
    alloc: Global,
    program: &Program,
    topology: Topology,
    files: Vec<TopicLines>,
    workers: u32,
    schedule: &Schedule,
) -> Result<Cluster, AllocError>
    requires sound { IsSound program.now.items }
    requires topology { topology ≡ topology_of program.now.items }
    requires files { AreFilesOf program.now.items files.items }
    requires built { All (λ l. IsBuilt l.step) schedule.now.steps }
    ensures { IfOk result (HasCome program.now.items (after_steps (topology_of program.now.items)
        (opening (topology_of program.now.items) program.now.items files.items workers) schedule.now.steps)) }
{
    let mut cluster = Cluster::new(alloc, program, topology, files, workers)?;
    for step in schedule.steps.items() {
        cluster = cluster.step(alloc, step)?;
    }
    Ok(cluster)
}
