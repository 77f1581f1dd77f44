//! A run of a script: its program on a cluster that takes steps.
ghost use Rattle.std.specs.Prelude.{◌≡◌, All, IfOk};
ghost use Rattle.ksql_program.specs.Sound.{IsSound};
ghost use Rattle.topology.specs.Topologies.{topology_of};
ghost use Rattle.topic_log.specs.Shelves.{topics_of};
ghost use Rattle.cluster_core.specs.Cluster.{IsBuilt};
ghost use Rattle.cluster_tests.specs.Runs.{HasRun, IsTold, numbered};

use crate::fault::Fault;
use crate::files::files_of;
use crate::standing::{Standing, closed_of, standings_of};
use cluster_core::{Cluster, Lined, Schedule, Step, drive};
use ksql_program::Program;
use ksql_script::program_of_script;
use ksql_types::Items;
use run_text::broker_report;
use std::alloc::{AllocError, Global};
use topology::tasks_of;
use topology_build::build;

/// A cluster after some steps, and what its broker has: the feeds up to which the script's relations are closed, the
/// state of the tasks, and the report.
#[derive(Drop)]
pub struct Ran {
    pub cluster: Cluster,
    pub closed: Vec<u64>,
    pub tasks: Vec<Standing>,
    pub report: String,
}

/// Runs a script on a cluster with `workers` live workers at first, taking these steps, whose lines are 1, 2 and so on.
/// The texts are the topic files of the script's declared relations, in order; missing texts count as empty files.
pub fn run(
    alloc: Global,
    script: &str,
    texts: &[&str],
    workers: u32,
    steps: Vec<Step>,
) -> Result<Ran, Fault>
    requires { All IsBuilt steps.items }
    ensures { IfOk result (HasRun script.now workers steps.items) }
{
    let program = program_of_script(alloc, script.as_bytes())?;
    let files = files_of(alloc, program.items.items(), texts)?;
    let schedule = scheduled(alloc, steps)?;
    let topology = build(alloc, &program)?;
    let cluster = drive(alloc, &program, topology, files, workers, &schedule)?;
    Ok(told(alloc, &program, cluster)?)
}

/// The schedule of these steps, whose lines are 1, 2 and so on.
fn scheduled(alloc: Global, steps: Vec<Step>) -> Result<Schedule, AllocError>
    ensures { IfOk result (λ schedule. schedule.steps ≡ numbered 1 steps.items) }
{
    let mut lined = Vec::with_capacity(alloc, steps.len())?;
    let mut line = 0u32;
    for step in steps {
        line = line.checked_add(1).ok_or(AllocError)?;
        lined.push(Lined { line, step })?;
    }
    Ok(Schedule {
        steps: Items::of(lined),
    })
}

/// What the broker of a program's cluster has.
fn told(alloc: Global, program: &Program, cluster: Cluster) -> Result<Ran, AllocError>
    requires sound { IsSound program.now.items }
    requires topology { cluster.topology ≡ topology_of program.now.items }
    requires topics { topics_of cluster.broker ≡ (topology_of program.now.items).topics }
    ensures cluster { IfOk result (λ ran. ran.cluster ≡ cluster) }
    ensures told { IfOk result (IsTold program.now.items) }
{
    let names = tasks_of(alloc, cluster.topology())?;
    let closed = closed_of(alloc, cluster.broker(), program.items.items())?;
    let tasks = standings_of(alloc, cluster.broker(), names.as_slice())?;
    let report = broker_report(alloc, program, cluster.broker(), "")?;
    Ok(Ran {
        cluster,
        closed,
        tasks,
        report,
    })
}
