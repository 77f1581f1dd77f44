ghost use Rattle.std.specs.Prelude.{◌≡◌, ◌≤◌, All, IfErr, IfOk, IfSome, length};
ghost use Rattle.ksql_outside.specs.Outside.{MayJoin};
ghost use Rattle.command_line.specs.Words.{longest_word};
ghost use Rattle.ksql_program.specs.Sound.{IsSound};
ghost use Rattle.cluster_core.specs.Cluster.{HasCome, IsBuilt};
ghost use Rattle.ksql_cli.specs.Command.{IsProgramRead, IsScheduled, RunCause, fed_once};
ghost use Rattle.ksql_cli.specs.Run.{progress};
ghost use Rattle.ksql_cli.specs.Stages.{AreDueIn, AreInputs, HasShortNames, IsExpected, IsRunRefusal, IsScheduleFailure, IsScriptFailure, ReadsInputs};
ghost use Rattle.ksql_cli.specs.Steps.{IsJoined};

use crate::asked::Asked;
use crate::status::Status;
use crate::topics::{Reading, due_file, read_topics, whole_room};
use cluster_core::{Cluster, Lined, Schedule, Step, drive};
use ksql_outside::Folder;
use ksql_program::Program;
use ksql_script::program_of_script;
use ksql_types::Items;
use schedule_text::read_schedule;
use std::alloc::{AllocError, Global};
use topic_files::TopicLines;
use topology_build::build;

/// A cluster after its run, with its program and its schedule.
#[derive(Drop)]
pub(crate) struct Ran {
    pub program: Program,
    pub schedule: Schedule,
    pub cluster: Cluster,
}

/// The inputs of a run: its program, the records of its topic files, and its schedule.
#[derive(Drop)]
pub(crate) struct Inputs {
    pub program: Program,
    pub files: Vec<TopicLines>,
    pub schedule: Schedule,
}

/// Reads the inputs of the requested run.
pub(crate) fn inputs_of<F: Folder>(
    alloc: Global,
    asked: &Asked,
    folder: &mut F,
) -> Result<Inputs, Status>
    requires short { HasShortNames asked.now }
    ensures inputs { IfOk result AreInputs }
    ensures read { IfOk result (λ inputs. IfSome (F.files folder.old) (λ all. ReadsInputs asked.now all inputs)) }
    ensures cause { IfErr result (λ status. IfSome (F.files folder.old)
        (λ all. RunCause asked.now all (F.failed folder.old) (F.failed folder.new) status)) }
    ensures refusal { IfErr result IsRunRefusal }
    ensures joined { IfErr result (IsJoined (F.failed folder.old) (F.failed folder.new)) }
    ensures reads { IfSome (F.files folder.old) (λ all. AreDueIn asked.now all (F.failed folder.old) (F.failed folder.new)) }
    ensures same_files { F.files folder.new ≡ F.files folder.old }
{
    let program = accepted_program(alloc, asked.script.items(), folder)?;
    let nothing = Reading {
        files: Vec::new(alloc),
        room: whole_room(),
    };
    let topics = asked.topics.items();
    let files = read_topics(alloc, folder, topics, program.items.items(), nothing)?;
    let schedule = schedule_of(alloc, asked, &program, folder)?;
    Ok(Inputs {
        program,
        files,
        schedule,
    })
}

/// Runs a cluster on these inputs, with `workers` workers.
pub(crate) fn run(alloc: Global, inputs: Inputs, workers: u32) -> Result<Ran, AllocError>
    requires { AreInputs inputs }
    ensures program { IfOk result (λ ran. ran.program ≡ inputs.program) }
    ensures schedule { IfOk result (λ ran. ran.schedule ≡ inputs.schedule) }
    ensures sound { IfOk result (λ ran. IsSound ran.program.items) }
    ensures cluster { IfOk result (λ ran. HasCome ran.program.items
        (progress ran.program.items inputs.files.items workers ran.schedule.steps) ran.cluster) }
{
    let Inputs {
        program,
        files,
        schedule,
    } = inputs;
    let topology = build(alloc, &program)?;
    let cluster = drive(alloc, &program, topology, files, workers, &schedule)?;
    Ok(Ran {
        program,
        schedule,
        cluster,
    })
}

/// The program of the script with this name.
#[tactic(auto, unfolding(ksql_types::specs::Text::longest_text))]
pub(crate) fn accepted_program<F: Folder>(
    alloc: Global,
    name: &str,
    folder: &mut F,
) -> Result<Program, Status>
    requires { length name.now ≤ longest_word }
    ensures read { IfOk result (λ program. IfSome (F.files folder.old) (λ all. IsProgramRead name.now all program)) }
    ensures sound { IfOk result (λ program. IsSound program.items) }
    ensures cause { IfErr result (λ status. IfSome (F.files folder.old)
        (λ all. IsScriptFailure name.now all (F.failed folder.old) (F.failed folder.new) status)) }
    ensures refusal { IfErr result IsRunRefusal }
    ensures joined { IfErr result (IsJoined (F.failed folder.old) (F.failed folder.new)) }
    ensures grows { MayJoin (F.failed folder.old) (F.failed folder.new) name.now }
    ensures same_files { F.files folder.new ≡ F.files folder.old }
{
    let script = due_file(alloc, folder, name)?;
    Ok(program_of_script(alloc, script.as_slice())?)
}

/// The steps of a run: those of its schedule, or without one a feed of all records and a drain.
#[tactic(auto, unfolding(ksql_types::specs::Text::longest_text))]
fn schedule_of<F: Folder>(
    alloc: Global,
    asked: &Asked,
    program: &Program,
    folder: &mut F,
) -> Result<Schedule, Status>
    requires short { HasShortNames asked.now }
    requires sound { IsSound program.now.items }
    ensures steps { IfOk result (λ schedule. IfSome (F.files folder.old)
        (λ all. IsScheduled asked.now.schedule asked.now.workers all program.now schedule.steps)) }
    ensures built { IfOk result (λ schedule. All (λ l. IsBuilt l.step) schedule.steps) }
    ensures cause { IfErr result (λ status. IfSome (F.files folder.old)
        (λ all. IsScheduleFailure asked.now all program.now (F.failed folder.old) (F.failed folder.new) status)) }
    ensures refusal { IfErr result IsRunRefusal }
    ensures joined { IfErr result (IsJoined (F.failed folder.old) (F.failed folder.new)) }
    ensures grows { IsExpected asked.now.schedule (F.failed folder.old) (F.failed folder.new) }
    ensures same_files { F.files folder.new ≡ F.files folder.old }
{
    let Some(name) = &asked.schedule else {
        return Ok(fed_once(alloc)?);
    };
    let bytes = due_file(alloc, folder, name.items())?;
    let topology = build(alloc, program)?;
    let workers = asked.workers;
    Ok(read_schedule(alloc, bytes.as_slice(), program, &topology, workers)?)
}

/// The schedule of one feed of all records and a drain.
fn fed_once(alloc: Global) -> Result<Schedule, AllocError>
    ensures { IfOk result (λ schedule. schedule.steps ≡ fed_once) }
{
    let feed = Lined {
        line: 1,
        step: Step::FeedAll,
    };
    let drain = Lined {
        line: 2,
        step: Step::Drain,
    };
    Ok(Schedule {
        steps: Items::of(vec![in alloc; feed, drain]?),
    })
}
