//! The texts that commands print.
ghost use Rattle.std.specs.Prelude.{◌≡◌, ◌≤◌, IfErr, IfOk, IfSome, None, length};
ghost use Rattle.ksql_types.specs.Text.{longest_text};
ghost use Rattle.std.specs.Option.{IsSomeAnd};
ghost use Rattle.ksql_outside.specs.Outside.{MayJoin};
ghost use Rattle.command_line.specs.Words.{longest_word};
ghost use Rattle.ksql_program.specs.Sound.{IsSound};
ghost use Rattle.ksql_program.specs.declared.program.Program.{Program as OneProgram};
ghost use Rattle.topology.specs.Topologies.{topology_of};
ghost use Rattle.topology_build.specs.Text.{topology_text};
ghost use Rattle.ksql_cli.specs.Command.{ExplainCause, IsProgramRead, RunCause, Runs, demo_asked, demo_files};
ghost use Rattle.ksql_cli.specs.Ran.{HasRun};
ghost use Rattle.ksql_cli.specs.Run.{Run, report_of, summary_of};
ghost use Rattle.ksql_cli.specs.Stages.{AreDueIn, AreInputs, HasShortNames, IsRunRefusal, ReadsInputs};
ghost use Rattle.ksql_cli.specs.Steps.{IsJoined};

use crate::asked::Asked;
use crate::run::{Inputs, Ran, accepted_program, inputs_of, run};
use crate::status::Status;
use cluster_core::Cluster;
use demo_files::{schedule, script, topic_file};
use ksql_outside::{Folder, MemFolder};
use ksql_program::Program;
use ksql_types::{Bytes, Chars, Word};
use run_text::{broker_report, broker_summary};
use std::alloc::{AllocError, Global};
use topology_build::{build, describe};
use trace_text::push_trace;

/// The text that a command prints, and the cluster that ran for it.
#[derive(Drop)]
pub(crate) struct Finished {
    pub text: Vec<u8>,
    pub cluster: Option<Cluster>,
}

/// The report of the requested run.
pub(crate) fn reported<F: Folder>(
    alloc: Global,
    asked: &Asked,
    folder: &mut F,
) -> Result<Finished, Status>
    requires short { HasShortNames asked.now }
    ensures text { IfOk result (λ finished. IfSome (F.files folder.old)
        (λ all. (run : Run) × Runs asked.now all run × (finished.text.items ≡ report_of run))) }
    ensures ran { IfOk result (λ finished. IfSome (F.files folder.old)
        (λ all. (run : Run) × Runs asked.now all run × IsSomeAnd finished.cluster (HasRun run))) }
    ensures cause { IfErr result (λ status. IfSome (F.files folder.old)
        (λ all. RunCause asked.now all (F.failed folder.old) (F.failed folder.new) status)) }
    ensures refusal { IfErr result IsRunRefusal }
    ensures joined { IfErr result (IsJoined (F.failed folder.old) (F.failed folder.new)) }
    ensures reads { IfSome (F.files folder.old) (λ all. AreDueIn asked.now all (F.failed folder.old) (F.failed folder.new)) }
    ensures same_files { F.files folder.new ≡ F.files folder.old }
{
    let inputs = inputs_of(alloc, asked, folder)?;
    let ran = run(alloc, inputs, asked.workers)?;
    let text = report(alloc, asked.trace, &ran)?;
    Ok(Finished {
        text,
        cluster: Some(ran.cluster),
    })
}

/// The report of a run, with its trace if `trace` is true.
fn report(alloc: Global, trace: bool, ran: &Ran) -> Result<Vec<u8>, AllocError>
    requires sound { IsSound ran.now.program.items }
    requires came { (run : Run) × (run.program ≡ ran.now.program) × HasRun run ran.now.cluster }
    ensures { IfOk result (λ text. (run : Run) → run.program ≡ ran.now.program → run.steps ≡ ran.now.schedule.steps → run.trace ≡ trace →
        HasRun run ran.now.cluster → text.items ≡ report_of run) }
{
    let mut lines = String::new(alloc);
    if trace {
        push_trace(
            &mut lines,
            ran.cluster.journal(),
            ran.schedule.steps.items(),
        )?;
    }
    let text = broker_report(alloc, &ran.program, ran.cluster.broker(), lines.as_str())?;
    Ok(text.into_bytes())
}

/// The topology of the script with this name, as text.
pub(crate) fn explained<F: Folder>(
    alloc: Global,
    name: &str,
    folder: &mut F,
) -> Result<Finished, Status>
    requires { length name.now ≤ longest_word }
    ensures text { IfOk result (λ finished. IfSome (F.files folder.old) (λ all. (program : OneProgram) × IsProgramRead name.now all program
        × (finished.text.items ≡ topology_text program.items (topology_of program.items)))) }
    ensures none { IfOk result (λ finished. finished.cluster ≡ None) }
    ensures cause { IfErr result (λ status. IfSome (F.files folder.old)
        (λ all. ExplainCause name.now all (F.failed folder.old) (F.failed folder.new) status)) }
    ensures refusal { IfErr result IsRunRefusal }
    ensures joined { IfErr result (IsJoined (F.failed folder.old) (F.failed folder.new)) }
    ensures grows { MayJoin (F.failed folder.old) (F.failed folder.new) name.now }
    ensures same_files { F.files folder.new ≡ F.files folder.old }
{
    let program = accepted_program(alloc, name, folder)?;
    let text = described(alloc, &program)?;
    Ok(Finished {
        text,
        cluster: None,
    })
}

/// The text of a program's topology.
fn described(alloc: Global, program: &Program) -> Result<Vec<u8>, AllocError>
    requires { IsSound program.now.items }
    ensures { IfOk result (λ text. text.items ≡ topology_text program.now.items (topology_of program.now.items)) }
{
    let topology = build(alloc, program)?;
    Ok(describe(alloc, program, &topology)?.into_items())
}

/// The summary of a demo of `records` records with `workers` workers.
pub(crate) fn demonstrated(
    alloc: Global,
    records: u32,
    workers: u32,
) -> Result<Finished, AllocError>
    requires some { 1 ≤ workers }
    requires few { workers ≤ 32 }
    ensures text { IfOk result (λ finished. (run : Run) × Runs (demo_asked workers) (demo_files records) run × (finished.text.items ≡ summary_of run)) }
    ensures ran { IfOk result (λ finished. (run : Run) × Runs (demo_asked workers) (demo_files records) run × IsSomeAnd finished.cluster (HasRun run)) }
{
    let asked = demo_asked(alloc, workers)?;
    let inputs = demo_inputs(alloc, &asked, records)?;
    let ran = run(alloc, inputs, workers)?;
    let text = broker_summary(alloc, &ran.program, ran.cluster.broker())?;
    Ok(Finished {
        text: text.into_bytes(),
        cluster: Some(ran.cluster),
    })
}

/// The inputs of a demo of `records` records. Its texts are freed before it runs.
fn demo_inputs(alloc: Global, asked: &Asked, records: u32) -> Result<Inputs, AllocError>
    requires short { HasShortNames asked.now }
    ensures inputs { IfOk result AreInputs }
    ensures read { IfOk result (ReadsInputs asked.now (demo_files records)) }
{
    let mut folder = demo_folder(alloc, records)?;
    match inputs_of(alloc, asked, &mut folder) {
        Ok(inputs) => Ok(inputs),
        Err(_) => Err(AllocError),
    }
}

/// What a demo asks for: its files and `workers` workers.
fn demo_asked(alloc: Global, workers: u32) -> Result<Asked, AllocError>
    ensures { IfOk result (λ asked. asked ≡ demo_asked workers) }
{
    Ok(Asked {
        script: Word::of(String::from_str(alloc, "script.sql")?),
        topics: Word::of(String::from_str(alloc, ".")?),
        workers,
        schedule: Some(Word::of(String::from_str(alloc, "schedule")?)),
        trace: false,
    })
}

/// A folder in memory with the files of a demo.
#[tactic(auto, unfolding(ksql_types::specs::Text::longest_text))]
fn demo_folder(alloc: Global, records: u32) -> Result<MemFolder, AllocError>
    ensures { IfOk result (λ folder. folder.files ≡ demo_files records) }
{
    let mut files = Vec::new(alloc);
    let script = Bytes::of(Vec::from_slice(alloc, script().as_bytes())?);
    files.push((copied_name(alloc, "script.sql")?, script))?;
    let topic = Bytes::of(topic_file(alloc, records)?);
    files.push((copied_name(alloc, "./hits.jsonl")?, topic))?;
    let schedule = Bytes::of(schedule(alloc, records)?);
    files.push((copied_name(alloc, "schedule")?, schedule))?;
    Ok(MemFolder::new(alloc, files, Vec::new(alloc)))
}

/// A copy of a name.
pub(crate) fn copied_name(alloc: Global, name: &str) -> Result<Chars, AllocError>
    requires { length name.now ≤ longest_text }
    ensures { IfOk result (λ copied. copied ≡ name.now) }
{
    Chars::of(String::from_str(alloc, name)?)
}
