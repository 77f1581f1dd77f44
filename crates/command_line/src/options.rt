ghost use Rattle.std.specs.Prelude.{◌≡◌, false, IfOk};
ghost use Rattle.clap.specs.Words.{app_of, rule_of};
ghost use Rattle.command_line.specs.Options.{demo_app, explain_app, records_rule, run_app, schedule_rule, script_rule, topics_rule, trace_rule, workers_rule};

use clap::{Arg, ArgAction, Command};
use std::alloc::{AllocError, Global};

/// The command `run`.
pub fn run_options<'a>(alloc: Global) -> Result<Command<'a>, AllocError>
    ensures { IfOk result (λ command. app_of command ≡ run_app) }
{
    let command = Command::new(alloc, "run").arg(script_option(alloc))?;
    let command = command.arg(topics_option(alloc))?;
    let command = command.arg(workers_option(alloc))?;
    let command = command.arg(schedule_option(alloc))?;
    command.arg(trace_option(alloc))
}

/// The command `explain`.
pub fn explain_options<'a>(alloc: Global) -> Result<Command<'a>, AllocError>
    ensures { IfOk result (λ command. app_of command ≡ explain_app) }
{
    Command::new(alloc, "explain").arg(script_option(alloc))
}

/// The command `demo`.
pub fn demo_options<'a>(alloc: Global) -> Result<Command<'a>, AllocError>
    ensures { IfOk result (λ command. app_of command ≡ demo_app) }
{
    let command = Command::new(alloc, "demo").arg(records_option(alloc))?;
    command.arg(workers_option(alloc))
}

/// `--script` and a name, required.
#[tactic(auto, unfolding(crate::specs::Options::script_rule))]
fn script_option<'a>(alloc: Global) -> Arg<'a>
    ensures rule { rule_of result ≡ script_rule }
    ensures local { result.global ≡ false }
{
    Arg::new(alloc, "script")
        .long("script")
        .action(ArgAction::Set)
        .required(true)
}

/// `--topics` and a folder, `.` by default.
#[tactic(auto, unfolding(crate::specs::Options::topics_rule))]
fn topics_option<'a>(alloc: Global) -> Arg<'a>
    ensures rule { rule_of result ≡ topics_rule }
    ensures local { result.global ≡ false }
{
    Arg::new(alloc, "topics")
        .long("topics")
        .action(ArgAction::Set)
        .default_value(".")
}

/// `--workers` and a number from 1 to 32, 1 by default.
#[tactic(auto, unfolding(crate::specs::Options::workers_rule))]
fn workers_option<'a>(alloc: Global) -> Arg<'a>
    ensures rule { rule_of result ≡ workers_rule }
    ensures local { result.global ≡ false }
{
    Arg::new(alloc, "workers")
        .long("workers")
        .action(ArgAction::Set)
        .value_parser(clap::value_parser!(u32).range(1..=32))
        .default_value("1")
}

/// `--schedule` and a name.
#[tactic(auto, unfolding(crate::specs::Options::schedule_rule))]
fn schedule_option<'a>(alloc: Global) -> Arg<'a>
    ensures rule { rule_of result ≡ schedule_rule }
    ensures local { result.global ≡ false }
{
    Arg::new(alloc, "schedule")
        .long("schedule")
        .action(ArgAction::Set)
}

/// `--trace`, a flag.
#[tactic(auto, unfolding(crate::specs::Options::trace_rule))]
fn trace_option<'a>(alloc: Global) -> Arg<'a>
    ensures rule { rule_of result ≡ trace_rule }
    ensures local { result.global ≡ false }
{
    Arg::new(alloc, "trace")
        .long("trace")
        .action(ArgAction::SetTrue)
}

/// A number of records from 1 to 100,000, required.
#[tactic(auto, unfolding(crate::specs::Options::records_rule))]
fn records_option<'a>(alloc: Global) -> Arg<'a>
    ensures rule { rule_of result ≡ records_rule }
    ensures local { result.global ≡ false }
{
    Arg::new(alloc, "records")
        .action(ArgAction::Set)
        .value_parser(clap::value_parser!(u32).range(1..=100_000))
        .required(true)
}
