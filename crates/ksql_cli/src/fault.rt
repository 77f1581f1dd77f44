//! The line that says why a command was refused.

ghost use Rattle.std.specs.Prelude.{◌≡◌, ◌≤◌, IsOk, OnErr, OnOk};
ghost use Rattle.std.specs.List.{flat_map};
ghost use Rattle.ksql_outside.specs.Outside.{followed_by, Rose, WrotePrefix};
ghost use Rattle.ksql_cli.specs.Fault as spec;

use crate::status::Status;
use itoa::Buffer;
use ksql_outside::{Failed, Sink, write_whole};
use ksql_types::{Chars, Code};
use schedule_text::StepWhy;
use topic_files::LineWhy;

/// Tries to write the fault line of a status: all of it, or a prefix if a write fails. Takes no memory.
pub(crate) fn write_fault<K: Sink>(out: &mut K, status: &Status) -> Result<(), Failed>
    ensures whole { OnOk result (K.written out.new ≡ followed_by (K.written out.old) (spec.fault_line status.now)) }
    ensures prefix { OnErr result (WrotePrefix (K.written out.old) (K.written out.new) (spec.fault_line status.now)) }
    ensures count { K.faults out.old ≤ K.faults out.new }
    ensures succeeds { ¬ Rose (K.faults out.old) (K.faults out.new) → IsOk result }
{
    match status {
        Status::Done | Status::WriteFault => write_whole(out, b""),
        Status::Usage => write_whole(out, b"ksql: bad command line\n"),
        Status::Script { statement, code } => write_script_line(out, *statement, *code),
        Status::TopicFile { topic, line, why } => write_topic_line(out, topic, *line, *why),
        Status::Schedule { line, why } => write_schedule_line(out, *line, *why),
        Status::ReadFault { name } => {
            let name = name.items().as_bytes();
            write_pieces(out, &[b"ksql: cannot read ", name, b"\n"])
        }
        Status::OutOfMemory => write_whole(out, b"ksql: out of memory\n"),
    }
}

/// Tries to write the fault line of a script refused at this statement with this code.
fn write_script_line<K: Sink>(out: &mut K, statement: u32, code: Code) -> Result<(), Failed>
    ensures whole { OnOk result (K.written out.new ≡ followed_by (K.written out.old) (spec.script_line statement code)) }
    ensures prefix { OnErr result (WrotePrefix (K.written out.old) (K.written out.new) (spec.script_line statement code)) }
    ensures count { K.faults out.old ≤ K.faults out.new }
    ensures succeeds { ¬ Rose (K.faults out.old) (K.faults out.new) → IsOk result }
{
    let mut number = Buffer::new();
    let statement = number.format(statement).as_bytes();
    let code = code_text(code).as_bytes();
    write_pieces(
        out,
        &[b"ksql: script statement ", statement, b": ", code, b"\n"],
    )
}

/// Tries to write the fault line of a topic file refused at this line.
fn write_topic_line<K: Sink>(
    out: &mut K,
    topic: &Chars,
    line: u32,
    why: LineWhy,
) -> Result<(), Failed>
    ensures whole { OnOk result (K.written out.new ≡ followed_by (K.written out.old) (spec.topic_line topic.now line why)) }
    ensures prefix { OnErr result (WrotePrefix (K.written out.old) (K.written out.new) (spec.topic_line topic.now line why)) }
    ensures count { K.faults out.old ≤ K.faults out.new }
    ensures succeeds { ¬ Rose (K.faults out.old) (K.faults out.new) → IsOk result }
{
    let mut number = Buffer::new();
    let line = number.format(line).as_bytes();
    let topic = topic.items().as_bytes();
    let why = why_text(why).as_bytes();
    write_pieces(out, &[b"ksql: topic ", topic, b" line "])?;
    write_pieces(out, &[line, b": ", why, b"\n"])
}

/// Tries to write the fault line of a schedule refused at this line.
fn write_schedule_line<K: Sink>(out: &mut K, line: u32, why: StepWhy) -> Result<(), Failed>
    ensures whole { OnOk result (K.written out.new ≡ followed_by (K.written out.old) (spec.schedule_line line why)) }
    ensures prefix { OnErr result (WrotePrefix (K.written out.old) (K.written out.new) (spec.schedule_line line why)) }
    ensures count { K.faults out.old ≤ K.faults out.new }
    ensures succeeds { ¬ Rose (K.faults out.old) (K.faults out.new) → IsOk result }
{
    let mut number = Buffer::new();
    let line = number.format(line).as_bytes();
    let why = step_why_text(why).as_bytes();
    write_pieces(out, &[b"ksql: schedule line ", line, b": ", why, b"\n"])
}

/// Writes some pieces in order, until a write fails.
fn write_pieces<K: Sink>(out: &mut K, pieces: &[&[u8]]) -> Result<(), Failed>
    ensures whole { OnOk result (K.written out.new ≡ followed_by (K.written out.old) (flat_map (λ p. p.now) pieces.now)) }
    ensures prefix { OnErr result (WrotePrefix (K.written out.old) (K.written out.new) (flat_map (λ p. p.now) pieces.now)) }
    ensures count { K.faults out.old ≤ K.faults out.new }
    ensures succeeds { ¬ Rose (K.faults out.old) (K.faults out.new) → IsOk result }
{
    match pieces {
        [] => Ok(()),
        [first, others @ ..] => {
            write_whole(out, first)?;
            write_pieces(out, others)
        }
    }
}

/// A code of refusal, and its name.
fn code_text(code: Code) -> &'static str
    ensures { result.now ≡ spec.code_text code }
{
    match code {
        Code::Syntax => "S1 Syntax",
        Code::TooLarge => "S2 TooLarge",
        Code::UnknownRelation => "S3 UnknownRelation",
        Code::NameTaken => "S4 NameTaken",
        Code::UnknownColumn => "S5 UnknownColumn",
        Code::AmbiguousColumn => "S6 AmbiguousColumn",
        Code::DuplicateColumn => "S7 DuplicateColumn",
        Code::TypeMismatch => "S8 TypeMismatch",
        Code::WrongKind => "S9 WrongKind",
        Code::KeyMissing => "S10 KeyMissing",
        Code::JoinNotOnKey => "S11 JoinNotOnKey",
        Code::PartitionMismatch => "S12 PartitionMismatch",
        Code::AggregateMisuse => "S13 AggregateMisuse",
        Code::BadWindow => "S14 BadWindow",
        Code::Unsupported => "S15 Unsupported",
        Code::BadProperty => "S16 BadProperty",
    }
}

/// Why a line is refused, in a word.
fn why_text(why: LineWhy) -> &'static str
    ensures { result.now ≡ spec.why_text why }
{
    match why {
        LineWhy::BadLine => "BadLine",
        LineWhy::TooLarge => "TooLarge",
    }
}

/// Why a line of a schedule is refused, as it is printed.
fn step_why_text(why: StepWhy) -> &'static str
    ensures { result.now ≡ spec.step_why_text why }
{
    match why {
        StepWhy::BadStep => "BadStep",
        StepWhy::UnknownTopic => "UnknownTopic",
        StepWhy::UnknownWorker => "UnknownWorker",
        StepWhy::WorkerTaken => "WorkerTaken",
        StepWhy::UnknownTask => "UnknownTask",
        StepWhy::NoWorker => "NoWorker",
        StepWhy::TooLarge => "TooLarge",
    }
}
