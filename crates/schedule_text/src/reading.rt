//! Reading the steps of a schedule line by line.

ghost use Rattle.std.specs.Prelude.{◌≡◌, ℕ, Ok, Err, IfOk};
ghost use Rattle.schedule_text.specs.Schedules.{schedule_of};

use crate::fault::{LineFault, ScheduleFault, StepWhy};
use crate::standing::{Setting, Standing};
use ksql_program::Program;
use ksql_types::Items;
use std::alloc::Global;
use topic_files::Lines;
use topology::{Lined, Schedule, Topology, chain_of};

/// The steps of a schedule's text for a program, its topology and the workers 1 to `workers`; or its first refused
/// line, counted from 1, and why it is refused. Takes time linear in the text.
pub fn read_schedule(
    alloc: Global,
    bytes: &[u8],
    program: &Program,
    topology: &Topology,
    workers: u32,
) -> Result<Schedule, ScheduleFault>
    ensures read { IfOk result (λ schedule. schedule_of program.now.items topology.now workers bytes.now ≡ Ok schedule.steps) }
    ensures refused { (line : ℕ) (why : StepWhy) → result ≡ Err (ScheduleFault.Refused line why)
        → schedule_of program.now.items topology.now workers bytes.now ≡ Err (line, why) }
{
    let setting = Setting {
        items: program.items.items(),
        subs: topology.subs.items(),
        chain: chain_of(alloc, topology)?,
        size: bytes.len(),
    };
    let mut standing = Standing::first(alloc, workers)?;
    let mut steps = Vec::new(alloc);
    for line in Lines::of(bytes) {
        match standing.read_line(alloc, &setting, line) {
            Ok(Some(step)) => steps.push(Lined {
                line: standing.lines,
                step,
            })?,
            Ok(None) => {}
            Err(LineFault::Refused(why)) => {
                return Err(ScheduleFault::Refused {
                    line: standing.lines,
                    why,
                });
            }
            Err(LineFault::OutOfMemory) => return Err(ScheduleFault::OutOfMemory),
        }
    }
    Ok(Schedule {
        steps: Items::of(steps),
    })
}
