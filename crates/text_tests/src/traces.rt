use core_state::JournalEntry;
use ksql_types::TaskName;
use std::alloc::{AllocError, Global};
use topology::{Lined, Step};
use trace_text::push_trace;

/// The first word of a text, and the numbers after it.
fn words(text: &str) -> (&str, [u32; 4]) {
    let (word, rest) = text.split_once(' ').unwrap_or((text, ""));
    let mut numbers = [0; 4];
    for (number, digits) in numbers.iter_mut().zip(rest.split(' ')) {
        *number = digits.parse::<u32>().unwrap_or(0);
    }
    (word, numbers)
}

/// The entry of a text as `restored SUB PART WORKER GENERATION`.
fn entry(text: &str) -> JournalEntry {
    let (word, [first, part, third, fourth]) = words(text);
    let task = TaskName { sub: first, part };
    match word {
        "step" => JournalEntry::Step { line: first },
        "fed" => JournalEntry::Fed {
            feed: u64::from(first),
            records: u64::from(part),
        },
        "round" => JournalEntry::Round { number: first },
        "committed" => JournalEntry::Committed {
            task,
            from: 0,
            to: 1,
        },
        "fenced" => JournalEntry::Fenced {
            task,
            held: u64::from(third),
            newest: u64::from(fourth),
        },
        "left" => JournalEntry::Left {
            task,
            generation: u64::from(third),
        },
        _ => JournalEntry::Restored {
            task,
            worker: third,
            generation: u64::from(fourth),
            done: 0,
        },
    }
}

/// The step of a text as `lose LINE SUB PART`.
fn lined(text: &str) -> Lined {
    let (word, [line, first, part, _]) = words(text);
    let step = match word {
        "feed" => Step::FeedAll,
        "lost" => Step::Round {
            lost: Some(first),
            stalled: None,
        },
        "stalled" => Step::Round {
            lost: None,
            stalled: Some(first),
        },
        "start" => Step::Start(first),
        "stop" => Step::Stop(first),
        "wake" => Step::Wake(first),
        "lose" => Step::Lose(TaskName { sub: first, part }),
        _ => Step::Drain,
    };
    Lined { line, step }
}

/// The trace of a text `STEPS | ENTRIES`, with `, ` between each two.
pub fn trace(alloc: Global, text: &str) -> Result<String, AllocError> {
    let (steps, entries) = text.split_once(" | ").unwrap_or(("", text));
    let mut lines = Vec::new(alloc);
    for step in steps.split(", ") {
        lines.push(lined(step))?;
    }
    let mut journal = Vec::new(alloc);
    for text in entries.split(", ") {
        journal.push(entry(text))?;
    }
    let mut out = String::new(alloc);
    push_trace(&mut out, &journal, &lines)?;
    Ok(out)
}
