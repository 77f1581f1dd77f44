//! Commands on files that rows say. A row's text is the line of the command and then parts, as `f=SCRIPT`, each after ` | `:
//! `f` is the script, `q` the schedule, `k` the topic file of k, and `s` another topic file, whose name is `name`, or
//! else that of s. The sink takes `room` bytes in all, and `most` in a call. The read with the number `fail` fails.

ghost use Rattle.std.specs.Prelude.{◌≡◌, ◌≤◌, length, IfOk};
ghost use Rattle.ksql_types.specs.Text.{longest_text};

use ksql_cli::ksql;
use ksql_outside::{MemFolder, MemSink, NoGate};
use ksql_types::{Bytes, Chars, Items, Word, Words};
use std::alloc::{AllocError, Global};
use std::str;

/// The parts of a text: the line of a command, and what stands after each ` | `.
fn parts(alloc: Global, text: &str) -> Result<Vec<&str>, AllocError> {
    let mut parts = Vec::new(alloc);
    for piece in text.split(" | ") {
        parts.push(piece)?;
    }
    Ok(parts)
}

/// The content of the part with this name, empty where there is none.
fn part<'a>(parts: &[&'a str], name: &str) -> &'a str {
    for piece in parts {
        if let Some((found, content)) = piece.split_once('=')
            && found == name
        {
            return content;
        }
    }
    ""
}

/// The number that a part says, or else this one.
fn number(parts: &[&str], name: &str, otherwise: u64) -> u64 {
    part(parts, name).parse::<u64>().unwrap_or(otherwise)
}

/// The bytes of a text. The letter `ÿ` stands for a byte that is in no text, 255.
fn bytes(alloc: Global, text: &str) -> Result<Vec<u8>, AllocError> {
    let mut bytes = Vec::new(alloc);
    for piece in text.split('ÿ') {
        bytes.extend_from_slice(piece.as_bytes())?;
        bytes.push(255)?;
    }
    bytes.pop();
    Ok(bytes)
}

fn file(alloc: Global, name: &str, content: &str) -> Result<(Chars, Bytes), AllocError>
    requires { length name.now ≤ longest_text }
    ensures { IfOk result (λ pair. pair.0 ≡ name.now) }
{
    let name = Chars::of(String::from_str(alloc, name)?)?;
    Ok((name, Bytes::of(bytes(alloc, content)?)))
}

/// A folder of the script, the schedule and the topic files, where this is the name of the one whose part is `s`.
#[tactic(auto, unfolding(ksql_types::specs::Text::longest_text))]
fn folder(
    alloc: Global,
    parts: &[&str],
    name: &str,
    failing: Vec<u64>,
) -> Result<MemFolder, AllocError> {
    if name == "f" || name == "q" || name == "./k.jsonl" || name.len() > 100 {
        return Err(AllocError);
    }
    let mut files = Vec::new(alloc);
    files.push(file(alloc, "f", part(parts, "f"))?)?;
    files.push(file(alloc, "q", part(parts, "q"))?)?;
    files.push(file(alloc, "./k.jsonl", part(parts, "k"))?)?;
    files.push(file(alloc, name, part(parts, "s"))?)?;
    Ok(MemFolder::new(alloc, files, failing))
}

/// The folder that parts say, with the read that fails in it.
fn folder_of(alloc: Global, parts: &[&str]) -> Result<MemFolder, AllocError> {
    let name = match part(parts, "name") {
        "" => "./s.jsonl",
        name => name,
    };
    let failing = vec![in alloc; number(parts, "fail", 0)]?;
    folder(alloc, parts, name, failing)
}

/// The words of a line, which blanks part.
fn words(alloc: Global, line: &str) -> Result<Words, AllocError> {
    let mut words = Vec::new(alloc);
    for word in line.split(' ') {
        words.push(Word::of(String::from_str(alloc, word)?))?;
    }
    Ok(Items::of(words))
}

/// What is written after the last time that the part `after` is, without the part `before` at the end.
fn cut<'a>(parts: &[&str], written: &'a str) -> &'a str {
    let (after, before) = (part(parts, "after"), part(parts, "before"));
    let rest = match written.rsplit_once(after) {
        Some((_, rest)) if !after.is_empty() => rest,
        _ => written,
    };
    rest.strip_suffix(before).unwrap_or(rest)
}

/// How the command of a text ends: the number of its status, and what it wrote.
pub fn ended(alloc: Global, text: &str) -> Result<String, AllocError> {
    let parts = parts(alloc, text)?;
    let words = words(alloc, parts.first().copied().unwrap_or(""))?;
    let mut files = folder_of(alloc, &parts)?;
    let most = number(&parts, "most", 8000).max(1);
    let mut out = MemSink::new(alloc, number(&parts, "room", 8000), most)?;
    let mut ran = None;
    let status = ksql(&(), alloc, &words, &mut files, &mut out, &NoGate, &mut ran);
    let written = str::from_utf8(out.written()).unwrap_or("no text");
    format!(in alloc; "{} {}", status.code(), cut(&parts, written))
}
