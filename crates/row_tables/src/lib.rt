//! Tables of tests: rows of a text and of what has to be found in it.
#![tactic(auto)]

use std::alloc::{AllocError, Global};

/// What finds the answers to the texts of some tables.
pub trait Finds {
    /// What is found in a text of the table of this name.
    fn found(&self, alloc: Global, table: &str, text: &str) -> Result<String, AllocError>;
}

/// How many rows of a table come out right, and each row that doesn't. A row is a line `TEXT => ANSWER`. A line
/// `in FRONT~BACK` says what stands round the texts after it, and a line `# NOTE` is a note.
pub fn walk<F: Finds>(
    alloc: Global,
    finds: &F,
    table: &str,
    file: &str,
) -> Result<String, AllocError> {
    let mut right: u64 = 0;
    let mut wrong = String::new(alloc);
    for section in file.split("\nin ") {
        let found = walk_section(alloc, finds, table, section, &mut wrong)?;
        right = right.saturating_add(found);
    }
    format!(in alloc; "{table}: {right} rows{wrong}")
}

/// How many rows of a section come out right: its first line says what stands round its texts. Appends what is wrong.
fn walk_section<F: Finds>(
    alloc: Global,
    finds: &F,
    table: &str,
    section: &str,
    wrong: &mut String,
) -> Result<u64, AllocError> {
    let (form, rows) = section.split_once('\n').unwrap_or((section, ""));
    let mut right: u64 = 0;
    for line in rows.lines() {
        if line.is_empty() || line.starts_with("# ") {
            continue;
        }
        let fault = fault(alloc, finds, table, form, line)?;
        if fault.is_empty() {
            right = right.saturating_add(1);
        }
        wrong.push_str(fault.as_str())?;
    }
    Ok(right)
}

/// What is wrong with a row: nothing, or a line that says what was found.
fn fault<F: Finds>(
    alloc: Global,
    finds: &F,
    table: &str,
    form: &str,
    line: &str,
) -> Result<String, AllocError> {
    let (text, want) = line.split_once(" => ").unwrap_or((line, "a row"));
    let (front, back) = form.split_once('~').unwrap_or(("", ""));
    let whole = format!(in alloc; "{front}{text}{back}")?;
    let text = expanded(alloc, whole.as_str())?;
    let found = finds.found(alloc, table, text.as_str())?;
    if found.as_str() == expanded(alloc, want)?.as_str() {
        return Ok(String::new(alloc));
    }
    format!(in alloc; "\nwrong: {line}, and not {found}")
}

/// A text with each `«TIMES:PIECE»` written out, and with a line feed, a tab and a carriage return for each `¶`, `␉` and `␍`.
fn expanded(alloc: Global, text: &str) -> Result<String, AllocError> {
    let text = text.replace(alloc, '¶', "\n")?;
    let text = text.as_str().replace(alloc, '␉', "\t")?;
    let text = text.as_str().replace(alloc, '␍', "\r")?;
    let mut whole = String::new(alloc);
    for part in text.as_str().split('«') {
        let (inner, after) = part.split_once('»').unwrap_or(("", part));
        whole.push_str(repeated(alloc, inner)?.as_str())?;
        whole.push_str(after)?;
    }
    Ok(whole)
}

/// The piece of `TIMES:PIECE`, as many times.
fn repeated(alloc: Global, inner: &str) -> Result<String, AllocError> {
    let (times, piece) = inner.split_once(':').unwrap_or(("0", inner));
    piece.repeat(alloc, times.parse::<usize>().unwrap_or(0))
}
