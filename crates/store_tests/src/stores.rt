use ksql_types::{Bytes, StoreEntry};
use state_store::Store;
use std::alloc::{AllocError, Global};
use std::str;

fn bytes(alloc: Global, text: &str) -> Result<Bytes, AllocError> {
    Ok(Bytes::of(Vec::from_slice(alloc, text.as_bytes())?))
}

fn text(bytes: &[u8]) -> &str {
    str::from_utf8(bytes).unwrap_or("no text")
}

/// The entry of a text `NUMBER.KEY=VALUE`, or `NUMBER.KEY` where it is deleted.
fn entry(alloc: Global, text: &str) -> Result<StoreEntry, AllocError> {
    let (number, write) = text.split_once('.').unwrap_or(("", text));
    let (key, value) = match write.split_once('=') {
        Some((key, value)) => (key, Some(bytes(alloc, value)?)),
        None => (write, None),
    };
    Ok(StoreEntry {
        store: number.parse::<u32>().unwrap_or(0),
        key: bytes(alloc, key)?,
        value,
    })
}

/// The entries of a text, with `;` between each two.
fn entries(alloc: Global, text: &str) -> Result<Vec<StoreEntry>, AllocError> {
    let mut log = Vec::new(alloc);
    for piece in text.split(';') {
        log.push(entry(alloc, piece)?)?;
    }
    Ok(log)
}

/// The entries of a log as such a text, in brackets.
fn shown(alloc: Global, log: &[StoreEntry]) -> Result<String, AllocError> {
    let mut shown = String::from_str(alloc, "[")?;
    for entry in log {
        write!(shown, " {}.{}", entry.store, text(entry.key.items()))?;
        if let Some(value) = &entry.value {
            write!(shown, "={}", text(value.items()))?;
        }
    }
    shown.push(']')?;
    Ok(shown)
}

/// Does what a word says, as `set:KEY=VALUE` or `load:ENTRIES`, and tells what it gives.
fn step(alloc: Global, store: &mut Store, word: &str) -> Result<String, AllocError> {
    let (command, rest) = word.split_once(':').unwrap_or((word, ""));
    let (key, value) = rest.split_once('=').unwrap_or((rest, ""));
    match command {
        "set" => store.set(alloc, key.as_bytes(), value.as_bytes())?,
        "delete" => store.delete(alloc, key.as_bytes())?,
        "load" => store.load(alloc, 0, &entries(alloc, rest)?)?,
        "len" => return format!(in alloc; " {:?}", store.len_of(key.as_bytes())),
        "get" => return format!(in alloc; " {:?}", store.get(key.as_bytes()).map(text)),
        _ => return shown(alloc, store.changes(alloc)?.items()),
    }
    Ok(String::new(alloc))
}

/// What a store tells after each word of a text, with a blank between each two.
pub fn told(alloc: Global, text: &str) -> Result<String, AllocError> {
    let mut store = Store::new(alloc);
    let mut told = String::from_str(alloc, "told")?;
    for word in text.split(' ') {
        told.push_str(step(alloc, &mut store, word)?.as_str())?;
    }
    Ok(told)
}
