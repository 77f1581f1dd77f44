ghost use Rattle.std.specs.Prelude.{◌≡◌, All, IfOk};
ghost use Rattle.window_store.specs.Windows.{under};
ghost use Rattle.operator.specs.Holding.{IsWindowEntry};

use ksql_types::{Bytes, StoreEntry};
use std::alloc::{AllocError, Global};
use window_store::{WStore, put_window_key};

fn window_key(alloc: Global, key: &[u8], start: u64) -> Result<Bytes, AllocError>
    ensures { IfOk result (λ bytes. bytes ≡ under key.now start) }
{
    let mut bytes = Vec::new(alloc);
    put_window_key(&mut bytes, key, start)?;
    Ok(Bytes::of(bytes))
}

/// The key of a window of a text `KEY@START`.
fn at(alloc: Global, text: &str) -> Result<Bytes, AllocError> {
    let (key, start) = text.split_once('@').unwrap_or((text, ""));
    let start = start.parse::<u32>().unwrap_or(0);
    window_key(alloc, key.as_bytes(), u64::from(start))
}

/// The entry of the value of a window, from a text `KEY@START=VALUE`, or `KEY@START` where it is taken away.
fn window_entry(alloc: Global, number: u32, text: &str) -> Result<StoreEntry, AllocError>
    ensures { IfOk result IsWindowEntry }
{
    let (place, value) = match text.split_once('=') {
        Some((place, value)) => (
            place,
            Some(Bytes::of(Vec::from_slice(alloc, value.as_bytes())?)),
        ),
        None => (text, None),
    };
    let (key, start) = place.split_once('@').unwrap_or((place, ""));
    let start = start.parse::<u32>().unwrap_or(0);
    Ok(StoreEntry {
        store: number,
        key: window_key(alloc, key.as_bytes(), u64::from(start))?,
        value,
    })
}

/// The entry of the stream time.
fn time_entry(alloc: Global, number: u32, time: u64) -> Result<StoreEntry, AllocError>
    ensures { IfOk result IsWindowEntry }
{
    Ok(StoreEntry {
        store: number,
        key: Bytes::of(Vec::new(alloc)),
        value: Some(window_key(alloc, &[], time)?),
    })
}

/// The entry of a text `NUMBER.KEY@START=VALUE` or `NUMBER.TIME`.
fn entry(alloc: Global, text: &str) -> Result<StoreEntry, AllocError>
    ensures { IfOk result IsWindowEntry }
{
    let (number, rest) = text.split_once('.').unwrap_or(("", text));
    let number = number.parse::<u32>().unwrap_or(0);
    match rest.parse::<u64>() {
        Ok(time) => time_entry(alloc, number, time),
        Err(_) => window_entry(alloc, number, rest),
    }
}

/// The pieces of a text, with `;` between each two.
fn pieces(alloc: Global, text: &str) -> Result<Vec<&str>, AllocError> {
    let mut pieces = Vec::new(alloc);
    for piece in text.split(';') {
        pieces.push(piece)?;
    }
    Ok(pieces)
}

/// The entries of some texts.
fn entries(alloc: Global, pieces: &[&str]) -> Result<Vec<StoreEntry>, AllocError>
    ensures { IfOk result (λ log. All IsWindowEntry log.items) }
{
    let mut log = Vec::new(alloc);
    for piece in pieces {
        log.push(entry(alloc, piece)?)?;
    }
    Ok(log)
}

fn load(
    store: &mut WStore,
    alloc: Global,
    number: u32,
    log: &[StoreEntry],
) -> Result<(), AllocError>
    requires { All IsWindowEntry log.now }
{
    store.load(alloc, number, log)
}

/// Whether two logs are the same.
fn are_same(log: &[StoreEntry], other: &[StoreEntry]) -> bool {
    if log.len() != other.len() {
        return false;
    }
    for (a, b) in log.iter().zip(other) {
        let value = a.value.as_ref().map(|value| value.items());
        let wanted = b.value.as_ref().map(|value| value.items());
        if a.store != b.store || a.key.items() != b.key.items() || value != wanted {
            return false;
        }
    }
    true
}

/// Whether the changes of a store are these entries.
fn changes_are(alloc: Global, store: &mut WStore, text: &str) -> Result<bool, AllocError> {
    let wanted = entries(alloc, &pieces(alloc, text)?)?;
    Ok(are_same(store.changes(alloc)?.items(), &wanted))
}

/// Sets the value of a window, from a text `KEY@START=VALUE`.
fn set(alloc: Global, store: &mut WStore, text: &str) -> Result<(), AllocError> {
    let (place, value) = text.split_once('=').unwrap_or((text, ""));
    let (key, start) = place.split_once('@').unwrap_or((place, ""));
    let start = start.parse::<u32>().unwrap_or(0);
    let at = window_key(alloc, key.as_bytes(), u64::from(start))?;
    store.set(alloc, at.items(), value.as_bytes())
}

/// Loads the entries of the store with the number 2.
fn load_second(alloc: Global, store: &mut WStore, text: &str) -> Result<(), AllocError> {
    let log = entries(alloc, &pieces(alloc, text)?)?;
    load(store, alloc, 2, &log)
}

/// What a store answers to a word, as `get:KEY@START` or `changes:ENTRIES`.
fn answer(
    alloc: Global,
    store: &mut WStore,
    command: &str,
    rest: &str,
) -> Result<String, AllocError> {
    match command {
        "at" => format!(in alloc; " {:?}", at(alloc, rest)?.items()),
        "get" => format!(in alloc; " {:?}", store.get(at(alloc, rest)?.items())),
        "starts" => format!(in alloc; " {:?}", store.starts(alloc, rest.as_bytes())?.as_slice()),
        "time" => format!(in alloc; " {}", store.time()),
        _ => format!(in alloc; " {}", changes_are(alloc, store, rest)?),
    }
}

/// Does what a word says, as `set:KEY@START=VALUE` or `expire:MOMENT`, and tells what it gives.
fn step(alloc: Global, store: &mut WStore, word: &str) -> Result<String, AllocError> {
    let (command, rest) = word.split_once(':').unwrap_or((word, ""));
    let moment = rest.parse::<u64>().unwrap_or(0);
    match command {
        "set" => set(alloc, store, rest)?,
        "load" => load_second(alloc, store, rest)?,
        "expire" => store.expire(alloc, moment)?,
        "advance" => store.advance_time(moment),
        _ => return answer(alloc, store, command, rest),
    }
    Ok(String::new(alloc))
}

/// What a store of windows of 10 milliseconds tells after each word of a text, with a blank between each two.
pub fn told(alloc: Global, text: &str) -> Result<String, AllocError> {
    let mut store = WStore::new(alloc, 10);
    let mut told = String::from_str(alloc, "told")?;
    for word in text.split(' ') {
        told.push_str(step(alloc, &mut store, word)?.as_str())?;
    }
    Ok(told)
}
