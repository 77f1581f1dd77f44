//! What the entries of a changelog say about windows and the stream time.
ghost use Rattle.std.specs.Prelude.{◌≡◌, ◌==◌, ◌&&◌, ◌++◌, ◌∷◌, [], not, All, IsTrue, IfOk, OnOk, Some};
ghost use Rattle.std.specs.FinMap as finite;
ghost use Rattle.state_store.specs.Store.{Values, with_value, replay, numbered, IsBase};
ghost use Rattle.record_codec.specs.Spelling.{eight};
ghost use Rattle.operator.specs.Holding.{is_of_time, time_after, IsWindowEntry};
ghost use Rattle.window_store.specs.Windows.{IsWindowKey, of_windows, of_time};

use crate::keys::number_in;
use ksql_types::{Bytes, StoreEntry};
use state_store::Store;
use std::alloc::{AllocError, Global};

/// A time as an entry of a changelog.
#[tactic(auto, unfolding(record_codec::specs::Spelling::eight))]
pub(crate) fn time_entry(alloc: Global, time: u64) -> Result<StoreEntry, AllocError>
    ensures { IfOk result (λ entry. entry ≡ record { store = 0; key = []; value = Some (eight time) }) }
{
    let mut bytes = Vec::with_capacity(alloc, 8)?;
    bytes.extend_from_slice(&time.to_be_bytes())?;
    Ok(StoreEntry {
        store: 0,
        key: Bytes::of(Vec::new(alloc)),
        value: Some(Bytes::of(bytes)),
    })
}

/// Whether an entry has this store number and is a window's.
fn is_of_window(entry: &StoreEntry, number: u32) -> bool
    ensures { result ≡ (entry.now.store == number && not (is_of_time entry.now)) }
{
    entry.store == number && !entry.key.items().is_empty()
}

/// Whether an entry has this store number and is the stream time's.
fn is_of_time(entry: &StoreEntry, number: u32) -> bool
    ensures { result ≡ (entry.now.store == number && is_of_time entry.now) }
{
    entry.store == number && entry.key.items().is_empty()
}

/// The stream time after an entry of the stream time.
fn said_time(entry: &StoreEntry, before: u64) -> u64
    requires loadable { IsWindowEntry entry.now }
    requires of_time { IsTrue (is_of_time entry.now) }
    ensures { result ≡ time_after before (entry.now ∷ []) }
{
    match &entry.value {
        Some(value) => number_in(value.items()),
        None => before,
    }
}

/// The last stream time in the entries with this store number, or 0 if there is none.
pub(crate) fn loaded_time(number: u32, log: &[StoreEntry]) -> u64
    requires { All IsWindowEntry (numbered number log.now) }
    ensures { result ≡ time_after 0 (of_time (numbered number log.now)) }
{
    let mut time = 0;
    for entry in log {
        if is_of_time(entry, number) {
            time = said_time(entry, time);
        }
    }
    time
}

/// The windows after replaying the entries with this store number.
pub(crate) fn loaded_windows(
    alloc: Global,
    number: u32,
    log: &[StoreEntry],
) -> Result<Store, AllocError>
    requires { All IsWindowEntry (numbered number log.now) }
    ensures map { IfOk result (λ kept. kept.map ≡ replay finite.empty (of_windows (numbered number log.now))) }
    ensures base { IfOk result (IsBase finite.empty) }
    ensures written { IfOk result (λ kept. All IsWindowKey kept.written) }
{
    let mut kept = Store::new(alloc);
    for entry in log {
        if is_of_window(entry, number) {
            apply(&mut kept, alloc, entry)?;
        }
    }
    Ok(kept)
}

/// Sets or deletes the key of an entry.
fn apply(kept: &mut Store, alloc: Global, entry: &StoreEntry) -> Result<(), AllocError>
    ensures map { OnOk result (kept.new.map ≡ with_value kept.old.map entry.now.key entry.now.value) }
    ensures written { OnOk result (kept.new.written ≡ kept.old.written ++ entry.now.key ∷ []) }
    ensures base { (base : Values) → IsBase base kept.old → IsBase base kept.new }
{
    match &entry.value {
        Some(value) => kept.set(alloc, entry.key.items(), value.items()),
        None => kept.delete(alloc, entry.key.items()),
    }
}
