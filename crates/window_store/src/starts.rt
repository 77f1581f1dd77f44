//! The index of a window store: for each start, the bytes of the windows that it may hold.
ghost use Rattle.std.specs.Prelude.{◌≡◌, ◌==◌, ◌≤◌, ◌++◌, ◌∷◌, [], ℕ, List, if◌then◌else◌, All, Contains, IsSome, IfOk, IfSome, OnOk, OnErr, length};
ghost use Rattle.std.specs.FinMap as finite;
ghost use Rattle.state_store.specs.Store.{replay};
ghost use Rattle.window_store.specs.Windows.{IsWindowKey, start_of};
ghost use Rattle.window_store.specs.Starts.{noted, IsByStart, IsIndex};

use crate::keys::start_of;
use ksql_types::{Bytes, StoreEntry};
use state_store::Store;
use std::alloc::{AllocError, Global};
use std::collections::BTreeMap;

/// For each start, the bytes of each window that the store holds, and perhaps of some that it doesn't hold any more.
pub(crate) type Starts = BTreeMap<u64, Vec<Bytes>>;

/// Adds the bytes of a window to the index, unless the store holds it. A place from a look-up means that it does.
pub(crate) fn note_new(
    starts: &mut Starts,
    kept: &Store,
    alloc: Global,
    place: Option<usize>,
    at: &[u8],
) -> Result<(), AllocError>
    requires window { IsWindowKey at.now }
    requires held { IfSome place (λ _. IsSome (finite.get kept.now.map at.now)) }
    requires index { IsIndex starts.old kept.now }
    ensures index { IsIndex starts.new kept.now }
    ensures noted { OnOk result (Contains (noted starts.new (start_of at.now)) at.now) }
{
    if place.is_some() || kept.get(at).is_some() {
        return Ok(());
    }
    note(starts, alloc, at)
}

/// Adds the bytes of a window under its start.
fn note(starts: &mut Starts, alloc: Global, at: &[u8]) -> Result<(), AllocError>
    requires { 8 ≤ length at.now }
    ensures noted { OnOk result ((s : ℕ) → noted starts.new s ≡ (if s == start_of at.now then noted starts.old s ++ at.now ∷ [] else noted starts.old s)) }
    ensures kept { OnErr result ((s : ℕ) → noted starts.new s ≡ noted starts.old s) }
{
    let start = start_of(at);
    let mut bytes = Vec::with_capacity(alloc, at.len())?;
    bytes.extend_from_slice(at)?;
    let bytes = Bytes::of(bytes);
    match starts.get_mut(&start) {
        Some(noted) => noted.push(bytes)?,
        None => {
            let noted = vec![in alloc; bytes]?;
            starts.insert(start, noted)?;
        }
    }
    Ok(())
}

/// An index of the windows that remain after these changes of an empty store.
pub(crate) fn index_of(alloc: Global, changes: &[StoreEntry]) -> Result<Starts, AllocError>
    requires { All (λ change. IsWindowKey change.key) changes.now }
    ensures by_start { IfOk result IsByStart }
    ensures held { IfOk result (λ starts. (b : List ℕ) → IsSome (finite.get (replay finite.empty changes.now) b) → Contains (noted starts (start_of b)) b) }
{
    let mut starts = Starts::new(alloc);
    for change in changes {
        if change.value.is_some() {
            note(&mut starts, alloc, change.key.items())?;
        }
    }
    Ok(starts)
}
