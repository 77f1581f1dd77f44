//! The table of a store: a slot for each key that has a value or was deleted since the last commit.
ghost use Rattle.std.specs.Prelude.{◌≡◌, ◌<◌, ℕ, None, Some, nat_eq, All, IfOk, IfSome, OnOk, OnErr, is_some, length, slice_get};
ghost use Rattle.std.specs.FinMap as finite;
ghost use Rattle.std.specs.List.{list_any, IsDistinct};
ghost use Rattle.std.specs.Map.{keys_of};
ghost use Rattle.std.specs.Str.{bytes_eq};
ghost use Rattle.indexmap.specs.IndexSet.{insert_key};
ghost use Rattle.state_store.specs.Store.{with_value, replay, numbered, last_of_each, changes_of};
ghost use Rattle.state_store.specs.Slots.{keys_in, values_in, content_of, AreIndexes};

use indexmap::{IndexMap, IndexSet};
use ksql_types::{Bytes, StoreEntry};
use std::alloc::{AllocError, Global};

/// The value of each key, or None if it was deleted. A key keeps its index until a slot is removed.
pub(crate) type Slots = IndexMap<Vec<u8>, Option<Bytes>>;

/// Sets a key's value, or deletes it if None, and returns the index of its slot. `place` is a guess at that index.
pub(crate) fn put(
    slots: &mut Slots,
    alloc: Global,
    place: Option<usize>,
    key: &[u8],
    value: Option<Bytes>,
) -> Result<usize, AllocError>
    ensures values { OnOk result (values_in slots.new.entries ≡ with_value (values_in slots.old.entries) key.now value) }
    ensures keys { OnOk result (keys_in slots.new.entries ≡ insert_key bytes_eq (keys_in slots.old.entries) key.now) }
    ensures index { IfOk result (λ index. slice_get (keys_in slots.new.entries) index ≡ Some key.now) }
    ensures kept { OnErr result (slots.new.entries ≡ slots.old.entries) }
{
    match index_of(slots, place, key) {
        Some(index) => {
            slots[index] = value;
            Ok(index)
        }
        None => {
            let (index, _) = slots.insert_full(copied(alloc, key)?, value)?;
            Ok(index)
        }
    }
}

/// The index of a key's slot. A right guess in `place` saves the look-up.
fn index_of(slots: &Slots, place: Option<usize>, key: &[u8]) -> Option<usize>
    ensures key { IfSome result (λ index. slice_get (keys_in slots.now.entries) index ≡ Some key.now) }
    ensures found { is_some result ≡ list_any (bytes_eq key.now) (keys_in slots.now.entries) }
    ensures unique { IsDistinct (λ x y. bytes_eq x.items y.items) (keys_of slots.now.entries) }
{
    let entries = slots.as_slice();
    if let Some(index) = place
        && let Some((there, _)) = entries.get_index(index)
        && there.as_slice() == key
    {
        return place;
    }
    slots.get_index_of(key)
}

/// Removes a key and its slot.
fn remove(slots: &mut Slots, key: &[u8])
    ensures { values_in slots.new.entries ≡ with_value (values_in slots.old.entries) key.now None }
{
    drop(slots.swap_remove(key));
}

/// Sets or deletes the key of a changelog entry.
fn apply(slots: &mut Slots, alloc: Global, entry: &StoreEntry) -> Result<(), AllocError>
    ensures { OnOk result (values_in slots.new.entries ≡ with_value (values_in slots.old.entries) entry.now.key entry.now.value) }
{
    match &entry.value {
        Some(value) => {
            let value = copied(alloc, value.items())?;
            put(
                slots,
                alloc,
                None,
                entry.key.items(),
                Some(Bytes::of(value)),
            )?;
        }
        None => remove(slots, entry.key.items()),
    }
    Ok(())
}

/// The slots after replaying the entries with this store number.
pub(crate) fn replayed(alloc: Global, number: u32, log: &[StoreEntry]) -> Result<Slots, AllocError>
    ensures { IfOk result (λ slots. values_in slots.entries ≡ replay finite.empty (numbered number log.now)) }
{
    let mut slots = Slots::new(alloc);
    for entry in log {
        if entry.store == number {
            apply(&mut slots, alloc, entry)?;
        }
    }
    Ok(slots)
}

/// A key and its value as a changelog entry.
fn change(alloc: Global, key: &[u8], value: &Option<Bytes>) -> Result<StoreEntry, AllocError>
    ensures { IfOk result (λ change. change ≡ record { store = 0; key = key.now; value = value.now }) }
{
    Ok(StoreEntry {
        store: 0,
        key: Bytes::of(copied(alloc, key)?),
        value: copied_value(alloc, value)?,
    })
}

/// The changes of the slots with these indexes, one per slot, in the order of each index's last occurrence.
pub(crate) fn changes_at(
    slots: &Slots,
    alloc: Global,
    writes: &[usize],
) -> Result<Vec<StoreEntry>, AllocError>
    requires { AreIndexes slots.now.entries writes.now }
    ensures { IfOk result (λ changes. changes.items ≡ changes_of (content_of slots.now.entries writes.now)) }
{
    let entries = slots.as_slice();
    let last = last_of_each(alloc, writes)?;
    let mut changes = Vec::with_capacity(alloc, last.len())?;
    for index in last.as_slice() {
        let (key, value) = entries.get_index(*index).unwrap();
        changes.push(change(alloc, key.as_slice(), value)?)?;
    }
    Ok(changes)
}

/// Each index once, in the order of its last occurrence.
fn last_of_each(alloc: Global, writes: &[usize]) -> Result<IndexSet<usize>, AllocError>
    ensures { IfOk result (λ last. last.keys ≡ last_of_each nat_eq writes.now) }
{
    let mut last: IndexSet<usize> = writes.iter().rev().copied().collect(alloc)?;
    last.reverse();
    Ok(last)
}

/// Removes the slots of the keys that were deleted.
pub(crate) fn remove_deleted(slots: &mut Slots, changes: &[StoreEntry])
    requires { All (λ change. finite.get (values_in slots.old.entries) change.key ≡ change.value) changes.now }
    ensures { values_in slots.new.entries ≡ values_in slots.old.entries }
{
    for change in changes {
        if change.value.is_none() {
            remove(slots, change.key.items());
        }
    }
}

/// A copy of a value, if any.
fn copied_value(alloc: Global, value: &Option<Bytes>) -> Result<Option<Bytes>, AllocError>
    ensures { IfOk result (λ copy. copy ≡ value.now) }
{
    match value {
        Some(value) => Ok(Some(Bytes::of(copied(alloc, value.items())?))),
        None => Ok(None),
    }
}

/// A copy with no spare capacity.
pub(crate) fn copied(alloc: Global, bytes: &[u8]) -> Result<Vec<u8>, AllocError>
    ensures { IfOk result (λ copy. copy.items ≡ bytes.now) }
{
    let mut copy = Vec::with_capacity(alloc, bytes.len())?;
    copy.extend_from_slice(bytes)?;
    Ok(copy)
}
