//! The store and its operations.
ghost use Rattle.std.specs.Prelude.{◌≡◌, ◌≢◌, ◌++◌, ◌∷◌, [], None, Some, AllPairs, IfOk, IfSome, IsSome, OnOk, OnErr, length, option_copied, option_map};
ghost use Rattle.std.specs.FinMap as finite;
ghost use Rattle.state_store.specs.Store.{Values, with_value, replay, numbered, changes_of, IsBase};

use crate::slots::{Slots, changes_at, copied, put, remove_deleted, replayed};
use ksql_types::{Bytes, Changelog, StoreEntry};
use std::alloc::{AllocError, Global};
use std::marker::Model;

/// The result of a look-up: the key's value, if any, and a place that lets `write_at` skip the look-up.
#[derive(Clone, Copy)]
pub struct Found<'a> {
    pub place: Option<usize>,
    pub value: Option<&'a [u8]>,
}

/// A finite map from bytes to bytes, and the keys that were set or deleted since the last commit.
#[derive(Drop)]
pub struct Store {
    slots: Slots,
    // The index of the slot of each write since the last commit, in the order of the writes.
    writes: Vec<usize>,
}

impl Model for Store {
    ghost use Rattle.state_store.specs.Store.{Content, content_code};
    ghost use Rattle.state_store.specs.Slots.{content_of, AreIndexes};

    ghost Value = { Content };

    ghost coded = { content_code };

    ghost view = { λ s. content_of s.slots.entries s.writes.items };

    ghost invariant = { λ s. AreIndexes s.slots.entries s.writes.items };
}

impl Store {
    /// An empty store. Takes no memory.
    pub fn new(alloc: Global) -> Store
        ensures { result ≡ record { map = finite.empty; written = [] } }
    {
        Store {
            slots: Slots::new(alloc),
            writes: Vec::new(alloc),
        }
    }

    /// The length in bytes of a key's value, or None if it has none.
    pub fn len_of(&self, key: &[u8]) -> Option<u64>
        ensures { result ≡ option_map length (finite.get self.now.map key.now) }
    {
        self.get(key).map(|value| value.len() as u64)
    }

    /// The value of a key, or None if it has none.
    pub fn get(&self, key: &[u8]) -> Option<&[u8]>
        ensures { option_copied result ≡ finite.get self.now.map key.now }
    {
        self.find(key).value
    }

    /// A key's value, as `get` returns it, and the place of its slot.
    pub fn find(&self, key: &[u8]) -> Found<'_>
        ensures value { option_copied result.value ≡ finite.get self.now.map key.now }
        ensures held { IfSome result.place (λ _. IsSome (finite.get self.now.map key.now)) }
    {
        match self.held(key) {
            Some((place, value)) => Found {
                place: Some(place),
                value: Some(value),
            },
            None => Found {
                place: None,
                value: None,
            },
        }
    }

    /// The index of a key's slot and the value there, or None if the key has no value.
    fn held(&self, key: &[u8]) -> Option<(usize, &[u8])>
        ensures { option_map (λ held. held.1.now) result ≡ finite.get self.now.map key.now }
    {
        let slot = self.slots.get_full(key)?;
        let value = slot.2.as_ref()?;
        Some((slot.0, value.items()))
    }

    /// Sets the value of a key. After an error the store is unchanged.
    pub fn set(&mut self, alloc: Global, key: &[u8], value: &[u8]) -> Result<(), AllocError>
        ensures map { OnOk result (self.new.map ≡ finite.insert self.old.map key.now value.now) }
        ensures written { OnOk result (self.new.written ≡ self.old.written ++ key.now ∷ []) }
        ensures base { (base : Values) → IsBase base self.old → IsBase base self.new }
        ensures kept { OnErr result (self.new ≡ self.old) }
    {
        let value = copied(alloc, value)?;
        self.write_at(alloc, None, key, Some(Bytes::of(value)))
    }

    /// Deletes a key, which counts as changed even if it had no value. After an error the store is unchanged.
    pub fn delete(&mut self, alloc: Global, key: &[u8]) -> Result<(), AllocError>
        ensures map { OnOk result (self.new.map ≡ finite.remove self.old.map key.now) }
        ensures written { OnOk result (self.new.written ≡ self.old.written ++ key.now ∷ []) }
        ensures base { (base : Values) → IsBase base self.old → IsBase base self.new }
        ensures kept { OnErr result (self.new ≡ self.old) }
    {
        self.write_at(alloc, None, key, None)
    }

    /// Commits, and returns the changes since the last commit: one for each key that was set or deleted, in the order
    /// of the last writes, with its value now or None. Each has store number 0. After an error the store is unchanged.
    pub fn changes(&mut self, alloc: Global) -> Result<Changelog, AllocError>
        ensures given { IfOk result (λ log. log ≡ changes_of self.old) }
        ensures one_each { IfOk result (λ log. AllPairs (λ change later. change.key ≢ later.key) log) }
        ensures replayed { IfOk result (λ log. (base : Values) → IsBase base self.old → replay base log ≡ self.new.map) }
        ensures map { self.new.map ≡ self.old.map }
        ensures committed { OnOk result (self.new.written ≡ []) }
        ensures kept { OnErr result (self.new ≡ self.old) }
    {
        let changes = self.changes_since_commit(alloc)?;
        self.commit(changes.items());
        Ok(changes)
    }

    /// The changes since the last commit, as `changes` returns them, without committing.
    pub fn changes_since_commit(&self, alloc: Global) -> Result<Changelog, AllocError>
        ensures { IfOk result (λ log. log ≡ changes_of self.now) }
    {
        let changes = changes_at(&self.slots, alloc, &self.writes)?;
        Ok(Changelog::of(changes))
    }

    /// Commits: no key counts as changed any more. `changes` are those since the last commit. Takes no memory.
    pub fn commit(&mut self, changes: &[StoreEntry])
        requires { changes.now ≡ changes_of self.old }
        ensures { self.new ≡ record { map = self.old.map; written = [] } }
    {
        self.writes.clear();
        remove_deleted(&mut self.slots, changes);
    }

    /// Replaces the content by the replay of the entries with this store number on an empty map. Nothing counts as
    /// changed. After an error the store is unchanged.
    pub fn load(&mut self, alloc: Global, number: u32, log: &[StoreEntry]) -> Result<(), AllocError>
        ensures map { OnOk result (self.new.map ≡ replay finite.empty (numbered number log.now)) }
        ensures committed { OnOk result (self.new.written ≡ []) }
        ensures kept { OnErr result (self.new ≡ self.old) }
    {
        let slots = replayed(alloc, number, log)?;
        *self = Store {
            slots,
            writes: Vec::new(alloc),
        };
        Ok(())
    }

    /// Sets the value of a key, or deletes it if `value` is None. A place from `find` for this key saves the look-up;
    /// any other place acts as None. After an error the store is unchanged.
    pub fn write_at(
        &mut self,
        alloc: Global,
        place: Option<usize>,
        key: &[u8],
        value: Option<Bytes>,
    ) -> Result<(), AllocError>
        ensures map { OnOk result (self.new.map ≡ with_value self.old.map key.now value) }
        ensures written { OnOk result (self.new.written ≡ self.old.written ++ key.now ∷ []) }
        ensures base { (base : Values) → IsBase base self.old → IsBase base self.new }
        ensures kept { OnErr result (self.new ≡ self.old) }
    {
        self.writes.reserve(1)?;
        let index = put(&mut self.slots, alloc, place, key, value)?;
        self.writes.push(index)?;
        Ok(())
    }
}
