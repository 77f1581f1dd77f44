//! The window store and its operations.
ghost use Rattle.std.specs.Prelude.{◌≡◌, ◌≤◌, ◌<◌, ◌^◌, ◌↔◌, ℕ, List, [], max, None, if◌then◌else◌, All, AllPairs, Contains, IsTrue, IfOk, IfSome, IsSome, OnOk, OnErr, is_some, option_copied};
ghost use Rattle.std.specs.FinMap as finite;
ghost use Rattle.state_store.specs.Store.{Values, replay, numbered, IsBase};
ghost use Rattle.operator.specs.Holding.{time_after, IsWindowEntry};
ghost use Rattle.window_store.specs.Windows.{under, IsWindowKey, has_ended, of_windows, of_time};

use crate::ending::end_until;
use crate::keys::window_key;
use crate::loading::{loaded_time, loaded_windows, time_entry};
use crate::starts::{Starts, index_of, note_new};
use ksql_types::{Bytes, Changelog, StoreEntry};
use state_store::{Found, Store};
use std::alloc::{AllocError, Global};
use std::marker::Model;

/// The windows of one size: a value for each key and start, by their bytes, and the stream time.
#[derive(Drop)]
pub struct WStore {
    size: u64,
    kept: Store,
    time: u64,
    starts: Starts,
}

impl Model for WStore {
    ghost use Rattle.window_store.specs.Windows.{Windows, windows_code};
    ghost use Rattle.window_store.specs.Starts.{IsIndex};

    ghost Value = { Windows };

    ghost coded = { windows_code };

    ghost view = { λ s. record { size = s.size; content = s.kept; time = s.time } };

    ghost invariant = { λ s. IsIndex s.starts s.kept };
}

impl WStore {
    /// A store without windows, at stream time 0. Takes no memory.
    pub fn new(alloc: Global, size: u64) -> WStore
        requires { size ≤ 2 ^ 56 }
        ensures { result ≡ record { size = size; content = record { map = finite.empty; written = [] }; time = 0 } }
    {
        WStore {
            size,
            kept: Store::new(alloc),
            time: 0,
            starts: Starts::new(alloc),
        }
    }

    /// The stream time.
    pub fn time(&self) -> u64
        ensures { result ≡ self.now.time }
    {
        self.time
    }

    /// The value of the window with these bytes, or None if it has none.
    pub fn get(&self, at: &[u8]) -> Option<&[u8]>
        ensures { option_copied result ≡ finite.get self.now.content.map at.now }
    {
        self.kept.get(at)
    }

    /// The value of the window with these bytes, as `get` returns it, and the place of its slot.
    pub fn find(&self, at: &[u8]) -> Found<'_>
        ensures value { option_copied result.value ≡ finite.get self.now.content.map at.now }
        ensures held { IfSome result.place (λ _. IsSome (finite.get self.now.content.map at.now)) }
    {
        self.kept.find(at)
    }

    /// The starts of the windows held for a key, ascending, up to a start of 2^56.
    pub fn starts(&self, alloc: Global, key: &[u8]) -> Result<Vec<u64>, AllocError>
        ensures ascending { IfOk result (λ starts. AllPairs (λ start later. start < later) starts.items) }
        ensures held { IfOk result (λ starts. (start : ℕ) → start ≤ 2 ^ 56 → (Contains starts.items start ↔ IsTrue (is_some (finite.get self.now.content.map (under key.now start))))) }
        ensures bounded { IfOk result (λ starts. All (λ start. start ≤ 2 ^ 56) starts.items) }
    {
        let mut held = Vec::new(alloc);
        let mut at = window_key(alloc, key, 0)?.into_items();
        for start in self.starts.keys() {
            at.truncate(key.len());
            at.extend_from_slice(&start.to_be_bytes())?;
            if self.kept.get(&at).is_some() {
                held.push(*start)?;
            }
        }
        Ok(held)
    }

    /// Sets the value of the window with these bytes. After an error the store is unchanged.
    pub fn set(&mut self, alloc: Global, at: &[u8], value: &[u8]) -> Result<(), AllocError>
        requires { IsWindowKey at.now }
        ensures map { OnOk result (self.new.content.map ≡ finite.insert self.old.content.map at.now value.now) }
        ensures same_size { self.new.size ≡ self.old.size }
        ensures same_time { self.new.time ≡ self.old.time }
        ensures base { (base : Values) → IsBase base self.old.content → IsBase base self.new.content }
        ensures kept { OnErr result (self.new ≡ self.old) }
    {
        note_new(&mut self.starts, &self.kept, alloc, None, at)?;
        self.kept.set(alloc, at, value)
    }

    /// Sets the value of the window with these bytes, as `set` does. A place from `find` for this window saves the
    /// look-up.
    pub fn set_at(
        &mut self,
        alloc: Global,
        place: Option<usize>,
        at: &[u8],
        value: Bytes,
    ) -> Result<(), AllocError>
        requires window { IsWindowKey at.now }
        requires held { IfSome place (λ _. IsSome (finite.get self.old.content.map at.now)) }
        ensures map { OnOk result (self.new.content.map ≡ finite.insert self.old.content.map at.now value) }
        ensures same_size { self.new.size ≡ self.old.size }
        ensures same_time { self.new.time ≡ self.old.time }
        ensures base { (base : Values) → IsBase base self.old.content → IsBase base self.new.content }
        ensures kept { OnErr result (self.new ≡ self.old) }
    {
        note_new(&mut self.starts, &self.kept, alloc, place, at)?;
        self.kept.write_at(alloc, place, at, Some(value))
    }

    /// Deletes the windows whose end (start plus size) is at most `moment`. After an error some of them may remain.
    pub fn expire(&mut self, alloc: Global, moment: u64) -> Result<(), AllocError>
        ensures gone { OnOk result ((b : List ℕ) → finite.get self.new.content.map b ≡ (if has_ended self.old.size moment b then None else finite.get self.old.content.map b)) }
        ensures same_size { self.new.size ≡ self.old.size }
        ensures same_time { self.new.time ≡ self.old.time }
        ensures base { (base : Values) → IsBase base self.old.content → IsBase base self.new.content }
    {
        let Some(last) = moment.checked_sub(self.size) else {
            return Ok(());
        };
        end_until(&mut self.kept, &mut self.starts, alloc, last)
    }

    /// Advances the stream time to a later time. Takes no memory.
    pub fn advance_time(&mut self, time: u64)
        ensures { self.new ≡ record self.old { time = max self.old.time time } }
    {
        self.time = self.time.max(time);
    }

    /// Commits, and returns the changes since the last commit, with store number 0: one for each window that was set or
    /// deleted, with its value now or None, and then the stream time under the empty key. After an error the store is
    /// unchanged.
    pub fn changes(&mut self, alloc: Global) -> Result<Changelog, AllocError>
        ensures replayed { IfOk result (λ log. (base : Values) → IsBase base self.old.content → replay base (of_windows log) ≡ self.new.content.map) }
        ensures time { IfOk result (λ log. (time : ℕ) → time_after time (of_time log) ≡ self.new.time) }
        ensures loadable { IfOk result (All IsWindowEntry) }
        ensures committed { OnOk result (self.new ≡ record self.old { content = record { map = self.old.content.map; written = [] } }) }
        ensures kept { OnErr result (self.new ≡ self.old) }
    {
        let time = time_entry(alloc, self.time)?;
        let mut changes = self.kept.changes_since_commit(alloc)?.into_items();
        changes.reserve(1)?;
        self.kept.commit(&changes);
        changes.push(time)?;
        Ok(Changelog::of(changes))
    }

    /// Replaces the content by the replay of the entries with this store number on an empty store. Nothing counts as
    /// changed. After an error the store is unchanged.
    pub fn load(&mut self, alloc: Global, number: u32, log: &[StoreEntry]) -> Result<(), AllocError>
        requires { All IsWindowEntry (numbered number log.now) }
        ensures loaded { OnOk result (self.new ≡ record {
          size = self.old.size;
          content = record { map = replay finite.empty (of_windows (numbered number log.now)); written = [] };
          time = time_after 0 (of_time (numbered number log.now));
        }) }
        ensures kept { OnErr result (self.new ≡ self.old) }
    {
        let mut kept = loaded_windows(alloc, number, log)?;
        let changes = kept.changes(alloc)?;
        let starts = index_of(alloc, changes.items())?;
        *self = WStore {
            size: self.size,
            kept,
            time: loaded_time(number, log),
            starts,
        };
        Ok(())
    }
}
