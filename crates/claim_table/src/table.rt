//! A round and its claims, on a table of two words and a slot per item.
ghost use Rattle.std.specs.Prelude.{◌≡◌, ◌^◌, ◌<◌};

use crate::item::Item;
use crate::plays::{Key, Rule, View};
use atomic_table::{Seat, Table};
use std::alloc::Global;

/// Hands out items, each once. Threads share it by reference.
#[derive(Drop)]
pub struct Round<T: Item> {
    pub(crate) table: Table<Option<T>, View<T::Plan>, Key<T::Plan>, Rule<T>, Global>,
    pub(crate) count: u32,
    ghost words: { table.shared.table_id.words ≡ 2 },
    ghost slots: { table.shared.table_id.slots ≡ count },
    ghost small: { count < 2 ^ 32 },
    ghost claimed: { 0 < table.shared.key.claims },
}

/// A seat in a round, used by one thread. Only its own calls change what it knows.
#[derive(Drop)]
pub struct Claim<T: Item> {
    pub(crate) seat: Seat<Option<T>, View<T::Plan>>,
    pub(crate) over: bool,
}
