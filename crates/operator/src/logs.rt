ghost use Rattle.std.specs.Prelude.{◌≡◌, map};
ghost use Rattle.operator.specs.Holding.{in_store};

use ksql_types::{Changelog, StoreEntry};

/// The entries of a store's changelog under the store's number. Takes no memory.
pub fn with_number(log: Changelog, number: u32) -> Changelog
    ensures { result ≡ map (in_store number) log }
{
    let mut entries: Vec<StoreEntry> = log.into_items();
    for entry in entries.iter_mut() {
        entry.store = number;
    }
    Changelog::of(entries)
}
