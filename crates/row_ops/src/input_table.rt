//! The table at an input: for each key, by its bytes, the change that set its row.
ghost use Rattle.std.specs.Prelude.{◌≡◌, ℕ, List, [], ◌∷◌, ◌++◌, All, IfOk, IfSome, OnOk, option_copied, option_map, unwrap_or};
ghost use Rattle.ksql_nodes.specs.Entries.{Entry, of_key};
ghost use Rattle.state_store.specs.Store.{Values, IsBase};
ghost use Rattle.ksql_types.specs.declared.value.Value.{Value as OneValue};
ghost use Rattle.record_codec.specs.Spelling.{spelling, values, IsShort, IsSpellable, IsSpellableRow};
ghost use Rattle.operator.specs.Kept.{kept, kept_after};
ghost use Rattle.operator.specs.Storable.{HasShortRow};
ghost use Rattle.row_ops.specs.InputTable.{HoldsRows, latest_row};

use ksql_place::Change;
use ksql_types::{Bytes, Key, Row};
use operator::{is_short, spelled_key};
use record_codec::{decode_new, encode_new};
use row_steps::row_in;
use state_store::Store;
use std::alloc::{AllocError, Global};

/// Puts a change into the table, and returns the previous row of its key, after the time of the change that set it;
/// None if it had none.
pub fn turn(
    store: &mut Store,
    alloc: Global,
    change: &Change,
) -> Result<Option<(u64, Row)>, AllocError>
    requires key { All IsShort change.now.key }
    requires row { HasShortRow change.now }
    ensures next { IfOk result (λ before. (side : ℕ) (es : List Entry) → HoldsRows store.old.map es →
        (before ≡ latest_row (of_key change.now.key es)) × HoldsRows store.new.map (es ++ record { side = side; change = change.now } ∷ [])) }
    ensures base { (base : Values) → IsBase base store.old → IsBase base store.new }
{
    let key = spelled_key(alloc, &change.key)?;
    turn_at(store, alloc, key.items(), change)
}

/// As `turn`, under the bytes of the change's key.
pub fn turn_at(
    store: &mut Store,
    alloc: Global,
    key: &[u8],
    change: &Change,
) -> Result<Option<(u64, Row)>, AllocError>
    requires bytes { key.now ≡ values change.now.key }
    requires key { IsSpellableRow change.now.key }
    requires row { HasShortRow change.now }
    ensures next { IfOk result (λ before. (side : ℕ) (es : List Entry) → HoldsRows store.old.map es →
        (before ≡ latest_row (of_key change.now.key es)) × HoldsRows store.new.map (es ++ record { side = side; change = change.now } ∷ [])) }
    ensures base { (base : Values) → IsBase base store.old → IsBase base store.new }
{
    let found = store.find(key);
    let place = found.place;
    let before = kept_in(alloc, found.value)?;
    let bytes = kept_of(alloc, change)?;
    store.write_at(alloc, place, key, bytes)?;
    Ok(before)
}

/// The current row of a key, as `turn` returns it; the table is unchanged. Any key is allowed.
pub fn standing(store: &Store, alloc: Global, key: &Key) -> Result<Option<(u64, Row)>, AllocError>
    ensures { IfOk result (λ found. (es : List Entry) → HoldsRows store.now.map es → found ≡ latest_row (of_key key.now es)) }
{
    // A key with a long value has no row.
    if !is_short(key) {
        return Ok(None);
    }
    let key = spelled_key(alloc, key)?;
    standing_at(store, alloc, key.items())
}

/// The current row of the key with these bytes, as `standing` returns it.
pub fn standing_at(
    store: &Store,
    alloc: Global,
    bytes: &[u8],
) -> Result<Option<(u64, Row)>, AllocError>
    ensures { IfOk result (λ found. (key : List OneValue) (es : List Entry) → bytes.now ≡ values key → IsSpellableRow key → HoldsRows store.now.map es → found ≡ latest_row (of_key key es)) }
{
    kept_in(alloc, store.get(bytes))
}

/// A row that was found, without its time.
pub fn row_of(found: Option<(u64, Row)>) -> Option<Row>
    ensures { result ≡ option_map (λ timed. timed.1) found }
{
    found.map(|(_, row)| row)
}

/// The time of a row that was found; 0 if there is none.
pub fn time_of(found: &Option<(u64, Row)>) -> u64
    ensures { result ≡ unwrap_or (option_map (λ timed. timed.0) found.now) 0 }
{
    match found {
        Some((time, _)) => *time,
        None => 0,
    }
}

/// The row stored in some bytes, after the time of its change; None if there are none.
fn kept_in(alloc: Global, bytes: Option<&[u8]>) -> Result<Option<(u64, Row)>, AllocError>
    ensures { (es : List Entry) → IfSome (kept_after es) IsSpellable → option_copied bytes.entry ≡ option_map spelling (kept_after es) →
        IfOk result (λ found. found ≡ latest_row es) }
{
    match bytes {
        Some(bytes) => decode_new(alloc, bytes),
        None => Ok(None),
    }
}

/// The bytes to store for a change; None if it brings no row.
fn kept_of(alloc: Global, change: &Change) -> Result<Option<Bytes>, AllocError>
    requires { HasShortRow change.now }
    ensures bytes { IfOk result (λ bytes. bytes ≡ option_map spelling (kept change.now)) }
    ensures spellable { OnOk result (IfSome (kept change.now) IsSpellable) }
{
    match row_in(&change.body) {
        Some(row) => Ok(Some(encode_new(alloc, change, row)?)),
        None => Ok(None),
    }
}
