//! The end of windows: the windows with the earliest starts are deleted.
ghost use Rattle.std.specs.Prelude.{◌≡◌, ◌≤◌, ◌<◌, ◌⊎◌, ℕ, List, None, All, Contains, OnOk};
ghost use Rattle.std.specs.FinMap as finite;
ghost use Rattle.state_store.specs.Store.{Values, IsBase};
ghost use Rattle.window_store.specs.Windows.{IsWindowKey, start_of};
ghost use Rattle.window_store.specs.Starts.{IsIndex};

use crate::starts::Starts;
use ksql_types::Bytes;
use state_store::Store;
use std::alloc::{AllocError, Global};

/// Deletes these keys. After an error some of them may remain.
fn delete_all(kept: &mut Store, alloc: Global, keys: &[Bytes]) -> Result<(), AllocError>
    requires windows { All IsWindowKey keys.now }
    requires written { All IsWindowKey kept.old.written }
    ensures gone { OnOk result (All (λ key. finite.get kept.new.map key ≡ None) keys.now) }
    ensures others { (b : List ℕ) → (finite.get kept.new.map b ≡ finite.get kept.old.map b) ⊎ (Contains keys.now b × (finite.get kept.new.map b ≡ None)) }
    ensures written { All IsWindowKey kept.new.written }
    ensures base { (base : Values) → IsBase base kept.old → IsBase base kept.new }
{
    for key in keys {
        kept.delete(alloc, key.items())?;
    }
    Ok(())
}

/// Deletes the windows whose start is at most `last`. After an error some of them may remain.
pub(crate) fn end_until(
    kept: &mut Store,
    starts: &mut Starts,
    alloc: Global,
    last: u64,
) -> Result<(), AllocError>
    requires { IsIndex starts.old kept.old }
    ensures index { IsIndex starts.new kept.new }
    ensures gone { OnOk result ((b : List ℕ) → start_of b ≤ last → finite.get kept.new.map b ≡ None) }
    ensures others { (b : List ℕ) → last < start_of b → finite.get kept.new.map b ≡ finite.get kept.old.map b }
    ensures base { (base : Values) → IsBase base kept.old → IsBase base kept.new }
{
    while let Some((start, keys)) = starts.first_key_value() {
        if *start > last {
            break;
        }
        delete_all(kept, alloc, keys)?;
        drop(starts.pop_first());
    }
    Ok(())
}
