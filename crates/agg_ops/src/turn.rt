//! One more change of a group, and the bytes kept for the group.
ghost use Rattle.std.specs.Prelude.{◌≡◌, suc, ◌<◌, ◌≤◌, ◌^◌, List, [], Option, All, IfOk, IfSome, length, option_copied, option_map, unwrap_or};
ghost use Rattle.ksql_types.specs.declared.value.Value.{Value as OneValue};
ghost use Rattle.record_codec.specs.Spelling.{values, AreSpellable, IsShort};
ghost use Rattle.operator.specs.Storable.{HasShortArguments};
ghost use Rattle.agg_ops.specs.Totals.{next_totals};

use crate::totals::next_totals;
use ksql_place::Change;
use ksql_program::Agg;
use ksql_types::{Bytes, Kind, Value};
use record_codec::{decode_values, encode_values};
use std::alloc::{AllocError, Global};

/// The values kept for a group before and after a change, and the bytes of those after it.
#[derive(Drop)]
pub(crate) struct Turn {
    pub(crate) before: Vec<Value>,
    pub(crate) after: Vec<Value>,
    pub(crate) bytes: Bytes,
}

/// Adds a change to the group that `bytes` keeps, if any. The lists have room for `room` more values.
pub(crate) fn turned(
    alloc: Global,
    over: Kind,
    aggs: &[Agg],
    room: usize,
    bytes: Option<&[u8]>,
    change: &Change,
) -> Result<Turn, AllocError>
    requires time { change.now.time ≤ 2 ^ 53 }
    requires few { suc (length aggs.now) < 2 ^ 32 }
    requires short { HasShortArguments aggs.now change.now }
    ensures before { (kept : Option (List OneValue)) → IfSome kept AreSpellable → option_copied bytes.entry ≡ option_map values kept →
        IfOk result (λ turn. turn.before.items ≡ unwrap_or kept []) }
    ensures after { IfOk result (λ turn. turn.after.items ≡ next_totals over aggs.now change.now turn.before.items) }
    ensures bytes { IfOk result (λ turn. turn.bytes ≡ values turn.after.items) }
    ensures spellable { IfOk result (λ turn. AreSpellable turn.after.items) }
{
    let before = kept_in(alloc, room, bytes)?;
    let after = next_totals(alloc, over, aggs, room, before.as_slice(), change)?;
    let bytes = encode_values(alloc, after.as_slice())?;
    Ok(Turn {
        before,
        after,
        bytes,
    })
}

/// The values in `bytes`; none if `bytes` is None or spells no values.
fn kept_in(alloc: Global, room: usize, bytes: Option<&[u8]>) -> Result<Vec<Value>, AllocError>
    ensures value { (kept : Option (List OneValue)) → IfSome kept AreSpellable → option_copied bytes.entry ≡ option_map values kept →
        IfOk result (λ found. found.items ≡ unwrap_or kept []) }
    ensures short { IfOk result (λ found. All IsShort found.items) }
{
    let Some(bytes) = bytes else {
        return Ok(Vec::new(alloc));
    };
    match decode_values(alloc, bytes, room)? {
        Some(kept) => Ok(kept.into_items()),
        None => Ok(Vec::new(alloc)),
    }
}
