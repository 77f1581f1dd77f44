//! The operator of windowed aggregates.
ghost use Rattle.std.specs.Prelude.{◌≡◌, ℕ, suc, ◌<◌, ◌≤◌, ◌^◌, List, [], ◌∷◌, ◌++◌, Option, Some, All, IfOk, IfSome, IsTrue, OnOk, OnErr, length, option_map, unwrap_or};
ghost use Rattle.std.specs.FinMap as finite;
ghost use Rattle.ksql_types.specs.declared.relation.Kind.TheVariants as kinds;
ghost use Rattle.ksql_types.specs.declared.value.Value.{Value as OneValue};
ghost use Rattle.ksql_place.specs.declared.change.Change.{Change as OneChange};
ghost use Rattle.ksql_nodes.specs.declared.node.Node.TheVariants as nodes;
ghost use Rattle.ksql_nodes.specs.Entries.{Entry, latest_time};
ghost use Rattle.ksql_nodes.specs.Rows.{at_path};
ghost use Rattle.ksql_nodes.specs.Windows.{timed, windowed, with_times};
ghost use Rattle.state_store.specs.Store.{Values, IsBase};
ghost use Rattle.record_codec.specs.Spelling.{values, AreSpellable, IsShort};
ghost use Rattle.operator.specs.Front.{IsFront};
ghost use Rattle.operator.specs.Holding.{nothing};
ghost use Rattle.operator.specs.Storable.{HasShortArguments};
ghost use Rattle.window_store.specs.Windows.{IsWindowKey};
ghost use Rattle.agg_ops.specs.Totals.{changed, is_sound_window, is_window_aggregate, next_totals, HasBigBounds};
ghost use Rattle.agg_ops.specs.WindowGroups.{HoldsWindows};

use crate::totals::{kept_time, room_for_result, turn_of};
use crate::turn::turned;
use crate::windows::windows_of;
use ksql_nodes::Node;
use ksql_place::{Change, Place};
use ksql_program::{Agg, Aggs};
use ksql_types::{Changelog, CopyOf, Kind, Span, StoreEntry, Value, Window};
use operator::{Guarded, Processor, StoredProcessor, spelled_key, with_number};
use std::alloc::{AllocError, Global};
use std::marker::Model;
use window_store::{WStore, put_window_key};

/// The operator of a stream's groups in windows.
pub type WindowAggOp = Guarded<WindowGroups>;

/// What is kept of each group in each window.
#[derive(Drop)]
pub struct WindowGroups {
    aggs: Aggs,
    window: Window,
    kept: WStore,
}

impl Model for WindowGroups {
    ghost use Rattle.agg_ops.specs.WindowAggs.{WindowAggView, window_agg_code, AreWindowsOf};

    ghost Value = { WindowAggView };

    ghost coded = { window_agg_code };

    ghost view = { λ s. record { aggs = s.aggs; window = s.window; windows = s.kept } };

    ghost invariant = { λ s. AreWindowsOf s.window s.kept };
}

impl Processor for WindowGroups {
    ghost is_of = { is_window_aggregate };

    ghost node = { λ s. nodes.Aggregate kinds.Stream s.aggs (Some s.window) };

    ghost held = { λ s. record nothing { windows = s.windows.content; time = s.windows.time } };

    fn of(alloc: Global, origin: &Node) -> Result<WindowGroups, AllocError> {
        match origin {
            Node::Aggregate {
                over: Kind::Stream,
                aggs,
                window: Some(window),
            } => Ok(WindowGroups {
                aggs: aggs.copy(alloc)?,
                window: *window,
                kept: WStore::new(alloc, window.size),
            }),
            _ => unreachable!(),
        }
    }

    fn process(
        &mut self,
        alloc: Global,
        _side: u32,
        change: Change,
        out: &mut Vec<Change>,
    ) -> Result<(), AllocError> {
        let aggs = self.aggs.items();
        give(&mut self.kept, alloc, self.window, aggs, &change, out)
    }
}

impl StoredProcessor for WindowGroups {
    fn changes(&mut self, alloc: Global) -> Result<Changelog, AllocError> {
        Ok(with_number(self.kept.changes(alloc)?, 2))
    }

    fn load(&mut self, alloc: Global, log: &[StoreEntry]) -> Result<(), AllocError> {
        self.kept.load(alloc, 2, log)
    }
}

/// Adds a change to those of its windows that are still open by stream time, and gives the change of each. After an error
/// `out` has what it had, perhaps followed by the changes of the first windows.
fn give(
    windows: &mut WStore,
    alloc: Global,
    window: Window,
    aggs: &[Agg],
    change: &Change,
    out: &mut Vec<Change>,
) -> Result<(), AllocError>
    requires sound { IsTrue (is_sound_window window) }
    requires size { windows.old.size ≡ window.size }
    requires time { change.now.time ≤ 2 ^ 53 }
    requires key { All IsShort change.now.key }
    requires few { suc (length aggs.now) < 2 ^ 32 }
    requires short { HasShortArguments aggs.now change.now }
    ensures next { OnOk result ((side : ℕ) (es : List Entry) → windows.old.time ≡ latest_time es → HoldsWindows aggs.now window windows.old.content.map windows.old.time es →
        let e : Entry = record { side = side; change = change.now } in
        (out.new.items ≡ out.old.items ++ windowed kinds.Stream aggs.now window (with_times 1 es) (timed 1 es e))
        × (windows.new.time ≡ latest_time (es ++ e ∷ []))
        × HoldsWindows aggs.now window windows.new.content.map windows.new.time (es ++ e ∷ [])) }
    ensures size { windows.new.size ≡ windows.old.size }
    ensures later { windows.old.time ≤ windows.new.time }
    ensures base { (base : Values) → IsBase base windows.old.content → IsBase base windows.new.content }
    ensures out { OnErr result ((some : List OneChange) × (out.new.items ≡ out.old.items ++ some)
        × ((side : ℕ) (es : List Entry) → windows.old.time ≡ latest_time es → HoldsWindows aggs.now window windows.old.content.map windows.old.time es →
        let e : Entry = record { side = side; change = change.now } in
        IsFront some (windowed kinds.Stream aggs.now window (with_times 1 es) (timed 1 es e)))) }
{
    windows.advance_time(change.time);
    windows.expire(alloc, windows.time().saturating_sub(window.grace))?;
    let spelled = spelled_key(alloc, &change.key)?;
    let key = spelled.items();
    let mut at = Vec::with_capacity(alloc, key.len() + 8)?;
    let spans = windows_of(alloc, window, change.time)?;
    for (index, span) in spans.iter().enumerate() {
        if windows.time() < span.end + window.grace {
            put_window_key(&mut at, key, span.start)?;
            out.reserve(1)?;
            let given = add_to(
                windows,
                alloc,
                aggs,
                at.as_slice(),
                *span,
                index as u32,
                change,
            )?;
            out.push_reserved(given);
        }
    }
    Ok(())
}

/// Adds a change to one of its windows, and returns the window's change, whose path ends with the window's index.
fn add_to(
    windows: &mut WStore,
    alloc: Global,
    aggs: &[Agg],
    at: &[u8],
    span: Span,
    index: u32,
    change: &Change,
) -> Result<Change, AllocError>
    requires time { change.now.time ≤ 2 ^ 53 }
    requires few { suc (length aggs.now) < 2 ^ 32 }
    requires short { HasShortArguments aggs.now change.now }
    requires window { IsWindowKey at.now }
    requires bounds { HasBigBounds span }
    ensures next { IfOk result (λ made. (kept : Option (List OneValue)) → IfSome kept AreSpellable → finite.get windows.old.content.map at.now ≡ option_map values kept →
        let before = unwrap_or kept [] in
        let after = next_totals kinds.Stream aggs.now change.now before in
        (made ≡ at_path (change.now.place.path ++ index ∷ []) (changed change.now (Some span) before after))
        × AreSpellable after
        × (windows.new.content.map ≡ finite.insert windows.old.content.map at.now (values after))) }
    ensures size { windows.new.size ≡ windows.old.size }
    ensures time { windows.new.time ≡ windows.old.time }
    ensures base { (base : Values) → IsBase base windows.old.content → IsBase base windows.new.content }
{
    let found = windows.find(at);
    let place = found.place;
    let room = room_for_result(&change.key, true);
    let turn = turned(alloc, Kind::Stream, aggs, room, found.value, change)?;
    windows.set_at(alloc, place, at, turn.bytes)?;
    window_change(alloc, change, span, index, turn.before, turn.after)
}

/// The change of one of a change's windows; its path ends with the window's index.
fn window_change(
    alloc: Global,
    change: &Change,
    span: Span,
    index: u32,
    before: Vec<Value>,
    after: Vec<Value>,
) -> Result<Change, AllocError>
    requires { HasBigBounds span }
    ensures { IfOk result (λ made. made ≡ at_path (change.now.place.path ++ index ∷ []) (changed change.now (Some span) before.items after.items)) }
{
    let time = kept_time(after.as_slice());
    Ok(Change {
        place: Place {
            stamp: change.place.stamp,
            path: change.place.path.with_last(alloc, index)?,
        },
        time,
        key: change.key.copy(alloc)?,
        span: Some(span),
        body: turn_of(alloc, &change.key, Some(span), before, after)?,
    })
}
