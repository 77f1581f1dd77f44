//! The groups of a stream or of a table, without windows.
ghost use Rattle.std.specs.Prelude.{◌≡◌, ℕ, suc, ◌<◌, ◌≤◌, ◌^◌, List, [], ◌∷◌, ◌++◌, None, All, OnOk, OnErr, length};
ghost use Rattle.ksql_nodes.specs.declared.node.Node.TheVariants as nodes;
ghost use Rattle.ksql_nodes.specs.Aggregates.{group_change};
ghost use Rattle.ksql_nodes.specs.Entries.{Entry, of_key};
ghost use Rattle.state_store.specs.Store.{Values, IsBase};
ghost use Rattle.record_codec.specs.Spelling.{IsShort};
ghost use Rattle.operator.specs.Holding.{nothing};
ghost use Rattle.operator.specs.Storable.{HasShortArguments};
ghost use Rattle.agg_ops.specs.Groups.{HoldsGroups};
ghost use Rattle.agg_ops.specs.Totals.{is_plain_aggregate};

use crate::totals::{kept_time, room_for_result, turn_of};
use crate::turn::turned;
use ksql_nodes::Node;
use ksql_place::Change;
use ksql_program::{Agg, Aggs};
use ksql_types::{Changelog, CopyOf, Kind, StoreEntry};
use operator::{Guarded, Processor, StoredProcessor, spelled_key, with_number};
use state_store::Store;
use std::alloc::{AllocError, Global};

/// The operator of the groups of a stream or of a table, without windows.
pub type AggOp = Guarded<Groups>;

/// The values kept for each group, by the bytes of its key.
#[derive(Drop)]
pub struct Groups {
    over: Kind,
    aggs: Aggs,
    kept: Store,
}

impl Processor for Groups {
    ghost is_of = { is_plain_aggregate };

    ghost node = { λ s. nodes.Aggregate s.over s.aggs None };

    ghost held = { λ s. record nothing { aggregate = s.kept } };

    fn of(alloc: Global, origin: &Node) -> Result<Groups, AllocError> {
        match origin {
            Node::Aggregate {
                over,
                aggs,
                window: None,
            } => Ok(Groups {
                over: *over,
                aggs: aggs.copy(alloc)?,
                kept: Store::new(alloc),
            }),
            _ => unreachable!(),
        }
    }

    fn process(
        &mut self,
        alloc: Global,
        _side: u32,
        change: Change,
        out: &mut Vec<Change>,
    ) -> Result<(), AllocError> {
        let aggs = self.aggs.items();
        give(&mut self.kept, alloc, self.over, aggs, change, out)
    }
}

impl StoredProcessor for Groups {
    fn changes(&mut self, alloc: Global) -> Result<Changelog, AllocError> {
        Ok(with_number(self.kept.changes(alloc)?, 2))
    }

    fn load(&mut self, alloc: Global, log: &[StoreEntry]) -> Result<(), AllocError> {
        self.kept.load(alloc, 2, log)
    }
}

/// Gives the change of a change's group, from the group's result before it to that after it.
fn give(
    groups: &mut Store,
    alloc: Global,
    over: Kind,
    aggs: &[Agg],
    change: Change,
    out: &mut Vec<Change>,
) -> Result<(), AllocError>
    requires time { change.time ≤ 2 ^ 53 }
    requires key { All IsShort change.key }
    requires few { suc (length aggs.now) < 2 ^ 32 }
    requires short { HasShortArguments aggs.now change }
    ensures next { OnOk result ((side : ℕ) (es : List Entry) → HoldsGroups over aggs.now groups.old.map es →
        let e : Entry = record { side = side; change = change } in
        (out.new.items ≡ out.old.items ++ group_change over aggs.now None (of_key change.key es) e ∷ []) × HoldsGroups over aggs.now groups.new.map (es ++ e ∷ [])) }
    ensures base { (base : Values) → IsBase base groups.old → IsBase base groups.new }
    ensures out { OnErr result (out.new.items ≡ out.old.items) }
{
    let key = spelled_key(alloc, &change.key)?;
    let found = groups.find(key.items());
    let place = found.place;
    let room = room_for_result(&change.key, false);
    let turn = turned(alloc, over, aggs, room, found.value, &change)?;
    groups.write_at(alloc, place, key.items(), Some(turn.bytes))?;
    let time = kept_time(turn.after.as_slice());
    let body = turn_of(alloc, &change.key, None, turn.before, turn.after)?;
    out.reserve(1)?;
    out.push_reserved(Change {
        time,
        span: None,
        body,
        ..change
    });
    Ok(())
}
