ghost use Rattle.std.specs.Prelude.{◌≡◌, ℕ, List, [], ◌∷◌, ◌++◌, All, IfOk, OnOk, OnErr};
ghost use Rattle.std.specs.Option.{option_to_list};
ghost use Rattle.ksql_nodes.specs.declared.node.Node.TheVariants as nodes;
ghost use Rattle.ksql_nodes.specs.Entries.{Entry, of_side};
ghost use Rattle.ksql_nodes.specs.Joins.{join_row, join_stream};
ghost use Rattle.state_store.specs.Store.{Values, IsBase};
ghost use Rattle.record_codec.specs.Spelling.{IsShort};
ghost use Rattle.operator.specs.Holding.{nothing};
ghost use Rattle.operator.specs.Storable.{HasShortRow};
ghost use Rattle.row_ops.specs.InputTable.{HoldsRows};
ghost use Rattle.join_ops.specs.Kinds.{is_stream_join};

use ksql_expr::Typed;
use ksql_nodes::Node;
use ksql_place::Change;
use ksql_types::{Changelog, CopyOf, StoreEntry};
use operator::{Guarded, Processor, StoredProcessor, with_number};
use row_ops::{row_of, standing, turn};
use row_steps::{Join, push_given, rekeyed, stream_joined};
use state_store::Store;
use std::alloc::{AllocError, Global};

/// The operator of a join of a stream with a table, whose rows it keeps.
pub type StreamTableOp = Guarded<StreamTable>;

/// A join of a stream with a table, and the rows of the table.
#[derive(Drop)]
pub struct StreamTable {
    on: Typed,
    join: Join,
    rows: Store,
}

impl Processor for StreamTable {
    ghost is_of = { is_stream_join };

    ghost node = { λ s. nodes.JoinStreamTable s.join.kind s.on s.join.left s.join.right };

    ghost held = { λ s. record nothing { right = s.rows } };

    fn of(alloc: Global, origin: &Node) -> Result<StreamTable, AllocError> {
        match origin {
            Node::JoinStreamTable {
                kind,
                on,
                left,
                right,
            } => Ok(StreamTable {
                on: on.copy(alloc)?,
                join: Join {
                    kind: *kind,
                    left: *left,
                    right: *right,
                },
                rows: Store::new(alloc),
            }),
            _ => unreachable!(),
        }
    }

    fn process(
        &mut self,
        alloc: Global,
        side: u32,
        change: Change,
        out: &mut Vec<Change>,
    ) -> Result<(), AllocError> {
        let rows = &mut self.rows;
        take(rows, alloc, &self.on, &self.join, side, change, out)
    }
}

impl StoredProcessor for StreamTable {
    fn changes(&mut self, alloc: Global) -> Result<Changelog, AllocError> {
        Ok(with_number(self.rows.changes(alloc)?, 1))
    }

    fn load(&mut self, alloc: Global, log: &[StoreEntry]) -> Result<(), AllocError> {
        self.rows.load(alloc, 1, log)
    }
}

/// Gives the joined change for a stream's change, and stores a table's change in the table.
fn take(
    rows: &mut Store,
    alloc: Global,
    on: &Typed,
    join: &Join,
    side: u32,
    change: Change,
    out: &mut Vec<Change>,
) -> Result<(), AllocError>
    requires key { All IsShort change.key }
    requires row { side ≡ 1 → HasShortRow change }
    ensures next { OnOk result ((es : List Entry) → HoldsRows rows.old.map (of_side 1 es) →
        let e : Entry = record { side = side; change = change } in
        (out.new.items ≡ out.old.items ++ join_stream join.now.kind on.now join.now.left join.now.right es e)
        × HoldsRows rows.new.map (of_side 1 (es ++ e ∷ []))) }
    ensures base { (base : Values) → IsBase base rows.old → IsBase base rows.new }
    ensures out { OnErr result (out.new.items ≡ out.old.items) }
{
    match side {
        0 => give(rows, alloc, on, join, change, out),
        1 => put(rows, alloc, &change),
        _ => Ok(()),
    }
}

/// Stores a table's change in the table.
fn put(rows: &mut Store, alloc: Global, change: &Change) -> Result<(), AllocError>
    requires key { All IsShort change.now.key }
    requires row { HasShortRow change.now }
    ensures next { OnOk result ((side : ℕ) (es : List Entry) → HoldsRows rows.old.map es →
        HoldsRows rows.new.map (es ++ record { side = side; change = change.now } ∷ [])) }
    ensures base { (base : Values) → IsBase base rows.old → IsBase base rows.new }
{
    drop(turn(rows, alloc, change)?);
    Ok(())
}

/// Gives a stream's change joined with the table's row for its join key; nothing if it has no join key.
fn give(
    rows: &Store,
    alloc: Global,
    on: &Typed,
    join: &Join,
    change: Change,
    out: &mut Vec<Change>,
) -> Result<(), AllocError>
    ensures given { OnOk result ((es : List Entry) → HoldsRows rows.now.map (of_side 1 es) →
        out.new.items ≡ out.old.items ++ join_stream join.now.kind on.now join.now.left join.now.right es (record { side = 0; change = change })) }
    ensures unchanged { OnErr result (out.new.items ≡ out.old.items) }
{
    let Some(keyed) = rekeyed(alloc, on, change)? else {
        return Ok(());
    };
    let given = beside_row(rows, alloc, join, keyed)?;
    push_given(out, given)
}

/// A stream's change, which has its join key, joined with the table's row for that key.
fn beside_row(
    rows: &Store,
    alloc: Global,
    join: &Join,
    change: Change,
) -> Result<Option<Change>, AllocError>
    ensures { IfOk result (λ made. (es : List Entry) → HoldsRows rows.now.map (of_side 1 es) →
        option_to_list made ≡ join_row join.now.kind join.now.left join.now.right es change) }
{
    let found = standing(rows, alloc, &change.key)?;
    stream_joined(alloc, join, change, row_of(found))
}
