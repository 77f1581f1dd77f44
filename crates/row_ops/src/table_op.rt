ghost use Rattle.std.specs.Prelude.{◌≡◌, ℕ, List, [], ◌∷◌, ◌++◌, All, OnOk, OnErr};
ghost use Rattle.std.specs.Option.{option_to_list};
ghost use Rattle.ksql_place.specs.Said.{row_in};
ghost use Rattle.ksql_nodes.specs.declared.node.Node.TheVariants as nodes;
ghost use Rattle.ksql_nodes.specs.Entries.{Entry, of_key, row_after};
ghost use Rattle.ksql_nodes.specs.Rows.{turned, with_body};
ghost use Rattle.state_store.specs.Store.{Values, IsBase};
ghost use Rattle.record_codec.specs.Spelling.{IsShort};
ghost use Rattle.operator.specs.Holding.{nothing};
ghost use Rattle.operator.specs.Storable.{HasShortRow};
ghost use Rattle.row_ops.specs.InputTable.{HoldsRows};
ghost use Rattle.row_ops.specs.Kinds.{is_table};

use crate::input_table::{row_of, turn};
use ksql_nodes::Node;
use ksql_place::Change;
use ksql_types::{Changelog, Row, StoreEntry};
use operator::{Guarded, Processor, StoredProcessor};
use row_steps::{into_row, push_given, turned};
use state_store::Store;
use std::alloc::{AllocError, Global};

/// The operator of a table at the input of a query without a join: it completes each change with the row before it.
pub type TableOp = Guarded<TableRows>;

/// The rows of a relation.
#[derive(Drop)]
pub struct TableRows {
    relation: u32,
    rows: Store,
}

impl Processor for TableRows {
    ghost is_of = { is_table };

    ghost node = { λ s. nodes.Table s.relation };

    ghost held = { λ s. record nothing { left = s.rows } };

    fn of(alloc: Global, origin: &Node) -> Result<TableRows, AllocError> {
        match origin {
            Node::Table { relation } => Ok(TableRows {
                relation: *relation,
                rows: Store::new(alloc),
            }),
            _ => unreachable!(),
        }
    }

    fn process(
        &mut self,
        alloc: Global,
        _side: u32,
        change: Change,
        out: &mut Vec<Change>,
    ) -> Result<(), AllocError> {
        give(&mut self.rows, alloc, change, out)
    }
}

impl StoredProcessor for TableRows {
    fn changes(&mut self, alloc: Global) -> Result<Changelog, AllocError> {
        self.rows.changes(alloc)
    }

    fn load(&mut self, alloc: Global, log: &[StoreEntry]) -> Result<(), AllocError> {
        self.rows.load(alloc, 0, log)
    }
}

/// Gives the change from the key's previous row, unless it is from absent to absent.
fn give(
    rows: &mut Store,
    alloc: Global,
    change: Change,
    out: &mut Vec<Change>,
) -> Result<(), AllocError>
    requires key { All IsShort change.key }
    requires row { HasShortRow change }
    ensures next { OnOk result ((side : ℕ) (es : List Entry) → HoldsRows rows.old.map es →
        (out.new.items ≡ out.old.items ++ with_body change (turned (row_after (of_key change.key es)) (row_in change.body)))
        × HoldsRows rows.new.map (es ++ record { side = side; change = change } ∷ [])) }
    ensures base { (base : Values) → IsBase base rows.old → IsBase base rows.new }
    ensures out { OnErr result (out.new.items ≡ out.old.items) }
{
    let found = turn(rows, alloc, &change)?;
    push_given(out, changed(change, row_of(found)))
}

/// The change from the previous row, unless it is from absent to absent.
fn changed(change: Change, before: Option<Row>) -> Option<Change>
    ensures { option_to_list result ≡ with_body change (turned before (row_in change.body)) }
{
    let Change {
        place,
        time,
        key,
        span,
        body,
    } = change;
    let body = turned(before, into_row(body))?;
    Some(Change {
        place,
        time,
        key,
        span,
        body,
    })
}
