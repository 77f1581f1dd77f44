ghost use Rattle.std.specs.Prelude.{◌≡◌, ◌<◌, List, [], ◌∷◌, ◌++◌, All, OnOk, OnErr};
ghost use Rattle.ksql_nodes.specs.declared.node.Node.TheVariants as nodes;
ghost use Rattle.ksql_nodes.specs.Entries.{Entry};
ghost use Rattle.ksql_nodes.specs.Joins.{join_tables};
ghost use Rattle.state_store.specs.Store.{Values, IsBase};
ghost use Rattle.record_codec.specs.Spelling.{IsShort};
ghost use Rattle.operator.specs.Holding.{nothing};
ghost use Rattle.operator.specs.Storable.{HasShortRow};
ghost use Rattle.join_ops.specs.Kinds.{is_table_join};
ghost use Rattle.join_ops.specs.Tables.{HoldTables};

use crate::tables::Tables;
use ksql_nodes::Node;
use ksql_place::Change;
use ksql_types::{Changelog, StoreEntry};
use operator::{Guarded, Processor, StoredProcessor};
use row_ops::{row_of, time_of};
use row_steps::{Join, Standing, push_given, tables_joined};
use std::alloc::{AllocError, Global};

/// The operator of a join of two tables, whose rows it keeps.
pub type TableTableOp = Guarded<TableTable>;

/// A join of two tables, and their rows.
#[derive(Drop)]
pub struct TableTable {
    join: Join,
    tables: Tables,
}

impl Processor for TableTable {
    ghost is_of = { is_table_join };

    ghost node = { λ s. nodes.JoinTables s.join.kind s.join.left s.join.right };

    ghost held = { λ s. record nothing { left = s.tables.left; right = s.tables.right } };

    fn of(alloc: Global, origin: &Node) -> Result<TableTable, AllocError> {
        match origin {
            Node::JoinTables { kind, left, right } => Ok(TableTable {
                join: Join {
                    kind: *kind,
                    left: *left,
                    right: *right,
                },
                tables: Tables::new(alloc),
            }),
            _ => unreachable!(),
        }
    }

    fn process(
        &mut self,
        alloc: Global,
        side: u32,
        change: Change,
        out: &mut Vec<Change>,
    ) -> Result<(), AllocError> {
        give(&mut self.tables, alloc, &self.join, side, change, out)
    }
}

impl StoredProcessor for TableTable {
    fn changes(&mut self, alloc: Global) -> Result<Changelog, AllocError> {
        self.tables.changes(alloc)
    }

    fn load(&mut self, alloc: Global, log: &[StoreEntry]) -> Result<(), AllocError> {
        self.tables.load(alloc, log)
    }
}

/// Stores a change in the table of its side, and gives the change of the joined row.
fn give(
    tables: &mut Tables,
    alloc: Global,
    join: &Join,
    side: u32,
    change: Change,
    out: &mut Vec<Change>,
) -> Result<(), AllocError>
    requires side { side < 2 }
    requires key { All IsShort change.key }
    requires row { HasShortRow change }
    ensures next { OnOk result ((es : List Entry) → HoldTables tables.old.left.map tables.old.right.map es →
        let e : Entry = record { side = side; change = change } in
        (out.new.items ≡ out.old.items ++ join_tables join.now.kind join.now.left join.now.right es e)
        × HoldTables tables.new.left.map tables.new.right.map (es ++ e ∷ [])) }
    ensures left_base { (base : Values) → IsBase base tables.old.left → IsBase base tables.new.left }
    ensures right_base { (base : Values) → IsBase base tables.old.right → IsBase base tables.new.right }
    ensures out { OnErr result (out.new.items ≡ out.old.items) }
{
    let latest = tables.turn(alloc, side, &change)?;
    let standing = Standing {
        time: time_of(&latest.other),
        own: row_of(latest.own),
        other: row_of(latest.other),
    };
    let given = tables_joined(alloc, join, side, change, standing)?;
    push_given(out, given)
}
