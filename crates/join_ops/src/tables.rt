//! The two tables of a join, each with its store.
ghost use Rattle.std.specs.Prelude.{◌≡◌, ℕ, ◌<◌, List, [], ◌∷◌, ◌++◌, All, IfOk, OnOk, OnErr, map};
ghost use Rattle.std.specs.FinMap as finite;
ghost use Rattle.ksql_nodes.specs.Entries.{Entry, of_key, of_side};
ghost use Rattle.ksql_nodes.specs.Joins.{other_side};
ghost use Rattle.state_store.specs.Store.{Values, IsBase, changes_of, numbered, replay};
ghost use Rattle.record_codec.specs.Spelling.{IsShort};
ghost use Rattle.operator.specs.Holding.{in_store, unwritten};
ghost use Rattle.operator.specs.Storable.{HasShortRow};
ghost use Rattle.row_ops.specs.InputTable.{HoldsRows, latest_row};
ghost use Rattle.join_ops.specs.Tables.{HoldTables};

use ksql_place::Change;
use ksql_types::{Changelog, Row, StoreEntry};
use operator::{spelled_key, with_number};
use row_ops::{standing_at, turn_at};
use state_store::Store;
use std::alloc::{AllocError, Global};

/// Two tables: for each key of either, the change that set its row.
#[derive(Drop)]
pub(crate) struct Tables {
    pub(crate) left: Store,
    pub(crate) right: Store,
}

/// The rows of a key, each after the time of its change: in the table that a change is for, and in the other one.
#[derive(Drop)]
pub(crate) struct Latest {
    pub(crate) own: Option<(u64, Row)>,
    pub(crate) other: Option<(u64, Row)>,
}

impl Tables {
    /// Empty tables. Takes no memory.
    pub(crate) fn new(alloc: Global) -> Tables
        ensures left { result.left ≡ unwritten finite.empty }
        ensures right { result.right ≡ unwritten finite.empty }
    {
        Tables {
            left: Store::new(alloc),
            right: Store::new(alloc),
        }
    }

    /// Stores a change in the table of its side, and returns the rows that its key had. Side 0 is left, 1 is right.
    pub(crate) fn turn(
        &mut self,
        alloc: Global,
        side: u32,
        change: &Change,
    ) -> Result<Latest, AllocError>
        requires side { side < 2 }
        requires key { All IsShort change.now.key }
        requires row { HasShortRow change.now }
        ensures next { IfOk result (λ latest. (es : List Entry) → HoldTables self.old.left.map self.old.right.map es →
            let c = change.now in
            (latest.own ≡ latest_row (of_side side (of_key c.key es)))
            × (latest.other ≡ latest_row (of_side (other_side side) (of_key c.key es)))
            × HoldTables self.new.left.map self.new.right.map (es ++ record { side = side; change = c } ∷ [])) }
        ensures left_base { (base : Values) → IsBase base self.old.left → IsBase base self.new.left }
        ensures right_base { (base : Values) → IsBase base self.old.right → IsBase base self.new.right }
    {
        match side {
            0 => turned(&mut self.left, &self.right, alloc, change),
            1 => turned(&mut self.right, &self.left, alloc, change),
            _ => unreachable!(),
        }
    }

    /// Commits, and returns the changes since the last commit: the left table's entries with number 0, then the right
    /// table's with number 1. After an error the tables are unchanged.
    pub(crate) fn changes(&mut self, alloc: Global) -> Result<Changelog, AllocError>
        ensures given { IfOk result (λ log. log ≡ changes_of self.old.left ++ map (in_store 1) (changes_of self.old.right)) }
        ensures left { OnOk result (self.new.left ≡ unwritten self.old.left.map) }
        ensures right { OnOk result (self.new.right ≡ unwritten self.old.right.map) }
        ensures left_kept { OnErr result (self.new.left ≡ self.old.left) }
        ensures right_kept { OnErr result (self.new.right ≡ self.old.right) }
    {
        let mut log = self.left.changes_since_commit(alloc)?.into_items();
        let right = self.right.changes_since_commit(alloc)?;
        // All memory is allocated before the first commit.
        log.reserve(right.items().len())?;
        self.left.commit(log.as_slice());
        self.right.commit(right.items());
        log.append(&mut with_number(right, 1).into_items())?;
        Ok(Changelog::of(log))
    }

    /// Replaces the tables by the replay of a log on empty tables. After an error they are unchanged.
    pub(crate) fn load(&mut self, alloc: Global, log: &[StoreEntry]) -> Result<(), AllocError>
        ensures left { OnOk result (self.new.left ≡ unwritten (replay finite.empty (numbered 0 log.now))) }
        ensures right { OnOk result (self.new.right ≡ unwritten (replay finite.empty (numbered 1 log.now))) }
        ensures left_kept { OnErr result (self.new.left ≡ self.old.left) }
        ensures right_kept { OnErr result (self.new.right ≡ self.old.right) }
    {
        let mut loaded = Tables::new(alloc);
        loaded.left.load(alloc, 0, log)?;
        loaded.right.load(alloc, 1, log)?;
        *self = loaded;
        Ok(())
    }
}

/// Stores a change in its own table, and returns the rows that its key had there and in the other table.
fn turned(
    own: &mut Store,
    other: &Store,
    alloc: Global,
    change: &Change,
) -> Result<Latest, AllocError>
    requires key { All IsShort change.now.key }
    requires row { HasShortRow change.now }
    ensures next { IfOk result (λ latest. (side : ℕ) (mine others : List Entry) → HoldsRows own.old.map mine → HoldsRows other.now.map others →
        (latest.own ≡ latest_row (of_key change.now.key mine))
        × (latest.other ≡ latest_row (of_key change.now.key others))
        × HoldsRows own.new.map (mine ++ record { side = side; change = change.now } ∷ [])) }
    ensures base { (base : Values) → IsBase base own.old → IsBase base own.new }
{
    let key = spelled_key(alloc, &change.key)?;
    Ok(Latest {
        own: turn_at(own, alloc, key.items(), change)?,
        other: standing_at(other, alloc, key.items())?,
    })
}
