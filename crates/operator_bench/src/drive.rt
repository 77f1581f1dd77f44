//! Driving one operator over the entries.
ghost use Rattle.std.specs.Prelude.{◌<◌};
ghost use Rattle.operator_bench.specs.Plain.{TakesPlain};

use crate::entries::entry;
use crate::operators;
use operator::{Operator, StoredOperator};
use std::alloc::{AllocError, Global};

/// The sides where entries come in: one, or two in turn; and which of them are a table's.
#[derive(Clone, Copy)]
struct Sides {
    are_two: bool,
    left_table: bool,
    right_table: bool,
}

impl Sides {
    /// The side where entry `number` comes in, and whether that is a table's.
    fn of_entry(self, number: u32) -> (u32, bool)
        ensures { result.0 < 2 }
    {
        if self.are_two && number % 2 == 1 {
            (1, self.right_table)
        } else {
            (0, self.left_table)
        }
    }
}

const STREAM: Sides = Sides {
    are_two: false,
    left_table: false,
    right_table: false,
};

const TABLE: Sides = Sides {
    are_two: false,
    left_table: true,
    right_table: false,
};

const BOTH: Sides = Sides {
    are_two: true,
    left_table: false,
    right_table: true,
};

const TABLES: Sides = Sides {
    are_two: true,
    left_table: true,
    right_table: true,
};

/// The number of changes that an operator gave, and of entries in its changelog, which is 0 for an operator without
/// stores.
#[derive(Clone, Copy)]
pub struct Counts {
    pub given: u64,
    pub logged: u64,
}

/// The counts for the operator with this name and this many entries; None if no operator has the name.
pub fn counts_of(
    alloc: Global,
    operator: &str,
    entries: u32,
) -> Result<Option<Counts>, AllocError> {
    match operator {
        "select" => stepped(alloc, operators::select(alloc)?, STREAM, entries),
        "filter" => stepped(alloc, operators::filter(alloc)?, STREAM, entries),
        "group" => stepped(alloc, operators::group(alloc)?, STREAM, entries),
        "table" => restored(alloc, operators::table(alloc)?, TABLE, entries),
        "count" => restored(alloc, operators::count(alloc)?, STREAM, entries),
        "table-count" => restored(alloc, operators::table_count(alloc)?, TABLE, entries),
        "stream-table" => restored(alloc, operators::stream_table(alloc)?, BOTH, entries),
        "table-table" => restored(alloc, operators::table_table(alloc)?, TABLES, entries),
        _ => Ok(None),
    }
}

/// Steps an operator without stores.
fn stepped<O: Operator + Drop>(
    alloc: Global,
    mut op: O,
    sides: Sides,
    entries: u32,
) -> Result<Option<Counts>, AllocError>
    requires { TakesPlain (O.node op) }
{
    let given = driven(alloc, &mut op, sides, entries)?;
    Ok(Some(Counts { given, logged: 0 }))
}

/// Steps an operator with stores, and restores it from its changelog.
fn restored<O: StoredOperator + Drop>(
    alloc: Global,
    mut op: O,
    sides: Sides,
    entries: u32,
) -> Result<Option<Counts>, AllocError>
    requires { TakesPlain (O.Operator.node op) }
{
    let given = driven(alloc, &mut op, sides, entries)?;
    let log = op.changes(alloc)?;
    op.load(alloc, log.items())?;
    let logged = log.items().len() as u64;
    Ok(Some(Counts { given, logged }))
}

/// The number of changes that an operator gives for `entries` entries, on its sides in turn.
fn driven<O: Operator>(
    alloc: Global,
    op: &mut O,
    sides: Sides,
    entries: u32,
) -> Result<u64, AllocError>
    requires { TakesPlain (O.node op.old) }
{
    let mut out = Vec::new(alloc);
    let mut given: u64 = 0;
    for number in 0..entries {
        let (side, of_table) = sides.of_entry(number);
        let change = entry(alloc, number, of_table)?;
        op.step(alloc, side, change, &mut out)?;
        given = given.wrapping_add(out.len() as u64);
        out.clear();
    }
    Ok(given)
}
