//! The entries of the benchmark: two for each of 1,000 keys in turn, each with a row of its key and its number.
ghost use Rattle.std.specs.Prelude.{IfOk};
ghost use Rattle.record_codec.specs.Spelling.{IsShortRow};
ghost use Rattle.operator_bench.specs.Plain.{IsPlain};

use ksql_place::{Body, Change, Path, Place, Stamp};
use ksql_types::{Items, Key, Row, Value};
use std::alloc::{AllocError, Global};

/// Entry `number`: a stream's row, or a table's.
pub fn entry(alloc: Global, number: u32, of_table: bool) -> Result<Change, AllocError>
    ensures { IfOk result IsPlain }
{
    let stamp = Stamp {
        feed: 1,
        high: u64::from(number),
        topic: 0,
        part: 0,
        offset: u64::from(number),
    };
    let row = row(alloc, number)?;
    let body = if of_table {
        Body::Turned {
            old: None,
            new: Some(row),
        }
    } else {
        Body::Said(row)
    };
    let key = i64::from(number / 2 % 1000);
    Ok(Change {
        place: Place {
            stamp,
            path: Path::root(),
        },
        time: u64::from(number),
        key: Key::of(vec![in alloc; Value::Big(key)]?),
        span: None,
        body,
    })
}

/// A row: the key of a number, and the number.
fn row(alloc: Global, number: u32) -> Result<Row, AllocError>
    ensures { IfOk result IsShortRow }
{
    let key = i64::from(number / 2 % 1000);
    let number = i64::from(number);
    Ok(Items::of(vec![in alloc; Value::Big(key), Value::Big(number)]?))
}
