ghost use Rattle.std.specs.Prelude.{IfOk};
ghost use Rattle.run_text.specs.Report.{IsPrintable};

use crate::columns::{chars, column};
use ksql_place::{Body, Change, Decoded, Path, Place, SourceRecord, Stamp};
use ksql_program::{From, Item, Program, Query, Shape};
use ksql_types::{Format, Items, Key, Kind, Relation, Row, Schema, Span, SqlType, Value};
use reference::{Listed, report};
use std::alloc::{AllocError, Global};
use std::test::Fail;

/// A stream in four partitions with the key column ID and the value columns NAME, BIG and so on.
fn stream(
    alloc: Global,
    number: u32,
    name: &str,
    topic: &str,
    declared: bool,
) -> Result<Relation, AllocError>
    ensures { IfOk result IsPrintable }
{
    let keys = Items::of(vec![in alloc; column(alloc, "ID", SqlType::Text)?]?);
    let values = Items::of(vec![in alloc;
        column(alloc, "NAME", SqlType::Text)?,
        column(alloc, "BIG", SqlType::Big)?,
        column(alloc, "on", SqlType::Bool)?,
    ]?);
    Ok(Relation {
        number,
        name: chars(alloc, name)?,
        kind: Kind::Stream,
        schema: Schema { keys, values },
        topic: chars(alloc, topic)?,
        partitions: 4,
        format: Format::Json,
        declared,
    })
}

/// The report on the stream S over the topic s and on a query BIG over it, each up to its own feed.
fn reported(
    alloc: Global,
    closed: &[u64],
    order: &[SourceRecord],
    lists: &[Listed],
    trace: &str,
) -> Result<String, AllocError> {
    let declared = stream(alloc, 0, "S", "s", true)?;
    let out = stream(alloc, 1, "BIG", "BIG", false)?;
    let big = Query {
        from: From::One { relation: 0 },
        filter: None,
        shape: Shape::Plain {
            keys: Items::of(Vec::new(alloc)),
            values: Items::of(Vec::new(alloc)),
        },
        out,
    };
    let items = vec![in alloc; Item::Declared(declared), Item::Started(big)]?;
    let items = Items::of(items);
    report(alloc, &Program { items }, closed, order, lists, trace)
}

/// The stamp of a record without a key in partition 2.
fn stamp(offset: u64, time: u64) -> Stamp {
    Stamp {
        feed: 1,
        high: time,
        topic: 0,
        part: 2,
        offset,
    }
}

fn fed(alloc: Global, offset: u64, time: u64, value: Decoded) -> SourceRecord {
    SourceRecord {
        stamp: stamp(offset, time),
        time,
        key: Key::of(Vec::new(alloc)),
        value,
    }
}

fn change(alloc: Global, time: u64, key: Key, span: Option<Span>, body: Body) -> Change {
    Change {
        place: Place {
            stamp: stamp(0, time),
            path: Path::root(),
        },
        time,
        key,
        span,
        body,
    }
}

/// A row of nulls.
fn nulls(alloc: Global) -> Result<Row, AllocError> {
    let row = vec![in alloc; Value::Null, Value::Null, Value::Bool(false)]?;
    Ok(Items::of(row))
}

/// The report on the only relation of a program, with these changes.
fn reported_alone(
    alloc: Global,
    relation: Relation,
    changes: Vec<Change>,
) -> Result<String, AllocError>
    requires { IsPrintable relation }
{
    let items = Items::of(vec![in alloc; Item::Declared(relation)]?);
    let listed = Listed::Made(Items::of(changes));
    report(alloc, &Program { items }, &[1], &[], &[listed], "")
}

/// The report on the stream S with one change.
fn reported_change(alloc: Global, change: Change) -> Result<String, AllocError> {
    let stream = stream(alloc, 0, "S", "s", true)?;
    reported_alone(alloc, stream, vec![in alloc; change]?)
}

#[test]
fn shows_a_stream_and_a_query_over_it(rt: HostRuntime) -> Result<(), Fail> {
    let alloc = rt.alloc();
    let order = vec![in alloc;
        fed(alloc, 0, 5, Decoded::Skipped),
        fed(alloc, 1, 7, Decoded::Good(nulls(alloc)?)),
        fed(alloc, 2, 4, Decoded::Tombstone),
    ]?;
    let said = Listed::Lent {
        number: 0,
        order: order.as_slice(),
    };
    let body = Body::Said(nulls(alloc)?);
    let big = change(alloc, 7, Key::of(Vec::new(alloc)), None, body);
    let made = Listed::Made(Items::of(vec![in alloc; big]?));
    assert_eq!(rt;
        reported(alloc, &[1, 1], &order, &[said, made], "")?.as_str(),
        concat!(
            "order 3\n1 s 2 0 5\n1 s 2 1 7\n1 s 2 2 4\n",
            "stream S declared c=1 skipped=2 changes=1\n",
            "{\"p\":2,\"t\":7,\"k\":null,\"v\":{\"NAME\":null,\"BIG\":null,\"on\":false}}\n",
            "stream BIG query c=1 changes=1\n",
            "{\"p\":2,\"t\":7,\"k\":null,\"v\":{\"NAME\":null,\"BIG\":null,\"on\":false}}\n",
            "end\n",
        )
    );
    Ok(())
}

#[test]
fn shows_each_relation_up_to_its_feed_and_then_the_trace(rt: HostRuntime) -> Result<(), Fail> {
    assert_eq!(rt;
        reported(rt.alloc(), &[1], &[], &[], "trace\n")?.as_str(),
        concat!(
            "order 0\nstream S declared c=1 skipped=0 changes=0\n",
            "stream BIG query c=0 changes=0\ntrace\nend\n",
        )
    );
    Ok(())
}

#[test]
fn prints_a_window_and_a_key_of_two_columns(rt: HostRuntime) -> Result<(), Fail> {
    let alloc = rt.alloc();
    let key = vec![in alloc; Value::Txt(chars(alloc, "a")?), Value::Int(7)]?;
    let row = vec![in alloc;
        Value::Txt(chars(alloc, "q\" b\\ c\u{1} l\n é")?),
        Value::Big(-9_223_372_036_854_775_808),
        Value::Bool(true),
    ]?;
    let span = Some(Span {
        start: 1000,
        end: 2000,
    });
    let body = Body::Said(Items::of(row));
    let windowed = change(alloc, 1234, Key::of(key), span, body);
    assert_eq!(rt;
        reported_change(alloc, windowed)?.as_str(),
        concat!(
            "order 0\nstream S declared c=1 skipped=0 changes=1\n",
            "{\"p\":3,\"t\":1234,\"k\":[\"a\",7],\"w\":[1000,2000],",
            "\"v\":{\"NAME\":\"q\\\" b\\\\ c\\u0001 l\\n é\",\"BIG\":-9223372036854775808,\"on\":true}}\n",
            "end\n",
        )
    );
    Ok(())
}

#[test]
fn prints_null_for_a_tombstone(rt: HostRuntime) -> Result<(), Fail> {
    let alloc = rt.alloc();
    let key = vec![in alloc; Value::Txt(chars(alloc, "a")?)]?;
    let body = Body::Turned {
        old: Some(Items::of(Vec::new(alloc))),
        new: None,
    };
    let gone = change(alloc, 9, Key::of(key), None, body);
    assert_eq!(rt;
        reported_change(alloc, gone)?.as_str(),
        concat!(
            "order 0\nstream S declared c=1 skipped=0 changes=1\n",
            "{\"p\":1,\"t\":9,\"k\":\"a\",\"v\":null}\n",
            "end\n",
        )
    );
    Ok(())
}

/// A result of this kind in four partitions, with the key column ID and the value columns A and B.
fn table(alloc: Global, kind: Kind) -> Result<Relation, AllocError>
    ensures { IfOk result IsPrintable }
{
    let keys = Items::of(vec![in alloc; column(alloc, "ID", SqlType::Text)?]?);
    let values = Items::of(vec![in alloc;
        column(alloc, "A", SqlType::Int)?,
        column(alloc, "B", SqlType::Int)?,
    ]?);
    Ok(Relation {
        number: 0,
        name: chars(alloc, "X")?,
        kind,
        schema: Schema { keys, values },
        topic: chars(alloc, "X")?,
        partitions: 4,
        format: Format::Json,
        declared: false,
    })
}

/// The report on a relation of this kind with these changes.
fn reported_table(alloc: Global, kind: Kind, changes: Vec<Change>) -> Result<String, AllocError> {
    reported_alone(alloc, table(alloc, kind)?, changes)
}

/// The body of a change that leaves the row of A and B, or none.
fn turned(alloc: Global, row: Option<(i32, i32)>) -> Result<Body, AllocError> {
    let new = match row {
        Some((a, b)) => Some(Items::of(vec![in alloc; Value::Int(a), Value::Int(b)]?)),
        None => None,
    };
    Ok(Body::Turned { old: None, new })
}

#[test]
fn shows_the_rows_of_a_table_by_key(rt: HostRuntime) -> Result<(), Fail> {
    let alloc = rt.alloc();
    let mut changes = Vec::new(alloc);
    for (time, key, row) in [
        (0, "z", Some((2, 2))),
        (3, "x", Some((2_147_483_647, 2_147_483_647))),
        (5, "x", None),
        (5, "z", Some((-1, 2))),
        (6, "z", None),
        (13, "y", Some((1, 1))),
        (16, "z", Some((2_147_483_647, 2))),
    ] {
        let key = vec![in alloc; Value::Txt(chars(alloc, key)?)]?;
        changes.push(change(alloc, time, Key::of(key), None, turned(alloc, row)?))?;
    }
    assert_eq!(rt;
        reported_table(alloc, Kind::Table, changes)?.as_str(),
        concat!(
            "order 0\ntable X query c=1 changes=7 rows=2\n",
            "{\"p\":2,\"t\":0,\"k\":\"z\",\"v\":{\"A\":2,\"B\":2}}\n",
            "{\"p\":0,\"t\":3,\"k\":\"x\",\"v\":{\"A\":2147483647,\"B\":2147483647}}\n",
            "{\"p\":0,\"t\":5,\"k\":\"x\",\"v\":null}\n",
            "{\"p\":2,\"t\":5,\"k\":\"z\",\"v\":{\"A\":-1,\"B\":2}}\n",
            "{\"p\":2,\"t\":6,\"k\":\"z\",\"v\":null}\n",
            "{\"p\":1,\"t\":13,\"k\":\"y\",\"v\":{\"A\":1,\"B\":1}}\n",
            "{\"p\":2,\"t\":16,\"k\":\"z\",\"v\":{\"A\":2147483647,\"B\":2}}\n",
            "row {\"t\":13,\"k\":\"y\",\"v\":{\"A\":1,\"B\":1}}\n",
            "row {\"t\":16,\"k\":\"z\",\"v\":{\"A\":2147483647,\"B\":2}}\n",
            "end\n",
        )
    );
    Ok(())
}

#[test]
fn shows_the_rows_of_windows_by_key_and_start(rt: HostRuntime) -> Result<(), Fail> {
    let alloc = rt.alloc();
    let mut changes = Vec::new(alloc);
    for (time, number, truth, start, end) in [
        (1500, 7, true, 1000, 2000),
        (900, 7, true, 0, 1000),
        (1700, -7, true, 1000, 2000),
        (950, 7, false, 0, 1000),
    ] {
        let key = Key::of(vec![in alloc; Value::Int(number), Value::Bool(truth)]?);
        let row = turned(alloc, Some((1, 2)))?;
        changes.push(change(alloc, time, key, Some(Span { start, end }), row))?;
    }
    assert_eq!(rt;
        reported_table(alloc, Kind::Windowed, changes)?.as_str(),
        concat!(
            "order 0\nwindowed X query c=1 changes=4 rows=4\n",
            "{\"p\":1,\"t\":1500,\"k\":[7,true],\"w\":[1000,2000],\"v\":{\"A\":1,\"B\":2}}\n",
            "{\"p\":1,\"t\":900,\"k\":[7,true],\"w\":[0,1000],\"v\":{\"A\":1,\"B\":2}}\n",
            "{\"p\":2,\"t\":1700,\"k\":[-7,true],\"w\":[1000,2000],\"v\":{\"A\":1,\"B\":2}}\n",
            "{\"p\":0,\"t\":950,\"k\":[7,false],\"w\":[0,1000],\"v\":{\"A\":1,\"B\":2}}\n",
            "row {\"t\":1700,\"k\":[-7,true],\"w\":[1000,2000],\"v\":{\"A\":1,\"B\":2}}\n",
            "row {\"t\":950,\"k\":[7,false],\"w\":[0,1000],\"v\":{\"A\":1,\"B\":2}}\n",
            "row {\"t\":900,\"k\":[7,true],\"w\":[0,1000],\"v\":{\"A\":1,\"B\":2}}\n",
            "row {\"t\":1500,\"k\":[7,true],\"w\":[1000,2000],\"v\":{\"A\":1,\"B\":2}}\n",
            "end\n",
        )
    );
    Ok(())
}
