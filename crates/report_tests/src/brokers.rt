ghost use Rattle.std.specs.Prelude.{◌≡◌, ◌∷◌, [], All, IfOk, IsSome, OnOk, map};
ghost use Rattle.ksql_program.specs.Program.{relations};
ghost use Rattle.core_state.specs.Routes.{IsWriter, routes_of};
ghost use Rattle.topic_log.specs.Ready.{IsProposal};
ghost use Rattle.topic_log.specs.Shelves.{part_at, routes_in, shelf_of, topics_of, AreTopics};
ghost use Rattle.topic_log.specs.declared.shelves.Shelves.{Shelves as OneBroker};
ghost use Rattle.run_text.specs.Report.{IsPrintable};
ghost use Rattle.run_text.specs.Shown.{HasTopicOf};

use crate::columns::{chars, column};
use ksql_place::{Body, Change, Decoded, Path, Place, SourceRecord, Stamp};
use ksql_program::{From, Item, Program, Query, Shape};
use ksql_types::{
    Format, Items, Key, Kind, Relation, Row, Schema, Span, SqlType, TaskName, TopicSpec, Value,
    Writer,
};
use run_text::{broker_report, broker_summary};
use std::alloc::{AllocError, Global};
use std::test::Fail;
use topic_log::{Broker, Proposal};

/// A relation of this kind in one partition with the value column N.
fn relation(
    alloc: Global,
    number: u32,
    name: &str,
    kind: Kind,
    declared: bool,
) -> Result<Relation, AllocError>
    ensures printable { IfOk result IsPrintable }
    ensures number { IfOk result (λ made. made.number ≡ number) }
    ensures partitions { IfOk result (λ made. made.partitions ≡ 1) }
{
    let values = Items::of(vec![in alloc; column(alloc, "N", SqlType::Int)?]?);
    let keys = Items::of(Vec::new(alloc));
    Ok(Relation {
        number,
        name: chars(alloc, name)?,
        kind,
        schema: Schema { keys, values },
        topic: chars(alloc, name)?,
        partitions: 1,
        format: Format::Json,
        declared,
    })
}

/// The stream S, and the query COPY over it, whose result is of this kind.
fn program(alloc: Global, kind: Kind) -> Result<Program, AllocError>
    ensures printable { IfOk result (λ made. All IsPrintable (relations made.items)) }
    ensures topics { IfOk result (λ made. (s : OneBroker) → map (λ t. t.partitions) (topics_of s) ≡ 1 ∷ 1 ∷ []
        → All (HasTopicOf s) (relations made.items)) }
{
    let source = relation(alloc, 0, "S", Kind::Stream, true)?;
    let out = relation(alloc, 1, "COPY", kind, false)?;
    let copy = Query {
        from: From::One { relation: 0 },
        filter: None,
        shape: Shape::Plain {
            keys: Items::of(Vec::new(alloc)),
            values: Items::of(Vec::new(alloc)),
        },
        out,
    };
    let items = vec![in alloc; Item::Declared(source), Item::Started(copy)]?;
    Ok(Program {
        items: Items::of(items),
    })
}

/// A topic of one partition.
fn topic(alloc: Global, number: u32, writer: Option<Writer>) -> Result<TopicSpec, AllocError>
    ensures number { IfOk result (λ topic. topic.number ≡ number) }
    ensures partitions { IfOk result (λ topic. topic.partitions ≡ 1) }
    ensures writer { IfOk result (λ topic. topic.writer ≡ writer) }
{
    let name = chars(alloc, "t")?;
    Ok(TopicSpec {
        number,
        name,
        partitions: 1,
        writer,
    })
}

/// The topic of S, and that of COPY, which one task writes.
fn two_topics(alloc: Global) -> Result<Vec<TopicSpec>, AllocError>
    ensures topics { IfOk result (λ topics. AreTopics topics.items) }
    ensures partitions { IfOk result (λ topics. map (λ t. t.partitions) topics.items ≡ 1 ∷ 1 ∷ []) }
    ensures source { IfOk result (λ topics. (routes_of topics.items).writers 0 ≡ []) }
    ensures written { IfOk result (λ topics. IsWriter (routes_of topics.items) (record { sub = 0; part = 0 })) }
{
    let writer = Writer {
        sub: 0,
        partitions: 1,
    };
    let source = topic(alloc, 0, None)?;
    let written = topic(alloc, 1, Some(writer))?;
    Ok(vec![in alloc; source, written]?)
}

/// The stamp of the only record.
fn stamp() -> Stamp
    ensures { result ≡ record { feed = 1; high = 5; topic = 0; part = 0; offset = 0 } }
{
    Stamp {
        feed: 1,
        high: 5,
        topic: 0,
        part: 0,
        offset: 0,
    }
}

/// A row of one number.
fn row(alloc: Global, number: i32) -> Result<Row, AllocError> {
    Ok(Items::of(vec![in alloc; Value::Int(number)]?))
}

/// Feeds a record with this number to S.
fn feed_one(alloc: Global, broker: &mut Broker, number: i32) -> Result<u64, AllocError>
    requires first { (shelf_of broker.old).fed ≡ 0 }
    requires source { (routes_in broker.old).writers 0 ≡ [] }
    requires there { IsSome (part_at broker.old 0 0) }
    ensures { topics_of broker.new ≡ topics_of broker.old }
{
    let record = SourceRecord {
        stamp: stamp(),
        time: 5,
        key: Key::of(Vec::new(alloc)),
        value: Decoded::Good(row(alloc, number)?),
    };
    broker.feed(alloc, vec![in alloc; record]?)
}

/// The proposal of COPY's task for the first feed: one change, with this window and body.
fn proposal(alloc: Global, span: Option<Span>, body: Body) -> Result<Proposal, AllocError>
    ensures task { IfOk result (λ made. made.task ≡ record { sub = 0; part = 0 }) }
    ensures from { IfOk result (λ made. made.from ≡ 0) }
    ensures proposal { IfOk result IsProposal }
{
    let change = Change {
        place: Place {
            stamp: stamp(),
            path: Path::root(),
        },
        time: 5,
        key: Key::of(Vec::new(alloc)),
        span,
        body,
    };
    Ok(Proposal {
        task: TaskName { sub: 0, part: 0 },
        generation: 1,
        from: 0,
        to: 1,
        outputs: Items::of(vec![in alloc; change]?),
        entries: Items::of(Vec::new(alloc)),
    })
}

/// Commits the proposal of COPY's task for the first feed.
fn commit(
    alloc: Global,
    broker: &mut Broker,
    span: Option<Span>,
    body: Body,
) -> Result<(), AllocError>
    requires writer { IsWriter (routes_in broker.old) (record { sub = 0; part = 0 }) }
    requires begins { (shelf_of broker.old).done (record { sub = 0; part = 0 }) ≡ 0 }
    ensures topics { OnOk result (topics_of broker.new ≡ topics_of broker.old) }
    ensures fed { OnOk result ((shelf_of broker.new).fed ≡ (shelf_of broker.old).fed) }
{
    match broker.prepare(alloc, proposal(alloc, span, body)?) {
        Ok(prepared) => {
            broker.apply(prepared);
            Ok(())
        }
        Err(_) => Err(AllocError),
    }
}

/// A broker with the record 7 in S and this change in COPY.
fn fed_broker(alloc: Global, span: Option<Span>, body: Body) -> Result<Broker, AllocError>
    ensures { IfOk result (λ broker. map (λ t. t.partitions) (topics_of broker) ≡ 1 ∷ 1 ∷ []) }
{
    let topics = two_topics(alloc)?;
    let mut broker = Broker::new(alloc, topics.as_slice())?;
    commit(alloc, &mut broker, span, body)?;
    if broker.partitions(0) == 1 {
        feed_one(alloc, &mut broker, 7)?;
    }
    Ok(broker)
}

/// The summary with one row of COPY, which is of this kind, in this window.
fn summary_of_one(alloc: Global, kind: Kind, span: Option<Span>) -> Result<String, AllocError> {
    let new = Some(row(alloc, 8)?);
    let broker = fed_broker(alloc, span, Body::Turned { old: None, new })?;
    broker_summary(alloc, &program(alloc, kind)?, &broker)
}

#[test]
fn an_altered_change_is_reported_as_it_stands(rt: HostRuntime) -> Result<(), Fail> {
    let alloc = rt.alloc();
    let program = program(alloc, Kind::Stream)?;
    let broker = fed_broker(alloc, None, Body::Said(row(alloc, 8)?))?;
    assert_eq!(rt;
        broker_report(alloc, &program, &broker, "")?.as_str(),
        concat!(
            "order 1\n1 S 0 0 5\n",
            "stream S declared c=1 skipped=0 changes=1\n",
            "{\"p\":0,\"t\":5,\"k\":null,\"v\":{\"N\":7}}\n",
            "stream COPY query c=1 changes=1\n",
            "{\"p\":0,\"t\":5,\"k\":null,\"v\":{\"N\":8}}\n",
            "end\n",
        )
    );
    Ok(())
}

#[test]
fn a_summary_has_head_lines_and_the_rows_of_a_table(rt: HostRuntime) -> Result<(), Fail> {
    assert_eq!(rt;
        summary_of_one(rt.alloc(), Kind::Table, None)?.as_str(),
        concat!(
            "stream S declared c=1 skipped=0 changes=1\n",
            "table COPY query c=1 changes=1 rows=1\n",
            "row {\"t\":5,\"k\":null,\"v\":{\"N\":8}}\n",
            "end\n",
        )
    );
    Ok(())
}

#[test]
fn a_summary_counts_the_rows_of_a_windowed_table(rt: HostRuntime) -> Result<(), Fail> {
    let window = Span {
        start: 0,
        end: 60000,
    };
    assert_eq!(rt;
        summary_of_one(rt.alloc(), Kind::Windowed, Some(window))?.as_str(),
        concat!(
            "stream S declared c=1 skipped=0 changes=1\n",
            "windowed COPY query c=1 changes=1 rows=1\n",
            "end\n",
        )
    );
    Ok(())
}
