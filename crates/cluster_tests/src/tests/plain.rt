//! The cluster shows what the plain evaluation of the queries gives.
use crate::run;
use cluster_core::Step;
use ksql_place::{Decoded, SourceRecord, Stamp};
use ksql_script::program_of_script;
use ksql_types::{Chars, Items, Key, Value};
use reference::{have_no_window, report, slow_meaning};
use std::alloc::Global;
use std::test::Fail;

/// Clicks with the users' names, and the number of clicks on each page.
const CLICKS: &str = "CREATE STREAM clicks (user VARCHAR KEY, page VARCHAR, n INT)
  WITH (KAFKA_TOPIC='clicks', VALUE_FORMAT='json', PARTITIONS=2);
CREATE TABLE users (id STRING PRIMARY KEY, `name` STRING)
  WITH (KAFKA_TOPIC='users', VALUE_FORMAT='JSON', PARTITIONS=2);
CREATE STREAM enriched AS SELECT c.user, u.`name` AS who, c.page
  FROM clicks c LEFT JOIN users u ON c.user = u.id EMIT CHANGES;
CREATE TABLE per_page AS SELECT page, COUNT(*) AS hits
  FROM enriched GROUP BY page;
";

const CLICKED: &str = "{\"t\":12000,\"k\":\"a\",\"v\":{\"page\":\"p\",\"n\":1}}
{\"t\":3000,\"k\":\"b\",\"v\":{\"page\":\"p\"}}
";

const USERS: &str = "{\"t\":1000,\"k\":\"a\",\"v\":{\"name\":\"Ann\"}}
";

/// A text of a few bytes.
#[tactic(auto, unfolding(ksql_types::specs::Text::longest_text))]
fn text(alloc: Global, text: &str) -> Result<Value, Fail> {
    if text.len() > 100 {
        return Err(Fail::from("a long text"));
    }
    Ok(Value::Txt(Chars::of(String::from_str(alloc, text)?)?))
}

/// The record of a key at a time, the first of its partition, in the first feed.
fn record(
    alloc: Global,
    topic: u32,
    part: u32,
    time: u64,
    key: &str,
    row: Vec<Value>,
) -> Result<SourceRecord, Fail> {
    let mut values = Vec::new(alloc);
    values.push(text(alloc, key)?)?;
    if !Key::is_key(values.as_slice()) {
        return Err(Fail::from("a key"));
    }
    let stamp = Stamp {
        feed: 1,
        high: time,
        topic,
        part,
        offset: 0,
    };
    Ok(SourceRecord {
        stamp,
        time,
        key: Key::of(values),
        value: Decoded::Good(Items::of(row)),
    })
}

/// The records of the topic files, by their stamps.
fn order(alloc: Global) -> Result<Vec<SourceRecord>, Fail> {
    let ann = vec![in alloc; text(alloc, "Ann")?]?;
    let no_number = vec![in alloc; text(alloc, "p")?, Value::Null]?;
    let one = vec![in alloc; text(alloc, "p")?, Value::Int(1)]?;
    let mut order = Vec::new(alloc);
    order.push(record(alloc, 1, 1, 1000, "a", ann)?)?;
    order.push(record(alloc, 0, 0, 3000, "b", no_number)?)?;
    order.push(record(alloc, 0, 1, 12000, "a", one)?)?;
    Ok(order)
}

#[test]
fn a_cluster_shows_what_the_plain_evaluation_gives(rt: HostRuntime) -> Result<(), Fail> {
    let alloc = rt.alloc();
    let steps = vec![in alloc; Step::FeedAll, Step::Drain]?;
    let ran = run(alloc, CLICKS, &[CLICKED, USERS], 3, steps)?;
    let program = program_of_script(alloc, CLICKS.as_bytes())?;
    if !have_no_window(&program) {
        return Err(Fail::from("a program without windows"));
    }
    let order = order(alloc)?;
    let lists = slow_meaning(alloc, &program, order.as_slice())?;
    let closed = [1, 1, 1, 1];
    let text = report(
        alloc,
        &program,
        &closed,
        order.as_slice(),
        lists.as_slice(),
        "",
    )?;
    assert_eq!(rt; ran.report.as_str(), text.as_str());
    Ok(())
}
