//! The report and the summary of a program, from what a broker shows.

ghost use Rattle.std.specs.Prelude.{◌≡◌, ◌++◌, [], All, IfOk, OnOk, count_by, flat_map, map, string_bytes};
ghost use Rattle.std.specs.List.{range_with_len};
ghost use Rattle.ksql_types.specs.declared.relation.Kind.TheVariants.{Stream};
ghost use Rattle.ksql_place.specs.Ascending.{ascending};
ghost use Rattle.ksql_place.specs.Order.{record_cmp};
ghost use Rattle.ksql_program.specs.declared.program.Item.TheVariants.{Declared};
ghost use Rattle.ksql_program.specs.Program.{relation_of, relations};
ghost use Rattle.topic_log.specs.Shelves.{routes_in, shelf_of};
ghost use Rattle.core_state.specs.Shelf.{shelf_closed};
ghost use Rattle.run_text.specs.Lines.{extent_text};
ghost use Rattle.run_text.specs.Report.{section_of, section_text, skipped_of, summary_text, IsPrintable};
ghost use Rattle.run_text.specs.Shown.{declared_records, order_shown, query_shown, records_by_part, records_shown, section_shown, shown_report, shown_summary, standing_at, standing_cmp, HasTopicOf};
ghost use Rattle.run_text.specs.Standings.{brings_row, records_lent, standing_of};

use crate::declared::declared_lines;
use crate::order::push_order;
use crate::section::{Extent, push_head, push_section};
use crate::visible::{LentChange, by_place, by_stamp, push_changes, push_records, standing_lines};
use ksql_place::{SourceRecord, is_skipped, said_by};
use ksql_program::{Item, Program, relation_of};
use ksql_types::{Kind, Relation};
use std::alloc::{AllocError, Global};
use topic_log::Broker;

/// The report of a program, from what a broker shows: the records of its declared relations in order, a head line and
/// the changes of each relation and, for a table, its rows, the trace, and a last line. The broker has the topic of
/// each relation. Borrows what the broker shows. Takes O(n log n) steps for n entries if few rows share a hash.
#[tactic(auto, using(crate::proofs::ReportLemmas::appends), unfolding(crate::specs::Report::report, crate::specs::Shown::shown_report))]
pub fn broker_report(
    alloc: Global,
    program: &Program,
    broker: &Broker,
    trace: &str,
) -> Result<String, AllocError>
    requires printable { All IsPrintable (relations program.now.items) }
    requires topics { All (HasTopicOf broker.now) (relations program.now.items) }
    ensures { IfOk result (λ text. string_bytes text ≡ shown_report program.now.items broker.now trace.now) }
{
    let items = program.items.items();
    let Consumption { of_items, order } = consumption_of(alloc, broker, items)?;
    let mut out = String::new(alloc);
    push_order(&mut out, items, order.as_slice())?;
    push_sections(&mut out, alloc, broker, items, of_items.as_slice())?;
    out.push_str(trace)?;
    out.push_str("end\n")?;
    Ok(out)
}

/// The summary of a program, from what a broker shows: a head line of each relation and, for a table without windows,
/// its rows, and a last line. The broker has the topic of each relation. Takes O(n log n) steps for n entries if few
/// rows share a hash.
#[tactic(auto, unfolding(crate::specs::Report::summary, crate::specs::Shown::shown_summary))]
pub fn broker_summary(
    alloc: Global,
    program: &Program,
    broker: &Broker,
) -> Result<String, AllocError>
    requires printable { All IsPrintable (relations program.now.items) }
    requires topics { All (HasTopicOf broker.now) (relations program.now.items) }
    ensures { IfOk result (λ text. string_bytes text ≡ shown_summary program.now.items broker.now) }
{
    let mut out = String::new(alloc);
    for item in program.items.items() {
        push_item_summary(&mut out, alloc, broker, item)?;
    }
    out.push_str("end\n")?;
    Ok(out)
}

/// Appends the summary of an item.
fn push_item_summary(
    out: &mut String,
    alloc: Global,
    broker: &Broker,
    item: &Item,
) -> Result<(), AllocError>
    requires { HasTopicOf broker.now (relation_of item.now) }
    ensures { OnOk result (string_bytes out.new
        ≡ string_bytes out.old ++ summary_text (section_shown broker.now item.now)) }
{
    match item {
        Item::Declared(relation) => match relation.kind {
            Kind::Stream => push_stream_summary(out, alloc, broker, relation),
            Kind::Table | Kind::Windowed => {
                let records = records_shown(alloc, broker, relation)?;
                let records = records.as_slice();
                push_declared_section(out, alloc, Extent::Summary, broker, relation, records)
            }
        },
        Item::Started(query) => {
            push_query_section(out, alloc, Extent::Summary, broker, &query.out)
        }
    }
}

/// Appends the summary of a declared stream. Its records are counted, and needn't be sorted.
fn push_stream_summary(
    out: &mut String,
    alloc: Global,
    broker: &Broker,
    relation: &Relation,
) -> Result<(), AllocError>
    requires topic { HasTopicOf broker.now relation.now }
    requires stream { relation.now.kind ≡ Stream }
    ensures { OnOk result (string_bytes out.new
        ≡ string_bytes out.old ++ summary_text (section_shown broker.now (Declared relation.now))) }
{
    let records = records_by_part(alloc, broker, relation)?;
    let changes = rows_among(relation.number, records.as_slice());
    let skipped = skipped_among(relation, records.as_slice());
    let closed = broker.closed(relation.number);
    push_head(out, relation, closed, skipped, changes, 0)
}

/// Appends what is shown of each item, given the records of each item's topic.
fn push_sections(
    out: &mut String,
    alloc: Global,
    broker: &Broker,
    items: &[Item],
    records: &[Vec<&SourceRecord>],
) -> Result<(), AllocError>
    requires topics { All (HasTopicOf broker.now) (relations items.now) }
    requires records { map records_lent records.now ≡ map (declared_records broker.now) items.now }
    ensures { OnOk result (string_bytes out.new
        ≡ string_bytes out.old ++ flat_map section_text (map (section_shown broker.now) items.now)) }
{
    for (number, item) in items.iter().enumerate() {
        let of_topic = records[number].as_slice();
        push_item_section(out, alloc, broker, item, of_topic)?;
    }
    Ok(())
}

/// Appends what is shown of an item, given the records of its topic.
fn push_item_section(
    out: &mut String,
    alloc: Global,
    broker: &Broker,
    item: &Item,
    records: &[&SourceRecord],
) -> Result<(), AllocError>
    requires topic { HasTopicOf broker.now (relation_of item.now) }
    requires records { map (λ r. r.now) records.now ≡ declared_records broker.now item.now }
    ensures { OnOk result (string_bytes out.new
        ≡ string_bytes out.old ++ section_text (section_shown broker.now item.now)) }
{
    match item {
        Item::Declared(relation) => {
            push_declared_section(out, alloc, Extent::Whole, broker, relation, records)
        }
        Item::Started(query) => push_query_section(out, alloc, Extent::Whole, broker, &query.out),
    }
}

/// Appends what is shown of a declared relation, to this extent, given the records of its topic.
fn push_declared_section(
    out: &mut String,
    alloc: Global,
    extent: Extent,
    broker: &Broker,
    relation: &Relation,
    records: &[&SourceRecord],
) -> Result<(), AllocError>
    requires topic { HasTopicOf broker.now relation.now }
    requires records { map (λ r. r.now) records.now ≡ records_shown broker.now relation.now }
    ensures { OnOk result (string_bytes out.new
        ≡ string_bytes out.old ++ extent_text extent (section_shown broker.now (Declared relation.now))) }
{
    let lines = declared_lines(alloc, relation, records)?;
    let skipped = skipped_among(relation, records);
    let closed = broker.closed(relation.number);
    push_section(
        out,
        alloc,
        extent,
        relation,
        closed,
        skipped,
        lines.as_slice(),
    )
}

/// Appends what is shown of a query's relation, to this extent.
fn push_query_section(
    out: &mut String,
    alloc: Global,
    extent: Extent,
    broker: &Broker,
    relation: &Relation,
) -> Result<(), AllocError>
    requires { HasTopicOf broker.now relation.now }
    ensures { let closed = shelf_closed (routes_in broker.now) (shelf_of broker.now) relation.now.number in
        OnOk result (string_bytes out.new
        ≡ string_bytes out.old ++ extent_text extent (section_of closed relation.now [] (query_shown broker.now relation.now))) }
{
    let changes = changes_shown(alloc, broker, relation)?;
    let lines = standing_lines(alloc, changes.as_slice())?;
    let closed = broker.closed(relation.number);
    push_section(out, alloc, extent, relation, closed, 0, lines.as_slice())
}

/// The number of these records in the relation's topic that it skips.
fn skipped_among(relation: &Relation, records: &[&SourceRecord]) -> usize
    ensures { result ≡ skipped_of relation.now (map (λ r. r.now) records.now) }
{
    records
        .iter()
        .filter(|fed| is_skipped(relation, fed))
        .count()
}

/// The number of these records that bring a row to the stream of this topic.
fn rows_among(number: u32, records: &[&SourceRecord]) -> usize
    ensures { result ≡ count_by (brings_row number) (map (λ r. r.now) records.now) }
{
    records.iter().filter(|fed| brings_row(number, fed)).count()
}

/// Whether a record brings a row to the stream of this topic.
fn brings_row(number: u32, fed: &SourceRecord) -> bool
    ensures { result ≡ brings_row number fed.now }
{
    fed.stamp.topic == number && said_by(Kind::Stream, &fed.key, &fed.value).is_some()
}

/// The records of some items' topics, by their stamps: for each item, and all together in the order of consumption.
#[derive(Drop)]
struct Consumption<'a> {
    of_items: Vec<Vec<&'a SourceRecord>>,
    order: Vec<&'a SourceRecord>,
}

/// What these items consume from their topics.
fn consumption_of<'a>(
    alloc: Global,
    broker: &'a Broker,
    items: &[Item],
) -> Result<Consumption<'a>, AllocError>
    requires { All (HasTopicOf broker.now) (relations items.now) }
    ensures records { IfOk result (λ made. map records_lent made.of_items.items ≡ map (declared_records broker.now) items.now) }
    ensures order { IfOk result (λ made. map (λ r. r.now) made.order.items ≡ order_shown broker.now items.now) }
{
    let of_items = records_of_items(alloc, broker, items)?;
    let order = order_of(alloc, of_items.as_slice())?;
    Ok(Consumption { of_items, order })
}

/// All records of these topics, by their stamps.
fn order_of<'a>(
    alloc: Global,
    records: &[Vec<&'a SourceRecord>],
) -> Result<Vec<&'a SourceRecord>, AllocError>
    ensures { IfOk result (λ order. map (λ r. r.now) order.items ≡ ascending record_cmp (flat_map records_lent records.now)) }
{
    let mut order = Vec::new(alloc);
    for of_topic in records {
        order.extend_from_slice(of_topic.as_slice())?;
    }
    by_stamp(order)
}

/// For each item, the records of its topic by their stamps, if it is declared, and none if it is a query.
fn records_of_items<'a>(
    alloc: Global,
    broker: &'a Broker,
    items: &[Item],
) -> Result<Vec<Vec<&'a SourceRecord>>, AllocError>
    requires { All (HasTopicOf broker.now) (relations items.now) }
    ensures { IfOk result (λ records. map records_lent records.items ≡ map (declared_records broker.now) items.now) }
{
    let mut records = Vec::with_capacity(alloc, items.len())?;
    for item in items {
        records.push(records_of(alloc, broker, item)?)?;
    }
    Ok(records)
}

/// The records of an item's topic by their stamps, if the item is declared.
fn records_of<'a>(
    alloc: Global,
    broker: &'a Broker,
    item: &Item,
) -> Result<Vec<&'a SourceRecord>, AllocError>
    requires { HasTopicOf broker.now (relation_of item.now) }
    ensures { IfOk result (λ records. records_lent records ≡ declared_records broker.now item.now) }
{
    match item {
        Item::Declared(relation) => records_shown(alloc, broker, relation),
        Item::Started(_) => Ok(Vec::new(alloc)),
    }
}

/// The records of a declared relation's topic, all partitions together, by their stamps.
fn records_shown<'a>(
    alloc: Global,
    broker: &'a Broker,
    relation: &Relation,
) -> Result<Vec<&'a SourceRecord>, AllocError>
    requires { HasTopicOf broker.now relation.now }
    ensures { IfOk result (λ records. map (λ r. r.now) records.items ≡ records_shown broker.now relation.now) }
{
    by_stamp(records_by_part(alloc, broker, relation)?)
}

/// The records of a declared relation's topic, partition by partition.
fn records_by_part<'a>(
    alloc: Global,
    broker: &'a Broker,
    relation: &Relation,
) -> Result<Vec<&'a SourceRecord>, AllocError>
    requires { HasTopicOf broker.now relation.now }
    ensures { IfOk result (λ records. map (λ r. r.now) records.items ≡ records_by_part broker.now relation.now) }
{
    let mut records = Vec::new(alloc);
    for part in 0..broker.partitions(relation.number) {
        push_records(&mut records, broker.visible(relation.number, part).fed)?;
    }
    Ok(records)
}

/// The changes of a query's topic, all partitions together, by their places.
fn changes_shown<'a>(
    alloc: Global,
    broker: &'a Broker,
    relation: &Relation,
) -> Result<Vec<LentChange<'a>>, AllocError>
    requires { HasTopicOf broker.now relation.now }
    ensures { IfOk result (λ changes. map standing_of changes.items
        ≡ ascending standing_cmp (flat_map (standing_at broker.now relation.now) (range_with_len 0 relation.now.partitions))) }
{
    let mut changes = Vec::new(alloc);
    for part in 0..broker.partitions(relation.number) {
        push_changes(
            &mut changes,
            part,
            broker.visible(relation.number, part).said,
        )?;
    }
    by_place(changes)
}
