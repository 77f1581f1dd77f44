//! The report on a program's relations.

ghost use Rattle.std.specs.Prelude.{◌≡◌, ◌++◌, All, IfOk, OnOk, count_by, flat_map, map, string_bytes};
ghost use Rattle.ksql_program.specs.Program.{relation_of, relations};
ghost use Rattle.reference.specs.Plain.{changes_of};
ghost use Rattle.query_meaning.specs.Meaning.{up_to};
ghost use Rattle.query_meaning.specs.Queries.{changes_at};
ghost use Rattle.reference.specs.Sections.{is_skipped_up_to, closed_at, sections};
ghost use Rattle.run_text.specs.Report.{meant, report, section_of, section_text, IsPrintable};

use crate::lines::lines_of;
use crate::meaning::Listed;
use ksql_place::{SourceRecord, is_skipped};
use ksql_program::{Item, Program, relation_of};
use ksql_types::Relation;
use run_text::{Extent, push_order, push_section};
use std::alloc::{AllocError, Global};

/// The report on a program's relations: the records in the order in which they were fed, a head line and the changes of
/// each relation and, for a table, its rows, the trace, and a last line. `lists` has the changes of each relation at
/// its number, up to the feed in `closed`. Takes O(n log n) steps for a table of n changes if few rows share a hash.
#[tactic(auto, using(run_text::proofs::ReportLemmas::appends), unfolding(run_text::specs::Report::report))]
pub fn report(
    alloc: Global,
    program: &Program,
    closed: &[u64],
    order: &[SourceRecord],
    lists: &[Listed],
    trace: &str,
) -> Result<String, AllocError>
    requires printable { All IsPrintable (relations program.now.items) }
    ensures { IfOk result (λ text. string_bytes text ≡ report (relations program.now.items) order.now
        (sections closed.now program.now.items order.now (map changes_of lists.now)) trace.now) }
{
    let items = program.items.items();
    let mut out = String::new(alloc);
    push_order(&mut out, items, lent(alloc, order)?.as_slice())?;
    push_items(&mut out, alloc, closed, items, order, lists)?;
    out.push_str(trace)?;
    out.push_str("end\n")?;
    Ok(out)
}

/// The records, each borrowed.
fn lent<'a>(alloc: Global, order: &'a [SourceRecord]) -> Result<Vec<&'a SourceRecord>, AllocError>
    ensures { IfOk result (λ records. map (λ r. r.now) records.items ≡ order.now) }
{
    let mut records = Vec::with_capacity(alloc, order.len())?;
    for fed in order {
        records.push(fed)?;
    }
    Ok(records)
}

/// Appends what is shown of each relation.
fn push_items(
    out: &mut String,
    alloc: Global,
    closed: &[u64],
    items: &[Item],
    order: &[SourceRecord],
    lists: &[Listed],
) -> Result<(), AllocError>
    requires printable { All IsPrintable (relations items.now) }
    ensures { OnOk result (string_bytes out.new ≡ string_bytes out.old
        ++ flat_map section_text (sections closed.now items.now order.now (map changes_of lists.now))) }
{
    for item in items {
        push_item(out, alloc, closed, relation_of(item), order, lists)?;
    }
    Ok(())
}

/// Appends what is shown of a relation.
fn push_item(
    out: &mut String,
    alloc: Global,
    closed: &[u64],
    relation: &Relation,
    order: &[SourceRecord],
    lists: &[Listed],
) -> Result<(), AllocError>
    requires { IsPrintable relation.now }
    ensures { let feed = closed_at closed.now relation.now.number in
        OnOk result (string_bytes out.new ≡ string_bytes out.old ++ section_text
        (section_of feed relation.now (up_to feed order.now) (meant relation.now (changes_at (map changes_of lists.now) relation.now.number)))) }
{
    let closed = closed_at(closed, relation.number);
    let skipped = skipped_of(relation, closed, order);
    match lists.get(relation.number as usize) {
        Some(listed) => {
            let lines = lines_of(alloc, relation, listed)?;
            push_section(
                out,
                alloc,
                Extent::Whole,
                relation,
                closed,
                skipped,
                lines.as_slice(),
            )
        }
        None => push_section(out, alloc, Extent::Whole, relation, closed, skipped, &[]),
    }
}

/// The feed up to which the relation of this number is shown.
fn closed_at(closed: &[u64], number: u32) -> u64
    ensures { result ≡ closed_at closed.now number }
{
    match closed.get(number as usize) {
        Some(feed) => *feed,
        None => 0,
    }
}

/// The number of records of a relation's topic, up to a feed, that were skipped.
fn skipped_of(relation: &Relation, feed: u64, order: &[SourceRecord]) -> usize
    ensures { result ≡ count_by (is_skipped_up_to relation.now feed) order.now }
{
    order
        .iter()
        .filter(|fed| is_skipped_up_to(relation, feed, fed))
        .count()
}

/// Whether a record, up to a feed, is in a relation's topic and skipped there.
fn is_skipped_up_to(relation: &Relation, feed: u64, fed: &SourceRecord) -> bool
    ensures { result ≡ is_skipped_up_to relation.now feed fed.now }
{
    fed.stamp.feed <= feed && is_skipped(relation, fed)
}
