//! The topics of declared relations, and the remaining records of their files.
ghost use Rattle.std.specs.Prelude.{◌≡◌, ◌≤◌, ◌++◌, ◌∷◌, All, IfOk, List, OnOk, [], drop, flat_map, length, map, min, take};
ghost use Rattle.std.specs.List.{AllZip};
ghost use Rattle.ksql_program.specs.declared.program.Item.{Item as OneItem};
ghost use Rattle.topic_files.specs.declared.topic.TopicLines.{TopicLines as OneFile};
ghost use Rattle.feed_laws.specs.Feeds.{Source as OneSource, after_feed, fed_of, sources_of};
ghost use Rattle.feed_laws.specs.Fitting.{AreFilesOf};
ghost use Rattle.cluster_core.specs.Cluster.{IsKept};
ghost use Rattle.cluster_laws.specs.Progress.{counted, taken};
ghost use Rattle.cluster_core.specs.Sourcing.{AreBuilt};
ghost use Rattle.cluster_laws.specs.Feeding.{CanFeed};

use ksql_place::SourceRecord;
use ksql_program::Item;
use ksql_types::{CopyOf, Items, Relation};
use std::alloc::{AllocError, Global};
use std::collections::VecDeque;
use std::mem;
use topic_feeds::Reached;
use topic_files::{Fed, Feds, TopicLines};
use topology::{Count, Step};

/// The topic of a declared relation: how far it was fed, and the remaining records of its file.
#[derive(Drop)]
pub struct Source {
    relation: Relation,
    reached: Reached,
    left: VecDeque<Fed>,
}

/// The sources of a program's declared relations, one file for each, in order.
pub fn sources_of(
    alloc: Global,
    items: &[Item],
    files: Vec<TopicLines>,
) -> Result<Vec<Source>, AllocError>
    requires files { AreFilesOf items.now files.items }
    ensures { IfOk result (λ sources. AllZip IsKept sources.items (sources_of items.now files.items)) }
{
    let mut left = VecDeque::from_vec(files);
    let mut sources = Vec::new(alloc);
    for item in items {
        push_source(alloc, &mut sources, item, &mut left)?;
    }
    Ok(sources)
}

/// Appends the source of an item, if it is declared: its file is the first of the remaining ones.
fn push_source(
    alloc: Global,
    sources: &mut Vec<Source>,
    item: &Item,
    left: &mut VecDeque<TopicLines>,
) -> Result<(), AllocError>
    ensures { OnOk result ((items : List OneItem) (files : List OneFile) (rest : List OneItem) →
        AreBuilt items files sources.old.items (item.now ∷ rest) left.old.items → AreBuilt items files sources.new.items rest left.new.items) }
{
    let Item::Declared(relation) = item else {
        return Ok(());
    };
    let Some(file) = left.pop_front() else {
        return Ok(());
    };
    sources.push(source_of(alloc, relation, file)?)?;
    Ok(())
}

/// The source of a declared relation with this file, before any feed. Fails with out of memory for more than 2^63
/// records.
fn source_of(alloc: Global, relation: &Relation, file: TopicLines) -> Result<Source, AllocError>
    ensures { IfOk result (λ source. IsKept source (record { relation = relation.now; before = []; left = file.feds })) }
{
    let feds = file.feds.into_items();
    if feds.len() as u64 > 1 << 63 {
        return Err(AllocError);
    }
    Ok(Source {
        relation: relation.copy(alloc)?,
        reached: Reached::new(alloc, relation)?,
        left: VecDeque::from_vec(feds),
    })
}

/// The records of a feed, source by source, as many of each as the step says; and the sources after it.
pub fn feed_sources(
    alloc: Global,
    sources: Vec<Source>,
    feed: u64,
    step: &Step,
) -> Result<(Vec<Source>, Vec<SourceRecord>), AllocError>
    requires ready { (ss : List OneSource) × AllZip IsKept sources.items ss × All (CanFeed feed) ss }
    ensures sources { IfOk result (λ fed. (ss : List OneSource) → AllZip IsKept sources.items ss → All (CanFeed feed) ss →
        AllZip IsKept fed.0.items (map (after_feed feed (taken step.now)) ss)) }
    ensures records { IfOk result (λ fed. (ss : List OneSource) → AllZip IsKept sources.items ss → All (CanFeed feed) ss →
        fed.1.items ≡ flat_map (fed_of feed (taken step.now)) ss) }
{
    let mut after = Vec::with_capacity(alloc, sources.len())?;
    let mut records = Vec::new(alloc);
    for mut source in sources {
        feed_source(alloc, &mut records, &mut source, feed, step)?;
        after.push(source)?;
    }
    Ok((after, records))
}

/// Appends the records that a feed takes from a source.
fn feed_source(
    alloc: Global,
    records: &mut Vec<SourceRecord>,
    source: &mut Source,
    feed: u64,
    step: &Step,
) -> Result<(), AllocError>
    requires ready { (s : OneSource) × IsKept source.old s × CanFeed feed s }
    ensures source { OnOk result ((s : OneSource) → IsKept source.old s → CanFeed feed s → IsKept source.new (after_feed feed (taken step.now) s)) }
    ensures records { OnOk result ((s : OneSource) → IsKept source.old s → CanFeed feed s →
        records.new.items ≡ records.old.items ++ fed_of feed (taken step.now) s) }
{
    let count = taken_of(source, step);
    let feds = take_feds(alloc, &mut source.left, count)?;
    source
        .reached
        .feed(alloc, records, feed, &source.relation, feds)?;
    Ok(())
}

/// How many records the feed of a step takes from a source, at most as many as remain.
fn taken_of(source: &Source, step: &Step) -> usize
    ensures within { result ≤ length source.now.left.items }
    ensures value { (s : OneSource) → IsKept source.now s → result ≡ min (taken step.now s) (length s.left) }
{
    let all = source.left.len();
    match step {
        Step::FeedAll => all,
        Step::Feed(counts) => {
            let count = count_of(counts.items(), source.relation.number);
            count.min(all as u64) as usize
        }
        _ => 0,
    }
}

/// The number of records that these counts ask for from a topic: 0 if it isn't among them.
fn count_of(counts: &[Count], topic: u32) -> u64
    ensures { (s : OneSource) → s.relation.number ≡ topic → result ≡ counted counts.now s }
{
    for count in counts {
        if count.topic == topic {
            return count.n;
        }
    }
    0
}

/// Takes all remaining records, `count` of them. Takes no memory.
fn take_all(alloc: Global, left: &mut VecDeque<Fed>, count: usize) -> Feds
    requires { length left.old.items ≤ count }
    ensures taken { result ≡ take count left.old.items }
    ensures left { left.new.items ≡ drop count left.old.items }
{
    let all = mem::replace(left, VecDeque::new(alloc));
    Items::of(all.into_vec())
}

/// Takes the first `count` remaining records.
fn take_feds(alloc: Global, left: &mut VecDeque<Fed>, count: usize) -> Result<Feds, AllocError>
    requires { count ≤ length left.old.items }
    ensures taken { IfOk result (λ feds. feds ≡ take count left.old.items) }
    ensures left { OnOk result (left.new.items ≡ drop count left.old.items) }
{
    if count == left.len() {
        return Ok(take_all(alloc, left, count));
    }
    let mut feds = Vec::with_capacity(alloc, count)?;
    for _ in 0..count {
        if let Some(fed) = left.pop_front() {
            feds.push(fed)?;
        }
    }
    Ok(Items::of(feds))
}
