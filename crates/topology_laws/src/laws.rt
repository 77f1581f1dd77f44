//! Laws of topologies. These functions do nothing.
ghost use Rattle.std.specs.Prelude.{All, List};
ghost use Rattle.ksql_place.specs.Ascending.{Rises};
ghost use Rattle.ksql_place.specs.Order.{record_cmp};
ghost use Rattle.ksql_place.specs.declared.change.SourceRecord.{SourceRecord as OneRecord};
ghost use Rattle.ksql_program.specs.Sound.{IsSound};
ghost use Rattle.ksql_program.specs.declared.program.Item.{Item as OneItem};
ghost use Rattle.meaning_laws.specs.Bounds.{IsInTime, IsRecordOf};
ghost use Rattle.topology.specs.Tasks.{chain_of};
ghost use Rattle.topology.specs.Topologies.{subs, topology_of};
ghost use Rattle.sending_laws.specs.Chain.{IsLongest};
ghost use Rattle.short_laws.specs.Fed.{IsFed};
ghost use Rattle.topology_laws.specs.Meant.{MeansItsQueries};
ghost use Rattle.sending_laws.specs.Sent.{HasColumnsThroughout, IsPlacedThroughout, IsSentByFeeds, IsSmallThroughout};

/// Each partition of the topic of each query's result has the changes that the query means there.
pub fn topology_means_its_queries()
    ensures { (items : List OneItem) (order : List OneRecord) → IsSound items → IsFed items order →
        MeansItsQueries items (topology_of items) order }
{}

/// In each partition of each topic, repartition topics included, places rise.
pub fn sends_are_placed()
    ensures { (items : List OneItem) (order : List OneRecord) → IsSound items → IsFed items order →
        IsPlacedThroughout items (topology_of items) order }
{}

/// The content of a partition for the records up to a feed is its content for all records, cut at that feed.
pub fn sends_are_by_feeds()
    ensures { (items : List OneItem) (order : List OneRecord) → Rises record_cmp order →
        IsSentByFeeds items (topology_of items) order }
{}

/// If the records have times of at most 2^53, so have all changes that tasks send, and the paths have at most 512
/// numbers.
pub fn sends_are_bounded()
    ensures { (items : List OneItem) (order : List OneRecord) → IsSound items → All IsInTime order →
        IsSmallThroughout items (topology_of items) order }
{}

/// If the records have keys and rows of their relations' columns, so have all changes in the topics of relations, and
/// those in repartition topics have whole keys and whole rows.
pub fn sends_have_columns()
    ensures { (items : List OneItem) (order : List OneRecord) → IsSound items → All (IsRecordOf items) order →
        HasColumnsThroughout items (topology_of items) order }
{}

/// The chain, which is counted along the sub-topologies, is the length of the longest path on which each sub-topology
/// reads the topic that the one before it writes.
pub fn the_chain_is_the_longest_path()
    ensures { (items : List OneItem) → IsSound items → IsLongest (subs items) (chain_of (subs items)) }
{}
