//! Laws of what is fed. These functions do nothing.
ghost use Rattle.std.specs.Prelude.{◌≡◌, ◌≤◌, ◌+◌, ◌++◌, ℕ, All, List, map};
ghost use Rattle.ksql_types.specs.declared.relation.Relation.{Relation as OneRelation};
ghost use Rattle.ksql_place.specs.Ascending.{Rises};
ghost use Rattle.ksql_place.specs.Order.{record_cmp};
ghost use Rattle.ksql_place.specs.declared.change.SourceRecord.{SourceRecord as OneRecord};
ghost use Rattle.ksql_program.specs.Sound.{IsSound};
ghost use Rattle.ksql_program.specs.declared.program.Item.{Item as OneItem};
ghost use Rattle.topic_files.specs.File.{topic_lines};
ghost use Rattle.topic_files.specs.declared.topic.TopicLines.{TopicLines as OneFile};
ghost use Rattle.feed_laws.specs.Feeds.{Source, after_feed, records_of, sources_of};
ghost use Rattle.feed_laws.specs.Fitting.{AreFilesOf, AreSourcesOf, Fits, IsFedOf};

/// The records of a topic file have keys and rows of their relation's columns, with short values, and times of at most
/// 2^53.
pub fn files_fit()
    ensures { (relation : OneRelation) (file : List ℕ) → All (IsFedOf relation) (topic_lines relation file).feds }
{}

/// Before any feed, the sources of a sound program are in order. A feed brings records in the order of consumption,
/// with its own number; with them the order still fits the program, and the sources stay in order.
pub fn feeds_fit()
    ensures begins { (items : List OneItem) (files : List OneFile) → IsSound items → AreFilesOf items files → AreSourcesOf items 0 (sources_of items files) }
    ensures rises { (items : List OneItem) (fed : ℕ) (count : Source → ℕ) (sources : List Source) → AreSourcesOf items fed sources →
        Rises record_cmp (records_of (fed + 1) count sources) × All (λ r. r.stamp.feed ≡ fed + 1) (records_of (fed + 1) count sources) }
    ensures fits { (items : List OneItem) (fed : ℕ) (count : Source → ℕ) (sources : List Source) (order : List OneRecord) → AreSourcesOf items fed sources →
        Fits items order → All (λ r. r.stamp.feed ≤ fed) order → Fits items (order ++ records_of (fed + 1) count sources) }
    ensures goes_on { (items : List OneItem) (fed : ℕ) (count : Source → ℕ) (sources : List Source) → AreSourcesOf items fed sources →
        AreSourcesOf items (fed + 1) (map (after_feed (fed + 1) count) sources) }
{}
