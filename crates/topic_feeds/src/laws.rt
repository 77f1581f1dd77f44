//! Laws of the records that are fed. These functions do nothing.
ghost use Rattle.std.specs.Prelude.{◌≡◌, ◌≢◌, ◌≤◌, ℕ, All, List, map};
ghost use Rattle.std.specs.List.{AllPairs};
ghost use Rattle.ksql_types.specs.declared.relation.Relation.{Relation as OneRelation};
ghost use Rattle.ksql_place.specs.declared.change.SourceRecord.{SourceRecord as OneRecord};
ghost use Rattle.ksql_place.specs.Ascending.{ascending};
ghost use Rattle.ksql_place.specs.Merge.{queues, Taken};
ghost use Rattle.ksql_place.specs.Order.{part_stamps, record_cmp, stamps_of};
ghost use Rattle.topic_files.specs.declared.topic.Fed.{Fed as OneFed};
ghost use Rattle.topic_feeds.specs.Feeding.{fed_from, feed_of, in_part, part_of, parts_of, Feeding};

/// The stamps of the records that a feed brings to a partition are those of their times, from the offset where the
/// earlier feeds ended. If each relation has a partition, the order of a feed has the stamps of all partitions of its
/// topics. If the relations have different numbers, it results from repeatedly taking the head with the smallest time.
pub fn feeds_are_merged()
    ensures parts { (feed : ℕ) (relation : OneRelation) (before : List OneRecord) (feds : List OneFed) (part : ℕ) →
        All (λ r. r.stamp.feed ≢ feed) before →
        map (λ r. r.stamp) (in_part part (fed_from feed relation before feds))
        ≡ part_stamps feed (part_of feed relation before feds part) }
    ensures stamps { (feed : ℕ) (feedings : List Feeding) →
        All (λ f. 1 ≤ f.relation.partitions) feedings → All (λ f. All (λ r. r.stamp.feed ≢ feed) f.before) feedings →
        map (λ r. r.stamp) (ascending record_cmp (feed_of feed feedings)) ≡ stamps_of feed (parts_of feed feedings) }
    ensures merged { (feed : ℕ) (feedings : List Feeding) →
        All (λ f. 1 ≤ f.relation.partitions) feedings → All (λ f. All (λ r. r.stamp.feed ≢ feed) f.before) feedings →
        AllPairs (λ a b. a.relation.number ≢ b.relation.number) feedings →
        Taken (queues feed (parts_of feed feedings)) (map (λ r. r.stamp) (ascending record_cmp (feed_of feed feedings))) }
{}
