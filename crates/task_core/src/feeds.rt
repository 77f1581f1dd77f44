//! The entries of some feeds, among entries in the order of their places.
ghost use Rattle.std.specs.Prelude.{◌≡◌, ◌≤◌};
ghost use Rattle.std.specs.List.Sorted.{IsNonDecreasingBy};
ghost use Rattle.core_state.specs.State.{feed_of};
ghost use Rattle.core_state.specs.Wired.{between, log_feed};
ghost use Rattle.topic_log.specs.Entries.{entries_in};
ghost use Rattle.topic_log.specs.Order.{IsInPlaceOrder};

use ksql_place::{Change, SourceRecord};
use topic_log::Entries;

/// The entries of the feeds after `from` up to `to`. Takes O(log n) steps.
pub fn fed_between<'a>(entries: Entries<'a>, from: u64, to: u64) -> Entries<'a>
    requires order { IsInPlaceOrder (entries_in entries) }
    requires forward { from ≤ to }
    ensures { entries_in result ≡ between log_feed from to (entries_in entries.entry) }
{
    Entries {
        fed: records_between(entries.fed, from, to),
        said: changes_between(entries.said, from, to),
    }
}

/// The records of the feeds after `from` up to `to`.
fn records_between(records: &[SourceRecord], from: u64, to: u64) -> &[SourceRecord]
    requires order { IsNonDecreasingBy (λ r. r.stamp.feed) records.now }
    requires forward { from ≤ to }
    ensures { result.now ≡ between (λ r. r.stamp.feed) from to records.now }
{
    let first = records.partition_point(|record| record.stamp.feed <= from);
    let end = records.partition_point(|record| record.stamp.feed <= to);
    &records[first..end]
}

/// The changes of the feeds after `from` up to `to`.
fn changes_between(changes: &[Change], from: u64, to: u64) -> &[Change]
    requires order { IsNonDecreasingBy feed_of changes.now }
    requires forward { from ≤ to }
    ensures { result.now ≡ between feed_of from to changes.now }
{
    let first = changes.partition_point(|change| change.place.stamp.feed <= from);
    let end = changes.partition_point(|change| change.place.stamp.feed <= to);
    &changes[first..end]
}
