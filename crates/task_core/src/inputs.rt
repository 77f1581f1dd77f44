//! The inputs of a task: up to which feed they are closed, and what they show in some feeds.
ghost use Rattle.std.specs.Prelude.{◌≡◌, ◌<◌, ◌≤◌, [], List, All, IsSome, length, map};
ghost use Rattle.ksql_nodes.specs.declared.node.Node.{Node as OneNode};
ghost use Rattle.core_state.specs.Shelf.{shelf_closed};
ghost use Rattle.core_state.specs.State.{lowest};
ghost use Rattle.core_state.specs.Wired.{between, log_feed};
ghost use Rattle.topic_log.specs.Entries.{entries_in};
ghost use Rattle.topic_log.specs.Order.{IsInPlaceOrder};
ghost use Rattle.topic_log.specs.Shelves.{part_at, routes_in, shelf_of, topics_of};
ghost use Rattle.task_core.specs.Readers.{IsOrdered, pending};
ghost use Rattle.task_core.specs.Reading.{kind_read, takes};

use crate::feeds::fed_between;
use crate::reader::{Reader, Rest};
use ksql_nodes::Node;
use ksql_types::Kind;
use topic_log::{Broker, Entries};
use topology::SubInput;

/// The feeds after `from` up to `to`, in partition `part` of each input.
#[derive(Clone, Copy)]
pub struct Feeds {
    pub part: u32,
    pub from: u64,
    pub to: u64,
}

/// The kinds of relation as which a task's first node reads the records of its sides.
#[derive(Clone, Copy)]
pub struct Kinds {
    pub left: Kind,
    pub right: Kind,
}

/// The kind of relation as which the first node reads the records on a side.
pub fn kind_read(nodes: &[Node], side: u32) -> Kind
    ensures { result ≡ kind_read nodes.now side }
{
    match nodes.first() {
        Some(Node::Table { .. }) | Some(Node::JoinTables { .. }) => Kind::Table,
        Some(Node::JoinStreamTable { .. }) if side > 0 => Kind::Table,
        _ => Kind::Stream,
    }
}

/// The feed up to which all inputs (one or two) are closed.
pub fn bound_of(inputs: &[SubInput], broker: &Broker) -> u64
    requires some { 1 ≤ length inputs.now }
    requires two { length inputs.now ≤ 2 }
    requires topics { All (λ i. i.topic < length (topics_of broker.now)) inputs.now }
    ensures { let b = broker.now in result ≡ lowest b.fed (shelf_closed (routes_in b) (shelf_of b)) (map (λ i. i.topic) inputs.now) }
{
    match inputs {
        [] => broker.fed(),
        [one] => broker.closed(one.topic),
        [left, right, ..] => broker.closed(left.topic).min(broker.closed(right.topic)),
    }
}

/// Everything that the inputs (one or two) show in some feeds.
pub fn reader_of<'a>(
    broker: &'a Broker,
    feeds: Feeds,
    kinds: Kinds,
    inputs: &[SubInput],
) -> Reader<'a>
    requires some { 1 ≤ length inputs.now }
    requires two { length inputs.now ≤ 2 }
    requires parts { All (λ i. IsSome (part_at broker.now i.topic feeds.part)) inputs.now }
    requires forward { feeds.from ≤ feeds.to }
    ensures order { IsOrdered result }
    ensures pending { (nodes : List OneNode) → kinds.left ≡ kind_read nodes 0 → kinds.right ≡ kind_read nodes 1 →
        pending result ≡ takes nodes inputs.now (λ topic. (shelf_of broker.now).shown topic feeds.part) feeds.from feeds.to }
{
    match inputs {
        [left, right, ..] => Reader {
            left: rest_of(broker, feeds, kinds.left, *left),
            right: rest_of(broker, feeds, kinds.right, *right),
        },
        [one] => Reader {
            left: rest_of(broker, feeds, kinds.left, *one),
            right: nothing(kinds.right),
        },
        [] => Reader {
            left: nothing(kinds.left),
            right: nothing(kinds.right),
        },
    }
}

/// What an input shows in some feeds.
fn rest_of<'a>(broker: &'a Broker, feeds: Feeds, kind: Kind, input: SubInput) -> Rest<'a>
    requires part { IsSome (part_at broker.now input.topic feeds.part) }
    requires forward { feeds.from ≤ feeds.to }
    ensures kind { result.kind ≡ kind }
    ensures input { result.input ≡ input }
    ensures order { IsInPlaceOrder (entries_in result.entries) }
    ensures entries { entries_in result.entries ≡ between log_feed feeds.from feeds.to ((shelf_of broker.now).shown input.topic feeds.part) }
{
    let shown = broker.visible(input.topic, feeds.part);
    Rest {
        kind,
        input,
        entries: fed_between(shown, feeds.from, feeds.to),
    }
}

/// The empty rest of a missing input.
fn nothing<'a>(kind: Kind) -> Rest<'a>
    ensures kind { result.kind ≡ kind }
    ensures input { result.input.relation ≡ 0 }
    ensures entries { entries_in result.entries ≡ [] }
{
    Rest {
        kind,
        input: SubInput {
            topic: 0,
            relation: 0,
            keys: 0,
        },
        entries: Entries {
            fed: &[],
            said: &[],
        },
    }
}
