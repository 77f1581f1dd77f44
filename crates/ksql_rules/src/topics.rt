//! Names, topics and partitions of statements.

ghost use Rattle.std.specs.Prelude.{◌≡◌, Some, codes, if◌then◌else◌, is_some, option_copied};
ghost use Rattle.std.specs.List.{list_any};
ghost use Rattle.ksql_types.specs.Catalog.{has_name, has_topic as is_topic_of};
ghost use Rattle.ksql_clauses.specs.Properties as properties;
ghost use Rattle.ksql_rules.specs.Breaks as spec;

use ksql_clauses::{has_topic, is_word, topic_in};
use ksql_types::{Catalog, Chars, is_topic_name};
use statement_trees::{Property, PropertyValue, Statement, StatementBody};

/// The most partitions of a topic.
const MOST_PARTITIONS: u64 = 64;

/// Whether the properties ask for more partitions than a topic can have.
pub fn has_many_partitions(props: &[Property]) -> bool
    ensures { result ≡ spec.has_many_partitions props.now }
{
    props.iter().any(wants_many_partitions)
}

/// Whether a property is PARTITIONS with more than a topic can have.
fn wants_many_partitions(prop: &Property) -> bool
    ensures { result ≡ spec.wants_many_partitions prop.now }
{
    match prop.value {
        PropertyValue::Digits(number) => {
            is_word(prop.name.items(), "PARTITIONS") && MOST_PARTITIONS < number
        }
        PropertyValue::Text(_) => false,
    }
}

/// The topic of a query: that of KAFKA_TOPIC, or else the relation's name.
pub fn query_topic<'a>(name: &'a Chars, props: &'a [Property]) -> Option<&'a Chars>
    ensures { option_copied result
        ≡ (if is_some (properties.value_of (codes "KAFKA_TOPIC") props.now) then properties.topic_in props.now else Some name.now) }
{
    if has_topic(props) {
        return topic_in(props);
    }
    Some(name)
}

fn topic_of<'a>(name: &'a Chars, body: &'a StatementBody) -> Option<&'a Chars>
    ensures { option_copied result ≡ spec.topic_of name.now body.now }
{
    match body {
        StatementBody::Declared { props, .. } => topic_in(props.items()),
        StatementBody::Query { props, .. } => query_topic(name, props.items()),
    }
}

/// Whether a topic is missing or illegal.
pub fn has_bad_topic(topic: Option<&Chars>) -> bool
    ensures { result ≡ spec.has_bad_topic (option_copied topic.entry) }
{
    match topic {
        None => true,
        Some(topic) => !is_topic_name(topic.items()),
    }
}

fn is_name_taken(catalog: &Catalog, name: &Chars) -> bool
    ensures { result ≡ list_any (has_name name.now) catalog.now }
{
    catalog
        .items()
        .iter()
        .any(|relation| *name == relation.name)
}

fn is_topic_taken(catalog: &Catalog, topic: &Chars) -> bool
    ensures { result ≡ list_any (is_topic_of topic.now) catalog.now }
{
    catalog
        .items()
        .iter()
        .any(|relation| *topic == relation.topic)
}

/// Whether an earlier relation has the statement's name or topic.
pub fn is_taken(catalog: &Catalog, statement: &Statement) -> bool
    ensures { result ≡ spec.is_taken catalog.now statement.now }
{
    let topic_taken = match topic_of(&statement.name, &statement.body) {
        None => false,
        Some(topic) => is_topic_taken(catalog, topic),
    };
    is_name_taken(catalog, &statement.name) || topic_taken
}
