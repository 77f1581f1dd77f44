//! The properties of WITH.

ghost use Rattle.std.specs.Prelude.{◌≡◌, bytes_eq, codes, is_some, map, option_and_then, option_copied};
ghost use Rattle.std.specs.List.{list_all};
ghost use Rattle.std.specs.Str.{str_to_ascii_uppercase};
ghost use Rattle.ksql_types.specs.Names as names;
ghost use Rattle.ksql_clauses.specs.Properties as spec;

use ksql_types::{Chars, Format};
use statement_trees::{Property, PropertyValue};

const TEXT_PROPERTIES: [&str; 3] = ["KAFKA_TOPIC", "KEY_FORMAT", "VALUE_FORMAT"];

const DIGITS_PROPERTIES: [&str; 2] = ["PARTITIONS", "REPLICAS"];

/// Whether a name, in any case, is `word`, which is in upper case.
pub fn is_word(name: &str, word: &str) -> bool
    ensures { result ≡ bytes_eq (str_to_ascii_uppercase name.now) word.now }
{
    let mut name = name.as_bytes();
    let mut word = word.as_bytes();
    while let [first, rest @ ..] = name {
        match word {
            [other, others @ ..] => {
                if first.to_ascii_uppercase() != *other {
                    return false;
                }
                name = rest;
                word = others;
            }
            [] => return false,
        }
    }
    word.is_empty()
}

/// Whether two names are the same, ignoring case.
fn is_same_name(name: &str, other: &str) -> bool
    ensures { result ≡ bytes_eq (str_to_ascii_uppercase name.now) (str_to_ascii_uppercase other.now) }
{
    let mut name = name.as_bytes();
    let mut other = other.as_bytes();
    while let [first, rest @ ..] = name {
        match other {
            [second, others @ ..] => {
                if first.to_ascii_uppercase() != second.to_ascii_uppercase() {
                    return false;
                }
                name = rest;
                other = others;
            }
            [] => return false,
        }
    }
    other.is_empty()
}

/// Whether a name, in any case, is one of `words`, which are in upper case.
fn is_word_among(words: &[&str], name: &str) -> bool
    ensures { result ≡ names.is_among (map (λ word. word.now) words.now) (str_to_ascii_uppercase name.now) }
{
    let mut words = words;
    while let [word, rest @ ..] = words {
        if is_word(name, word) {
            return true;
        }
        words = rest;
    }
    false
}

/// Whether a property is known, and its value has the property's kind.
fn has_kind(property: &Property) -> bool
    ensures { result ≡ spec.has_kind (spec.name_of property.now) property.now.value }
{
    match property.value {
        PropertyValue::Text(_) => is_word_among(&TEXT_PROPERTIES, property.name.items()),
        PropertyValue::Digits(_) => is_word_among(&DIGITS_PROPERTIES, property.name.items()),
    }
}

fn have_kinds(properties: &[Property]) -> bool
    ensures { result ≡ list_all (λ p. spec.has_kind (spec.name_of p) p.value) properties.now }
{
    properties.iter().all(has_kind)
}

/// Whether one of the properties has this name.
fn is_named_among(name: &str, properties: &[Property]) -> bool
    ensures { result ≡ names.is_among (map spec.name_of properties.now) (str_to_ascii_uppercase name.now) }
{
    let mut properties = properties;
    while let [property, rest @ ..] = properties {
        if is_same_name(name, property.name.items()) {
            return true;
        }
        properties = rest;
    }
    false
}

fn are_distinct(properties: &[Property]) -> bool
    ensures { result ≡ names.are_distinct (map spec.name_of properties.now) }
{
    let mut properties = properties;
    while let [property, rest @ ..] = properties {
        if is_named_among(property.name.items(), rest) {
            return false;
        }
        properties = rest;
    }
    true
}

/// The first value of the property `word`, which is in upper case.
fn value_of<'a>(word: &str, properties: &'a [Property]) -> Option<&'a PropertyValue>
    ensures { option_copied result ≡ spec.value_of word.now properties.now }
{
    properties
        .iter()
        .find(|property| is_word(property.name.items(), word))
        .map(|property| &property.value)
}

fn text_of<'a>(word: &str, properties: &'a [Property]) -> Option<&'a Chars>
    ensures { option_copied result ≡ option_and_then spec.text_in (spec.value_of word.now properties.now) }
{
    match value_of(word, properties) {
        Some(PropertyValue::Text(content)) => Some(content),
        _ => None,
    }
}

/// The topic that the properties name.
pub fn topic_in(properties: &[Property]) -> Option<&Chars>
    ensures { option_copied result ≡ spec.topic_in properties.now }
{
    text_of("KAFKA_TOPIC", properties)
}

/// Whether the properties have KAFKA_TOPIC, whatever its value.
pub fn has_topic(properties: &[Property]) -> bool
    ensures { result ≡ is_some (spec.value_of (codes "KAFKA_TOPIC") properties.now) }
{
    value_of("KAFKA_TOPIC", properties).is_some()
}

/// The number of partitions that the properties ask for.
pub fn partitions_in(properties: &[Property]) -> Option<u64>
    ensures { result ≡ spec.partitions_in properties.now }
{
    match value_of("PARTITIONS", properties) {
        Some(PropertyValue::Digits(number)) => Some(*number),
        _ => None,
    }
}

/// The format of this name, in any case.
fn format_named(name: &str) -> Option<Format>
    ensures { result ≡ spec.format_named name.now }
{
    if is_word(name, "JSON") {
        Some(Format::Json)
    } else if is_word(name, "DELIMITED") {
        Some(Format::Delimited)
    } else {
        None
    }
}

/// The format of values that the properties ask for, if it is known.
pub fn format_in(properties: &[Property]) -> Option<Format>
    ensures { result ≡ spec.format_in properties.now }
{
    match text_of("VALUE_FORMAT", properties) {
        Some(name) => format_named(name.items()),
        None => None,
    }
}

fn has_bad_format(properties: &[Property]) -> bool
    ensures { result ≡ spec.is_bad_format (spec.value_of (codes "VALUE_FORMAT") properties.now) }
{
    match value_of("VALUE_FORMAT", properties) {
        Some(PropertyValue::Text(name)) => format_named(name.items()).is_none(),
        _ => false,
    }
}

fn has_bad_key_format(properties: &[Property]) -> bool
    ensures { result ≡ spec.is_bad_key_format (spec.value_of (codes "KEY_FORMAT") properties.now) }
{
    match value_of("KEY_FORMAT", properties) {
        Some(PropertyValue::Text(name)) => !is_word(name.items(), "KAFKA"),
        _ => false,
    }
}

/// Whether the properties are wrong by themselves: one is unknown, repeated or of the wrong kind, a format is unknown,
/// or the number of partitions is 0.
pub fn are_bad(properties: &[Property]) -> bool
    ensures { result ≡ spec.are_bad properties.now }
{
    !have_kinds(properties)
        || !are_distinct(properties)
        || has_bad_format(properties)
        || has_bad_key_format(properties)
        || partitions_in(properties) == Some(0)
}
