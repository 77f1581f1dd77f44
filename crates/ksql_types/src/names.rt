//! Names of columns and topics.

ghost use Rattle.std.specs.Prelude.{◌≡◌, map, not};
ghost use Rattle.std.specs.List.{list_all};
ghost use Rattle.ksql_types.specs.Names as spec;

use crate::chars::Chars;

/// Names that no column can have.
const RESERVED_COLUMNS: [&str; 4] = ["ROWTIME", "ROWKEY", "WINDOWSTART", "WINDOWEND"];

/// The most bytes of a topic name.
const LONGEST_TOPIC: usize = 249;

/// Whether `name` is one of `words`.
pub fn is_among(words: &[&str], name: &str) -> bool
    ensures { result ≡ spec.is_among (map (λ word. word.now) words.now) name.now }
{
    let mut words = words;
    while let [word, rest @ ..] = words {
        if name == *word {
            return true;
        }
        words = rest;
    }
    false
}

fn is_name_among(names: &[&Chars], name: &Chars) -> bool
    ensures { result ≡ spec.is_among (map (λ other. other.now) names.now) name.now }
{
    let mut names = names;
    while let [other, rest @ ..] = names {
        if name == *other {
            return true;
        }
        names = rest;
    }
    false
}

fn are_distinct(names: &[&Chars]) -> bool
    ensures { result ≡ spec.are_distinct (map (λ name. name.now) names.now) }
{
    let mut names = names;
    while let [name, rest @ ..] = names {
        if is_name_among(rest, name) {
            return false;
        }
        names = rest;
    }
    true
}

fn are_free(names: &[&Chars]) -> bool
    ensures { result ≡ list_all (λ name. not (spec.is_among spec.reserved_columns name)) (map (λ name. name.now) names.now) }
{
    let mut names = names;
    while let [name, rest @ ..] = names {
        if is_among(&RESERVED_COLUMNS, name.items()) {
            return false;
        }
        names = rest;
    }
    true
}

/// Whether columns can have these names: all differ, and none is reserved.
pub fn are_column_names(names: &[&Chars]) -> bool
    ensures { result ≡ spec.are_column_names (map (λ name. name.now) names.now) }
{
    are_distinct(names) && are_free(names)
}

fn is_topic_byte(byte: u8) -> bool
    ensures { result ≡ spec.is_topic_byte byte }
{
    byte.is_ascii_alphanumeric() || byte == b'.' || byte == b'_' || byte == b'-'
}

fn are_topic_bytes(bytes: &[u8]) -> bool
    ensures { result ≡ list_all spec.is_topic_byte bytes.now }
{
    let mut bytes = bytes;
    while let [byte, rest @ ..] = bytes {
        if !is_topic_byte(*byte) {
            return false;
        }
        bytes = rest;
    }
    true
}

/// Whether a text is a legal topic name: 1 to 249 ASCII letters, digits, `.`, `_` and `-`, and neither `.` nor `..`.
pub fn is_topic_name(name: &str) -> bool
    ensures { result ≡ spec.is_topic_name name.now }
{
    let length = name.len();
    1 <= length
        && length <= LONGEST_TOPIC
        && are_topic_bytes(name.as_bytes())
        && name != "."
        && name != ".."
}
