//! The content of a topic line: its time, and the fields of its key and its value.

ghost use Rattle.std.specs.Prelude.{◌≡◌, IfSome, codes, option_and_then, option_map};
ghost use Rattle.serde_json.specs.Data.{no_members};
ghost use Rattle.topic_files.specs.LineFields.{field_after, fields_in, seen, time_in};
ghost use Rattle.topic_files.specs.TopicLine.{as_time, is_key, is_value, unless_null, whole_number};
ghost use Rattle.topic_files.specs.Tree.{view};

use crate::tree::{Json, is_named};

/// The greatest time of a record, in milliseconds.
const LAST_TIME: u64 = 1 << 53;

/// The time of a topic line, and the fields of its key and its value unless they are missing or null.
#[derive(Drop)]
pub(crate) struct TopicLine<'t, 'a> {
    pub(crate) time: u64,
    pub(crate) key: Option<&'t Json<'a>>,
    pub(crate) value: Option<&'t Json<'a>>,
}

/// The fields `t`, `k` and `v` of a line's object. Of several members with one name, the last counts.
#[derive(Drop)]
pub(crate) struct LineFields<'a> {
    pub(crate) time: Option<Json<'a>>,
    pub(crate) key: Option<Json<'a>>,
    pub(crate) value: Option<Json<'a>>,
}

impl<'a> LineFields<'a> {
    /// No fields yet.
    pub(crate) fn new() -> LineFields<'a>
        ensures { seen result ≡ fields_in no_members }
    {
        LineFields {
            time: None,
            key: None,
            value: None,
        }
    }

    /// Adds one more member of the object.
    pub(crate) fn put(&mut self, name: &str, field: Json<'a>)
        ensures time { (seen self.new).time ≡ field_after name.now (view field.entry) (codes "t") (seen self.old).time }
        ensures key { (seen self.new).key ≡ field_after name.now (view field.entry) (codes "k") (seen self.old).key }
        ensures value { (seen self.new).value ≡ field_after name.now (view field.entry) (codes "v") (seen self.old).value }
    {
        if is_named(name, "t") {
            self.time = Some(field);
        } else if is_named(name, "k") {
            self.key = Some(field);
        } else if is_named(name, "v") {
            self.value = Some(field);
        }
    }
}

/// A field, or None if it is missing or null.
fn present<'t, 'a>(field: &'t Option<Json<'a>>) -> Option<&'t Json<'a>>
    ensures { option_map (λ f. view f.now) result ≡ option_and_then unless_null (option_map view field.now) }
{
    field.as_ref().filter(|json| !json.is_null())
}

/// The topic line with these fields, or None if they make none.
pub(crate) fn topic_line<'t, 'a>(fields: &'t LineFields<'a>) -> Option<TopicLine<'t, 'a>>
    ensures time { option_map (λ line. line.time) result ≡ time_in (seen fields.now) }
    ensures key { IfSome result (λ line. option_map (λ field. view field.now) line.key
        ≡ option_and_then unless_null (seen fields.now).key) }
    ensures value { IfSome result (λ line. option_map (λ field. view field.now) line.value
        ≡ option_and_then unless_null (seen fields.now).value) }
{
    let key = present(&fields.key);
    let value = present(&fields.value);
    if is_key(key) && is_value(value) {
        let time = time_of(fields.time.as_ref())?;
        Some(TopicLine { time, key, value })
    } else {
        None
    }
}

/// The field `t` if it is a time.
fn time_of(field: Option<&Json>) -> Option<u64>
    ensures { result ≡ option_and_then as_time (option_and_then whole_number (option_map (λ f. view f.now) field.entry)) }
{
    let number = field?.as_i64()?;
    u64::try_from(number).ok().filter(|time| *time <= LAST_TIME)
}

/// Whether this is allowed in the field `k`.
fn is_key(field: Option<&Json>) -> bool
    ensures { result ≡ is_key (option_map (λ f. view f.now) field.entry) }
{
    match field {
        Some(field) => {
            field.as_str().is_some() || field.as_i64().is_some() || field.as_bool().is_some()
        }
        None => true,
    }
}

/// Whether this is allowed in the field `v`.
fn is_value(field: Option<&Json>) -> bool
    ensures { result ≡ is_value (option_map (λ f. view f.now) field.entry) }
{
    match field {
        Some(field) => field.as_object().is_some() || field.as_str().is_some(),
        None => true,
    }
}
