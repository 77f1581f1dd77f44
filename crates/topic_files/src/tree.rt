//! The JSON of a line, with borrowed texts.

ghost use Rattle.std.specs.Prelude.{◌≡◌, bytes_eq, is_some, option_and_then, option_map};
ghost use Rattle.serde_json.specs.Find.{as_bool, as_i64, as_null, as_number, as_object, as_str, get_member};
ghost use Rattle.topic_files.specs.Tree.{members_view, view};

use serde_json::Number;

/// A member of an object: its name and its value.
pub(crate) type Member<'a> = (&'a str, Json<'a>);

/// Any JSON value. An object has its members in the order of the line; of several with one name, the last counts.
#[derive(Drop)]
pub(crate) enum Json<'a> {
    Null,
    Bool(bool),
    Number(Number),
    Text(&'a str),
    Array(Vec<Json<'a>>),
    Object(Vec<(&'a str, Json<'a>)>),
}

impl<'a> Json<'a> {
    pub(crate) fn is_null(&self) -> bool
        ensures { result ≡ is_some (as_null (view self.now)) }
    {
        matches!(self, Json::Null)
    }

    pub(crate) fn as_bool(&self) -> Option<bool>
        ensures { result ≡ as_bool (view self.now) }
    {
        match self {
            Json::Bool(truth) => Some(*truth),
            _ => None,
        }
    }

    pub(crate) fn as_i64(&self) -> Option<i64>
        ensures { result ≡ option_and_then as_i64 (as_number (view self.now)) }
    {
        match self {
            Json::Number(number) => number.as_i64(),
            _ => None,
        }
    }

    pub(crate) fn as_str(&self) -> Option<&'a str>
        ensures { option_map (λ text. text.now) result ≡ as_str (view self.now) }
    {
        match self {
            Json::Text(text) => Some(*text),
            _ => None,
        }
    }

    pub(crate) fn as_object(&self) -> Option<&[Member<'a>]>
        ensures { option_map (λ members. members_view members.now) result ≡ as_object (view self.now) }
    {
        match self {
            Json::Object(members) => Some(members.as_slice()),
            _ => None,
        }
    }
}

/// The value of the last member with this name.
pub(crate) fn member_of<'t, 'a>(members: &'t [Member<'a>], name: &str) -> Option<&'t Json<'a>>
    ensures { option_map (λ field. view field.now) result ≡ get_member name.now (members_view members.now) }
{
    let mut left = members.len();
    'members: while left > 0 {
        left -= 1;
        let (key, field) = &members[left];
        if is_named(key, name) {
            return Some(field);
        }
    }
    None
}

/// Whether a key is this name. Most names differ in length or in their first letter.
pub(crate) fn is_named(key: &str, name: &str) -> bool
    ensures { result ≡ bytes_eq key.now name.now }
{
    let (key, name) = (key.as_bytes(), name.as_bytes());
    if key.len() != name.len() {
        return false;
    }
    for i in 0..key.len() {
        if key[i] != name[i] {
            return false;
        }
    }
    true
}
