//! Reading the fields of a line in one pass over its tokens.

ghost use Rattle.std.specs.Prelude.{◌≡◌, ◌<◌, IfOk, None, OnSome, Some, length, option_and_then, option_map};
ghost use Rattle.std.specs.Bool.{MatchBool};
ghost use Rattle.json.specs.Json.{array, items, members, object, parse_map, value};
ghost use Rattle.serde_json.specs.Data.{no_members};
ghost use Rattle.serde_json.specs.Read.{converted, of_json, read};
ghost use Rattle.topic_files.specs.LineFields.{after_begin_object, fields_in, fields_of, if_read, members_within, seen};
ghost use Rattle.topic_files.specs.TopicLine.{data_of};
ghost use Rattle.topic_files.specs.Tree.{view};

use crate::line::LineFields;
use crate::number::number_of;
use crate::tree::Json;
use json::{Reader, Scratch, Token};
use std::alloc::{AllocError, Global};

/// How deep lists and objects may nest within a line's object.
const MEMBERS_DEPTH: usize = 126;

/// Reads the object on a line into `fields`, which are empty, and returns whether the line is one. It isn't if it isn't
/// UTF-8 or JSON, if it nests too deep, or if it has a number too large for a float.
pub(crate) fn read_line<'a>(
    alloc: Global,
    line: &'a [u8],
    scratch: &'a mut Scratch,
    fields: &mut LineFields<'a>,
) -> Result<bool, AllocError>
    requires { seen fields.old ≡ fields_in no_members }
    ensures { IfOk result (λ is. if_read is (seen fields.new) ≡ option_and_then fields_of (data_of line.now)) }
{
    match simdutf8::from_utf8_baseline(line) {
        Ok(text) => read_text(alloc, text, scratch, fields),
        Err(_) => Ok(false),
    }
}

/// Reads the object in a text into `fields`, which are empty, and returns whether the text is one.
fn read_text<'a>(
    alloc: Global,
    text: &'a str,
    scratch: &'a mut Scratch,
    fields: &mut LineFields<'a>,
) -> Result<bool, AllocError>
    requires { seen fields.old ≡ fields_in no_members }
    ensures { IfOk result (λ is. if_read is (seen fields.new) ≡ option_and_then fields_of (read text.now)) }
{
    let mut reader = Reader::new(text, scratch)?;
    if !take_begin_object(&mut reader) {
        return Ok(false);
    }
    let is_object = read_fields(alloc, &mut reader, fields)?;
    Ok(is_object && reader.next().is_none())
}

/// Takes the brace that opens an object, if it is next.
fn take_begin_object(reader: &mut Reader) -> bool
    ensures { MatchBool result (after_begin_object reader.old ≡ Some reader.new) (after_begin_object reader.old ≡ None) }
{
    matches!(reader.next(), Some(Token::BeginObject))
}

/// Reads the members of an object into `fields`, which are empty, and returns whether they end as an object.
fn read_fields<'a>(
    alloc: Global,
    reader: &mut Reader<'a>,
    fields: &mut LineFields<'a>,
) -> Result<bool, AllocError>
    requires { seen fields.old ≡ fields_in no_members }
    ensures { IfOk result (λ is. option_map (λ f. (f, reader.new)) (if_read is (seen fields.new))
        ≡ parse_map fields_in (members_within MEMBERS_DEPTH reader.old)) }
{
    'members: loop {
        match reader.next_key() {
            Ok(Some(name)) => {
                let Some(field) = read_value(alloc, reader, MEMBERS_DEPTH)? else {
                    return Ok(false);
                };
                fields.put(name, field);
            }
            Ok(None) => return Ok(true),
            Err(_) => return Ok(false),
        }
    }
}

/// The next value, or None if none comes next.
#[cycle(read)]
#[inline(always)]
fn read_value<'a>(
    alloc: Global,
    reader: &mut Reader<'a>,
    depth: usize,
) -> Result<Option<Json<'a>>, AllocError>
    ensures value { IfOk result (λ json. option_map (λ j. (view j, reader.new)) json
        ≡ converted of_json (value depth reader.old)) }
    ensures shorter { IfOk result (λ json. OnSome json (length reader.new < length reader.old)) }
{
    let Some(token) = reader.next() else {
        return Ok(None);
    };
    match token {
        Token::Null => Ok(Some(Json::Null)),
        Token::Bool(truth) => Ok(Some(Json::Bool(truth))),
        Token::String(text) => Ok(Some(Json::Text(text))),
        Token::Number(text) => match number_of(text) {
            Some(number) => Ok(Some(Json::Number(number))),
            None => Ok(None),
        },
        Token::BeginArray if depth > 0 => read_array(alloc, reader, depth - 1),
        Token::BeginObject if depth > 0 => read_object(alloc, reader, depth - 1),
        _ => Ok(None),
    }
}

/// The array whose items come next, or None if they don't end as one.
#[cycle(read)]
#[inline(never)]
fn read_array<'a>(
    alloc: Global,
    reader: &mut Reader<'a>,
    depth: usize,
) -> Result<Option<Json<'a>>, AllocError>
    ensures value { IfOk result (λ json. option_map (λ j. (view j, reader.new)) json
        ≡ converted of_json (parse_map array (items (value depth) (length reader.old) reader.old))) }
    ensures shorter { IfOk result (λ json. OnSome json (length reader.new < length reader.old)) }
{
    let mut found = Vec::new(alloc);
    'items: while !reader.take_end_array() {
        let Some(item) = read_value(alloc, reader, depth)? else {
            return Ok(None);
        };
        found.push(item)?;
    }
    Ok(Some(Json::Array(found)))
}

/// The object whose members come next, or None if they don't end as one.
#[cycle(read)]
#[inline(never)]
fn read_object<'a>(
    alloc: Global,
    reader: &mut Reader<'a>,
    depth: usize,
) -> Result<Option<Json<'a>>, AllocError>
    ensures value { IfOk result (λ json. option_map (λ j. (view j, reader.new)) json
        ≡ converted of_json (parse_map object (members (value depth) (length reader.old) reader.old))) }
    ensures shorter { IfOk result (λ json. OnSome json (length reader.new < length reader.old)) }
{
    let mut found = Vec::new(alloc);
    'members: loop {
        match reader.next_key() {
            Ok(Some(name)) => {
                let Some(field) = read_value(alloc, reader, depth)? else {
                    return Ok(None);
                };
                found.push((name, field))?;
            }
            Ok(None) => return Ok(Some(Json::Object(found))),
            Err(_) => return Ok(None),
        }
    }
}
