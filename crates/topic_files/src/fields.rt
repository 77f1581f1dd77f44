//! The values of a line's fields, by the types of their columns.

ghost use Rattle.std.specs.Prelude.{◌≡◌, IfOk, IfSome, option_and_then, option_map, false};
ghost use Rattle.serde_json.specs.Data.{object};
ghost use Rattle.ksql_types.specs.Key.{is_null};
ghost use Rattle.topic_files.specs.Cells.{cell, cells, column_field, int_of, least_like, lesser, named_field, text_form, text_value, typed, value_of_type};
ghost use Rattle.topic_files.specs.Tree.{members_view, named, view};

use crate::tree::{Json, Member, member_of};
use ksql_types::{Chars, Column, LONGEST_VALUE, SqlType, Value};
use std::alloc::{AllocError, Global};

/// The values of these columns in an object with these members, in order, or None if a field isn't of its column's
/// type.
pub(crate) fn cells(
    alloc: Global,
    columns: &[Column],
    members: &[Member],
) -> Result<Option<Vec<Value>>, AllocError>
    ensures { IfOk result (λ row. option_map (λ values. values.items) row
        ≡ cells columns.now (object (members_view members.now))) }
{
    let mut values = Vec::with_capacity(alloc, columns.len())?;
    for column in columns {
        match cell(alloc, column, members)? {
            Some(value) => values.push(value)?,
            None => return Ok(None),
        }
    }
    Ok(Some(values))
}

/// The value of a column in an object, or None if its field isn't of its type.
fn cell(alloc: Global, column: &Column, members: &[Member]) -> Result<Option<Value>, AllocError>
    ensures { IfOk result (λ value. value ≡ cell column.now (object (members_view members.now))) }
{
    match column_field(members, column.name.items()) {
        Some(field) => value_of_type(alloc, column.ty, field),
        None => Ok(Some(Value::Null)),
    }
}

/// The field of the column with this name, or None if it is missing or null.
fn column_field<'t, 'a>(members: &'t [Member<'a>], name: &str) -> Option<&'t Json<'a>>
    ensures { option_map (λ field. view field.now) result ≡ column_field name.now (object (members_view members.now)) }
{
    named_field(members, name).filter(|field| !field.is_null())
}

/// The field with exactly this name, or else the one with the least name among those that differ only in case.
fn named_field<'t, 'a>(members: &'t [Member<'a>], name: &str) -> Option<&'t Json<'a>>
    ensures { option_map (λ field. view field.now) result ≡ named_field name.now (object (members_view members.now)) }
{
    match member_of(members, name) {
        Some(field) => Some(field),
        None => least_like(members, name),
    }
}

/// Among the members whose names differ from this one only in case, the value of the one with the least name.
fn least_like<'t, 'a>(members: &'t [Member<'a>], name: &str) -> Option<&'t Json<'a>>
    ensures { option_map (λ field. view field.now) result
        ≡ option_map (λ found. found.1) (least_like name.now (members_view members.now)) }
{
    let mut least = None;
    for member in members {
        if member.0.eq_ignore_ascii_case(name) {
            least = Some(lesser(member, least));
        }
    }
    least.map(|member| &member.1)
}

/// The member with the lesser name: `one` if there is no other or both names are the same.
fn lesser<'t, 'a>(one: &'t Member<'a>, other: Option<&'t Member<'a>>) -> &'t Member<'a>
    ensures { named result.now ≡ lesser (named one.now) (option_map (λ member. named member.now) other.entry) }
{
    match other {
        Some(other) if other.0 < one.0 => other,
        _ => one,
    }
}

/// The value of this type that a field stands for in a row, or None if it stands for none.
fn value_of_type(alloc: Global, ty: SqlType, field: &Json) -> Result<Option<Value>, AllocError>
    ensures { IfOk result (λ value. value ≡ value_of_type ty (view field.now)) }
{
    match ty {
        SqlType::Text => text_form(alloc, field),
        _ => typed(alloc, ty, field),
    }
}

/// The value of a field, or None if it isn't of this type.
pub(crate) fn typed(alloc: Global, ty: SqlType, field: &Json) -> Result<Option<Value>, AllocError>
    ensures value { IfOk result (λ value. value ≡ typed ty (view field.now)) }
    ensures present { IfOk result (λ value. IfSome value (λ v. is_null v ≡ false)) }
{
    match ty {
        SqlType::Int => Ok(int_of(field).map(Value::Int)),
        SqlType::Big => Ok(field.as_i64().map(Value::Big)),
        SqlType::Bool => Ok(field.as_bool().map(Value::Bool)),
        SqlType::Text => match field.as_str() {
            Some(text) => text_value(alloc, text),
            None => Ok(None),
        },
    }
}

/// The 32-bit whole number of a field.
fn int_of(field: &Json) -> Option<i32>
    ensures { result ≡ int_of (view field.now) }
{
    i32::try_from(field.as_i64()?).ok()
}

/// The text of a field that is a text, a whole number or a truth value, as a value.
fn text_form(alloc: Global, field: &Json) -> Result<Option<Value>, AllocError>
    ensures { IfOk result (λ value. value ≡ option_and_then text_value (text_form (view field.now))) }
{
    if let Some(text) = field.as_str() {
        return text_value(alloc, text);
    }
    if let Some(number) = field.as_i64() {
        let text = format!(in alloc; "{number}")?;
        return text_value(alloc, text.as_str());
    }
    match field.as_bool() {
        Some(truth) => text_value(alloc, if truth { "true" } else { "false" }),
        None => Ok(None),
    }
}

/// A text as a value, or None if it has more than 65,536 bytes.
#[tactic(auto, unfolding(ksql_types::specs::Text::longest_text))]
pub(crate) fn text_value(alloc: Global, text: &str) -> Result<Option<Value>, AllocError>
    ensures value { IfOk result (λ value. value ≡ text_value text.now) }
    ensures present { IfOk result (λ value. IfSome value (λ v. is_null v ≡ false)) }
{
    if text.len() > LONGEST_VALUE {
        return Ok(None);
    }
    let text = Chars::copy_of(alloc, text)?;
    Ok(Some(Value::Txt(text)))
}
