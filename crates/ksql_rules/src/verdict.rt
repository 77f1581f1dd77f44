//! The verdict on a statement: the lowest code of the rules that it breaks, or its body.

ghost use Rattle.std.specs.Prelude.{◌≡◌, None, All, IfOk, IfSome};
ghost use Rattle.ksql_rules.specs.Bodies.{IsBodyOf};
ghost use Rattle.ksql_rules.specs.Limits.{IsRelationWithin, IsWithinLimits};
ghost use Rattle.ksql_rules.specs.Lowest.{BreaksFirst, BreaksNone};
ghost use Rattle.ksql_rules.specs.Verdicts.{IsVerdict};

use crate::broken::{Body, body_of, breaks};
use ksql_types::{Boxed, Catalog, Code};
use statement_trees::Statement;
use std::alloc::{AllocError, Global};

/// The codes of the judgement, lowest first.
const CODES: [Code; 15] = [
    Code::TooLarge,
    Code::UnknownRelation,
    Code::NameTaken,
    Code::UnknownColumn,
    Code::AmbiguousColumn,
    Code::DuplicateColumn,
    Code::TypeMismatch,
    Code::WrongKind,
    Code::KeyMissing,
    Code::JoinNotOnKey,
    Code::PartitionMismatch,
    Code::AggregateMisuse,
    Code::BadWindow,
    Code::Unsupported,
    Code::BadProperty,
];

/// The first of these codes whose rule a statement breaks.
fn first_broken(
    alloc: Global,
    catalog: &Catalog,
    statement: &Statement,
    body: &Body,
    codes: &[Code],
) -> Result<Option<Code>, AllocError>
    requires { IsBodyOf body.now catalog.now statement.now.body }
    ensures none { IfOk result (λ found. found ≡ None → BreaksNone catalog.now statement.now codes.now) }
    ensures first { IfOk result (λ found. IfSome found (λ code. BreaksFirst catalog.now statement.now codes.now code)) }
{
    let [code, others @ ..] = codes else {
        return Ok(None);
    };
    if breaks(alloc, catalog, statement, body, *code)? {
        return Ok(Some(*code));
    }
    first_broken(alloc, catalog, statement, body, others)
}

/// The verdict on a statement: its lowest code, or its body if it breaks no rule.
#[derive(Drop)]
pub enum Verdict<'a> {
    Refused(Code),
    Accepted(Boxed<Body<'a>>),
}

/// The verdict on a statement, given the relations of the earlier statements.
pub fn judge_statement<'a>(
    alloc: Global,
    catalog: &Catalog,
    statement: &'a Statement,
) -> Result<Verdict<'a>, AllocError>
    requires limits { IsWithinLimits statement.now }
    requires relations { All IsRelationWithin catalog.now }
    ensures { IfOk result (λ found. IsVerdict catalog.now statement.now found) }
{
    let body = Boxed::of(alloc, body_of(alloc, catalog, &statement.body)?)?;
    match first_broken(alloc, catalog, statement, body.get(), &CODES)? {
        Some(code) => Ok(Verdict::Refused(code)),
        None => Ok(Verdict::Accepted(body)),
    }
}
