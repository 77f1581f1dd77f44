//! The FROM of a query in its program.

ghost use Rattle.std.specs.Prelude.{◌≡◌, ◌∷◌, [], IfOk};
ghost use Rattle.ksql_rules.specs.Findings.{AreFindings};
ghost use Rattle.ksql_analyse.specs.Judgement as spec;
ghost use Rattle.ksql_analyse.specs.Readable.{IsReadable};

use crate::trees::tree_of;
use ksql_clauses::Known;
use ksql_program::{From, JoinKind};
use ksql_rules::Findings;
use statement_trees::JoinWord;
use std::alloc::{AllocError, Global};

/// What a query reads: one relation, or a join of two.
pub(crate) fn from_of(alloc: Global, findings: &Findings) -> Result<From, AllocError>
    requires found { AreFindings findings.now }
    requires readable { IsReadable findings.now.select.now findings.now.known.items }
    ensures { IfOk result (λ from. spec.IsFrom findings.now.select.now findings.now.known.items from) }
{
    match findings.known.as_slice() {
        [one] => Ok(From::One {
            relation: one.relation.number,
        }),
        [left, right] => joined(alloc, findings, left, right),
        _ => unreachable!(),
    }
}

/// A join of two relations.
fn joined(
    alloc: Global,
    findings: &Findings,
    left: &Known,
    right: &Known,
) -> Result<From, AllocError>
    requires found { AreFindings findings.now }
    requires two { findings.now.known.items ≡ left.now ∷ right.now ∷ [] }
    requires readable { IsReadable findings.now.select.now findings.now.known.items }
    ensures { IfOk result (λ from. spec.IsFrom findings.now.select.now findings.now.known.items from) }
{
    let Some(join) = &findings.select.join else {
        unreachable!()
    };
    let Some((side, _)) = findings.key else {
        unreachable!()
    };
    Ok(From::Join {
        kind: join_kind(join.kind),
        left: left.relation.number,
        right: right.relation.number,
        on: tree_of(alloc, &findings.on_scope, side)?,
    })
}

fn join_kind(word: JoinWord) -> JoinKind
    ensures { result ≡ spec.join_kind word }
{
    match word {
        JoinWord::Inner => JoinKind::Inner,
        JoinWord::Left => JoinKind::Left,
        JoinWord::Full => JoinKind::Full,
    }
}
