ghost use Rattle.std.specs.Prelude.{◌≡◌, ◌++◌, ◌∷◌, [], ◌<◌, ◌≤◌, List, ℕ, All, IfErr, IfOk, OnOk, false, length};
ghost use Rattle.ksql_types.specs.Catalog.{is_taken};
ghost use Rattle.ksql_types.specs.declared.code.Code.{Code as OneCode};
ghost use Rattle.ksql_program.specs.Program.{relation_of};
ghost use Rattle.ksql_program.specs.declared.program.Program.{Program as OneProgram};
ghost use Rattle.ksql_program.specs.Sound.{IsSound};
ghost use Rattle.ksql_rules.specs.Limits.{IsRelationWithin, IsWithinLimits};
ghost use Rattle.ksql_rules.specs.Lowest.{IsAccepted};
ghost use Rattle.ksql_analyse.specs.Few.{HasFewCalls};
ghost use Rattle.ksql_analyse.specs.Judgement.{Answers, AreParsed, AreRefused, IsItemOf, IsJudgement, IsProgramOf};
ghost use Rattle.ksql_analyse.specs.Plain.{HasPlainNames};
ghost use Rattle.ksql_analyse.specs.Next.{IsFaultOf};

use crate::fault::AnalyseFault;
use crate::item::item_of;
use ksql_program::{Item, Program, relation_of};
use ksql_rules::{Verdict, judge_statement};
use ksql_types::{AddRefusal, Boxed, Catalog, CopyOf, Items, Relation};
use statement_trees::Statement;
use std::alloc::{AllocError, Global};

/// The program of the statements, or the first refused statement with its lowest code. The statements are trees of
/// tokens that the grammar accepts. `OutOfMemory` says nothing about them.
pub fn analyse(alloc: Global, statements: &[Statement]) -> Result<Program, AnalyseFault>
    requires { AreParsed statements.now }
    ensures found { IsJudgement statements.now result }
    ensures only { (program : OneProgram) → IsProgramOf statements.now program.items → Answers result (Ok program) }
    ensures refused { (number : ℕ) (code : OneCode) → AreRefused statements.now number code
        → Answers result (Err (AnalyseFault.Refused number code)) }
    ensures sound { IfOk result (λ program. IsSound program.items) }
{
    let mut catalog = Catalog::new(alloc);
    let mut items = Vec::new(alloc);
    for (index, statement) in statements.iter().enumerate() {
        let item = judged(alloc, &catalog, index as u32 + 1, statement)?;
        accept(alloc, &mut catalog, &mut items, item)?;
    }
    Ok(Program {
        items: Items::of(items),
    })
}

/// The item of statement `number`, or its lowest code.
fn judged(
    alloc: Global,
    catalog: &Catalog,
    number: u32,
    statement: &Statement,
) -> Result<Item, AnalyseFault>
    requires limits { IsWithinLimits statement.now }
    requires relations { All IsRelationWithin catalog.now }
    requires plain { All HasPlainNames catalog.now }
    requires few { HasFewCalls statement.now.body }
    ensures accepted { OnOk result (IsAccepted catalog.now statement.now) }
    ensures found { IfOk result (λ item. IsItemOf catalog.now statement.now item) }
    ensures fault { IfErr result (λ fault. IsFaultOf catalog.now statement.now number fault) }
{
    match judge_statement(alloc, catalog, statement)? {
        Verdict::Refused(code) => Err(AnalyseFault::Refused {
            statement: number,
            code,
        }),
        Verdict::Accepted(body) => Ok(item_of(alloc, catalog, statement, body.get())?),
    }
}

/// Appends an item, and adds its relation to the catalog.
fn accept(
    alloc: Global,
    catalog: &mut Catalog,
    items: &mut Vec<Item>,
    item: Item,
) -> Result<(), AllocError>
    requires numbered { (relation_of item).number ≡ length catalog.old }
    requires free { is_taken (relation_of item).name (relation_of item).topic catalog.old ≡ false }
    ensures catalog { OnOk result (catalog.new ≡ catalog.old ++ relation_of item ∷ []) }
    ensures items { OnOk result (items.new.items ≡ items.old.items ++ item ∷ []) }
{
    let item = Boxed::of(alloc, item)?;
    add(alloc, catalog, relation_of(item.get()).copy(alloc)?)?;
    items.push(item.into_inner())?;
    Ok(())
}

/// Adds a relation, whose name and topic nothing else in the catalog has.
fn add(alloc: Global, catalog: &mut Catalog, relation: Relation) -> Result<(), AllocError>
    requires numbered { relation.number ≡ length catalog.old }
    requires free { is_taken relation.name relation.topic catalog.old ≡ false }
    ensures { OnOk result (catalog.new ≡ catalog.old ++ relation ∷ []) }
{
    match catalog.add(alloc, relation) {
        Ok(()) => Ok(()),
        Err(AddRefusal::NameTaken) => unreachable!(),
        Err(AddRefusal::OutOfMemory) => Err(AllocError),
    }
}
