//! The findings about an expression, computed at once from those about its parts.

ghost use Rattle.std.specs.Prelude.{◌≡◌, ◌≤◌, ◌-◌, ◌^◌, ◌++◌, ◌∷◌, [], ◌||◌, List, length, option_map, Some, IfOk};
ghost use Rattle.ksql_types.specs.declared.value.Value.TheVariants as value;
ghost use Rattle.ksql_scopes.specs.Functions as functions;
ghost use Rattle.ksql_type_sets.specs.Sets as types;
ghost use Rattle.ksql_scopes.specs.Senses.{sense, view};
ghost use Rattle.ksql_scopes.specs.Scope.{meanings, seen};
ghost use Rattle.ksql_typing.specs.declared.judged.Judged.{Judged as OneJudged};
ghost use Rattle.ksql_typing.specs.Judged as spec;
ghost use Rattle.ksql_typing.specs.Judged.{AreOf, AreOfWhens, JudgedWhen, after};
ghost use Rattle.ksql_expr.specs.Typing.{of};
ghost use Rattle.ksql_typing.specs.Standing.{digits_type, digits_value};
ghost use Rattle.ksql_typing.specs.Made as made;

use crate::form::{self, HeldTree};
use ksql_expr::{AggFun, Typed, TypedNode, TypedWhen};
use ksql_scopes::{Scope, Sense, aggregate_of, function_of, sense_of};
use ksql_type_sets::{Types, has_some_type, possible};
use ksql_types::{BinaryOp, Boxed, Chars, SqlType};
use std::alloc::{AllocError, Global};

/// The findings about an expression: its typed tree, if any, the types that it can have, and whether a name in it
/// stands for nothing or for several things.
#[derive(Drop)]
pub struct Judged {
    pub tree: HeldTree,
    pub types: Types,
    pub unknown: bool,
    pub ambiguous: bool,
}

/// The findings about several expressions: their trees, if each has one, and the rest.
#[derive(Drop)]
pub struct Parts {
    pub trees: Option<Vec<Typed>>,
    pub types: Vec<Types>,
    pub unknown: bool,
    pub ambiguous: bool,
}

/// The findings about several WHENs.
#[derive(Drop)]
pub struct WhenParts {
    pub trees: Option<Vec<TypedWhen>>,
    pub conds: Vec<Types>,
    pub results: Vec<Types>,
    pub unknown: bool,
    pub ambiguous: bool,
}

/// The findings about an optional part: `tree` is known if the part is left out or has a tree.
#[derive(Drop)]
pub struct Perhaps {
    pub tree: Option<HeldTree>,
    pub types: Option<Types>,
    pub unknown: bool,
    pub ambiguous: bool,
}

impl Perhaps {
    pub fn left_out() -> Perhaps
        ensures { result ≡ spec.left_out }
    {
        Perhaps {
            tree: Some(None),
            types: None,
            unknown: false,
            ambiguous: false,
        }
    }

    pub fn there(part: Judged) -> Perhaps
        ensures { result ≡ spec.there part }
    {
        let Judged {
            tree,
            types,
            unknown,
            ambiguous,
        } = part;
        let tree = match tree {
            Some(tree) => Some(Some(tree)),
            None => None,
        };
        Perhaps {
            tree,
            types: Some(types),
            unknown,
            ambiguous,
        }
    }
}

impl Parts {
    pub fn none(alloc: Global) -> Parts
        ensures { AreOf result [] }
    {
        Parts {
            trees: Some(Vec::new(alloc)),
            types: Vec::new(alloc),
            unknown: false,
            ambiguous: false,
        }
    }

    /// Appends one more expression.
    pub fn with(self, part: Judged) -> Result<Parts, AllocError>
        ensures { IfOk result (λ all. (xs : List OneJudged) → AreOf self xs → AreOf all (xs ++ part ∷ [])) }
    {
        let mut types = self.types;
        types.push(part.types)?;
        Ok(Parts {
            trees: with_tree(self.trees, part.tree)?,
            types,
            unknown: either(self.unknown, part.unknown),
            ambiguous: either(self.ambiguous, part.ambiguous),
        })
    }
}

impl WhenParts {
    pub fn none(alloc: Global) -> WhenParts
        ensures { AreOfWhens result [] }
    {
        WhenParts {
            trees: Some(Vec::new(alloc)),
            conds: Vec::new(alloc),
            results: Vec::new(alloc),
            unknown: false,
            ambiguous: false,
        }
    }

    /// Appends one more WHEN.
    pub fn with(self, cond: Judged, then: Judged) -> Result<WhenParts, AllocError>
        ensures { IfOk result (λ all. (ws : List JudgedWhen) → AreOfWhens self ws
            → AreOfWhens all (ws ++ spec.when cond then ∷ [])) }
    {
        let mut conds = self.conds;
        conds.push(cond.types)?;
        let mut results = self.results;
        results.push(then.types)?;
        Ok(WhenParts {
            trees: with_when_tree(self.trees, cond.tree, then.tree)?,
            conds,
            results,
            unknown: either(self.unknown, either(cond.unknown, then.unknown)),
            ambiguous: either(self.ambiguous, either(cond.ambiguous, then.ambiguous)),
        })
    }
}

fn with_tree(trees: Option<Vec<Typed>>, tree: HeldTree) -> Result<Option<Vec<Typed>>, AllocError>
    ensures { IfOk result (λ all. option_map (λ v. v.items) all
        ≡ after (option_map (λ v. v.items) trees) (λ xs. after tree (λ x. Some (xs ++ x ∷ [])))) }
{
    match (trees, tree) {
        (Some(mut trees), Some(tree)) => {
            trees.push(tree.into_inner())?;
            Ok(Some(trees))
        }
        _ => Ok(None),
    }
}

fn with_when_tree(
    trees: Option<Vec<TypedWhen>>,
    cond: HeldTree,
    result_tree: HeldTree,
) -> Result<Option<Vec<TypedWhen>>, AllocError>
    ensures { IfOk result (λ all. option_map (λ v. v.items) all
        ≡ after (option_map (λ v. v.items) trees) (λ ws. after cond (λ x. after result_tree (λ y. Some (ws ++ made.typed_when x y ∷ []))))) }
{
    match (trees, cond, result_tree) {
        (Some(mut trees), Some(cond), Some(result)) => {
            let cond = cond.into_inner();
            let result = result.into_inner();
            trees.push(TypedWhen { cond, result })?;
            Ok(Some(trees))
        }
        _ => Ok(None),
    }
}

fn sure(alloc: Global, tree: Typed, ty: SqlType) -> Result<Judged, AllocError>
    ensures { IfOk result (λ j. j ≡ spec.sure (Some tree) ty) }
{
    Ok(Judged {
        tree: Some(Boxed::of(alloc, tree)?),
        types: possible::where_found(true, Some(ty)),
        unknown: false,
        ambiguous: false,
    })
}

#[inline(never)]
pub fn digits(alloc: Global, number: u64) -> Result<Judged, AllocError>
    requires { number ≤ 9223372036854775807 }
    ensures { IfOk result (λ j. j ≡ spec.sure (made.literal_tree (digits_value number)) (digits_type number)) }
{
    let ty = if number <= 2147483647 {
        SqlType::Int
    } else {
        SqlType::Big
    };
    sure(alloc, form::digits(number), ty)
}

#[inline(never)]
pub fn text(alloc: Global, content: &Chars) -> Result<Judged, AllocError>
    ensures { IfOk result (λ j. j ≡ spec.sure (made.literal_tree (value.Txt content.now)) SqlType.Text) }
{
    sure(alloc, form::text(alloc, content)?, SqlType::Text)
}

#[inline(never)]
pub fn truth(alloc: Global, truth: bool) -> Result<Judged, AllocError>
    ensures { IfOk result (λ j. j ≡ spec.sure (made.literal_tree (value.Bool truth)) SqlType.Bool) }
{
    sure(alloc, form::truth(truth), SqlType::Bool)
}

#[inline(never)]
pub fn null(alloc: Global) -> Result<Judged, AllocError>
    ensures { IfOk result (λ j. j ≡ spec.null) }
{
    Ok(Judged {
        tree: Some(Boxed::of(alloc, form::null())?),
        types: possible::where_found(true, None),
        unknown: false,
        ambiguous: false,
    })
}

/// A name in a scope. If `windowed` is true, it can be a bound of windows.
#[inline(never)]
pub fn name(
    alloc: Global,
    scope: &Scope,
    windowed: bool,
    qualifier: &Option<Chars>,
    name: &Chars,
) -> Result<Judged, AllocError>
    requires { length scope.now.columns ≤ 2 ^ 32 - 2 }
    ensures { IfOk result (λ j. j ≡ spec.named (sense (meanings (seen windowed scope.now) qualifier.now name.now))) }
{
    named(alloc, sense_of(scope, windowed, qualifier, name))
}

fn named(alloc: Global, sense: Sense) -> Result<Judged, AllocError>
    ensures { IfOk result (λ j. j ≡ spec.named (view sense)) }
{
    match sense {
        Sense::Nothing => Ok(lost(true, false)),
        Sense::Several => Ok(lost(false, true)),
        Sense::One {
            column: Some(column),
            ty,
        } => column_of(alloc, TypedNode::Column(column), ty),
        Sense::One { column: None, ty } => column_of(alloc, TypedNode::RowTime, ty),
    }
}

fn column_of(alloc: Global, node: TypedNode, ty: SqlType) -> Result<Judged, AllocError>
    ensures { IfOk result (λ j. j ≡ spec.sure (Some (of (Some ty) node)) ty) }
{
    sure(alloc, Typed { ty: Some(ty), node }, ty)
}

fn lost(unknown: bool, ambiguous: bool) -> Judged
    ensures { result ≡ spec.lost unknown ambiguous }
{
    Judged {
        tree: None,
        types: possible::where_found(false, None),
        unknown,
        ambiguous,
    }
}

fn either(one: bool, other: bool) -> bool
    ensures { result ≡ (one || other) }
{
    one || other
}

fn sign_tree(alloc: Global, minus: bool, arg: HeldTree) -> Result<HeldTree, AllocError>
    ensures { IfOk result (λ tree. tree ≡ after arg (made.sign_tree minus)) }
{
    match arg {
        Some(arg) => form::sign(alloc, minus, arg),
        None => Ok(None),
    }
}

pub fn sign(alloc: Global, minus: bool, arg: Judged) -> Result<Judged, AllocError>
    ensures { IfOk result (λ j. j ≡ spec.sign minus arg) }
{
    Ok(Judged {
        tree: sign_tree(alloc, minus, arg.tree)?,
        types: possible::sign(arg.types),
        unknown: arg.unknown,
        ambiguous: arg.ambiguous,
    })
}

fn binary_tree(
    alloc: Global,
    op: BinaryOp,
    left: HeldTree,
    right: HeldTree,
) -> Result<HeldTree, AllocError>
    ensures { IfOk result (λ tree. tree ≡ after left (λ x. after right (made.binary_tree op x))) }
{
    match (left, right) {
        (Some(left), Some(right)) => form::binary(alloc, op, left, right),
        _ => Ok(None),
    }
}

pub fn binary(
    alloc: Global,
    op: BinaryOp,
    left: Judged,
    right: Judged,
) -> Result<Judged, AllocError>
    ensures { IfOk result (λ j. j ≡ spec.binary op left right) }
{
    Ok(Judged {
        tree: binary_tree(alloc, op, left.tree, right.tree)?,
        types: possible::binary(op, left.types, right.types),
        unknown: either(left.unknown, right.unknown),
        ambiguous: either(left.ambiguous, right.ambiguous),
    })
}

fn negation_tree(alloc: Global, arg: HeldTree) -> Result<HeldTree, AllocError>
    ensures { IfOk result (λ tree. tree ≡ after arg made.not_tree) }
{
    match arg {
        Some(arg) => form::not(alloc, arg),
        None => Ok(None),
    }
}

pub fn negation(alloc: Global, arg: Judged) -> Result<Judged, AllocError>
    ensures { IfOk result (λ j. j ≡ spec.negation arg) }
{
    Ok(Judged {
        tree: negation_tree(alloc, arg.tree)?,
        types: possible::fitting(SqlType::Bool, arg.types),
        unknown: arg.unknown,
        ambiguous: arg.ambiguous,
    })
}

fn is_null_tree(alloc: Global, negated: bool, arg: HeldTree) -> Result<HeldTree, AllocError>
    ensures { IfOk result (λ tree. tree ≡ after arg (made.is_null_tree negated)) }
{
    match arg {
        Some(arg) => form::is_null(alloc, negated, arg),
        None => Ok(None),
    }
}

pub fn is_null(alloc: Global, negated: bool, arg: Judged) -> Result<Judged, AllocError>
    ensures { IfOk result (λ j. j ≡ spec.is_null negated arg) }
{
    Ok(Judged {
        tree: is_null_tree(alloc, negated, arg.tree)?,
        types: possible::where_found(has_some_type(arg.types), Some(SqlType::Bool)),
        unknown: arg.unknown,
        ambiguous: arg.ambiguous,
    })
}

fn between_tree(
    alloc: Global,
    negated: bool,
    arg: HeldTree,
    low: HeldTree,
    high: HeldTree,
) -> Result<HeldTree, AllocError>
    ensures { IfOk result (λ tree. tree ≡ after arg (λ x. after low (λ y. after high (made.between_tree negated x y)))) }
{
    let Some(arg) = arg else {
        return Ok(None);
    };
    let Some(low) = low else {
        return Ok(None);
    };
    let Some(high) = high else {
        return Ok(None);
    };
    form::between(alloc, negated, arg, low, high)
}

pub fn between(
    alloc: Global,
    negated: bool,
    arg: Judged,
    low: Judged,
    high: Judged,
) -> Result<Judged, AllocError>
    ensures { IfOk result (λ j. j ≡ spec.between negated arg low high) }
{
    Ok(Judged {
        tree: between_tree(alloc, negated, arg.tree, low.tree, high.tree)?,
        types: possible::between(arg.types, low.types, high.types),
        unknown: either(either(arg.unknown, low.unknown), high.unknown),
        ambiguous: either(either(arg.ambiguous, low.ambiguous), high.ambiguous),
    })
}

fn one_of_tree(
    alloc: Global,
    negated: bool,
    arg: HeldTree,
    choices: Option<Vec<Typed>>,
) -> Result<HeldTree, AllocError>
    ensures { IfOk result (λ tree. tree ≡ after arg (λ x. after (option_map (λ v. v.items) choices) (made.one_of_tree negated x))) }
{
    match (arg, choices) {
        (Some(arg), Some(choices)) => form::one_of(alloc, negated, arg, choices),
        _ => Ok(None),
    }
}

pub fn one_of(
    alloc: Global,
    negated: bool,
    arg: Judged,
    choices: Parts,
) -> Result<Judged, AllocError>
    ensures { IfOk result (λ j. (xs : List OneJudged) → AreOf choices xs → j ≡ spec.one_of negated arg xs) }
{
    Ok(Judged {
        tree: one_of_tree(alloc, negated, arg.tree, choices.trees)?,
        types: possible::one_of(arg.types, &choices.types),
        unknown: either(arg.unknown, choices.unknown),
        ambiguous: either(arg.ambiguous, choices.ambiguous),
    })
}

fn like_tree(
    alloc: Global,
    negated: bool,
    arg: HeldTree,
    pattern: &Chars,
) -> Result<HeldTree, AllocError>
    ensures { IfOk result (λ tree. tree ≡ after arg (made.like_tree negated pattern.now)) }
{
    match arg {
        Some(arg) => form::like(alloc, negated, arg, pattern),
        None => Ok(None),
    }
}

pub fn like(
    alloc: Global,
    negated: bool,
    arg: Judged,
    pattern: &Chars,
) -> Result<Judged, AllocError>
    ensures { IfOk result (λ j. j ≡ spec.like negated pattern.now arg) }
{
    Ok(Judged {
        tree: like_tree(alloc, negated, arg.tree, pattern)?,
        types: possible::fitting(SqlType::Text, arg.types),
        unknown: arg.unknown,
        ambiguous: arg.ambiguous,
    })
}

fn cast_tree(alloc: Global, arg: HeldTree, to: SqlType) -> Result<HeldTree, AllocError>
    ensures { IfOk result (λ tree. tree ≡ after arg (made.cast_tree to)) }
{
    match arg {
        Some(arg) => form::cast(alloc, arg, to),
        None => Ok(None),
    }
}

pub fn cast(alloc: Global, arg: Judged, to: SqlType) -> Result<Judged, AllocError>
    ensures { IfOk result (λ j. j ≡ spec.cast to arg) }
{
    Ok(Judged {
        tree: cast_tree(alloc, arg.tree, to)?,
        types: possible::cast(to, arg.types),
        unknown: arg.unknown,
        ambiguous: arg.ambiguous,
    })
}

fn types_of_case(
    arg: Option<Types>,
    conds: &[Types],
    mut results: Vec<Types>,
    otherwise: Option<Types>,
) -> Result<Types, AllocError>
    ensures { IfOk result (λ found. found ≡ types.case_types arg conds.now (types.with_otherwise_types results.items otherwise)) }
{
    if let Some(found) = otherwise {
        results.push(found)?;
    }
    Ok(possible::case(arg, conds, &results))
}

fn case_tree(
    alloc: Global,
    arg: Option<HeldTree>,
    whens: Option<Vec<TypedWhen>>,
    otherwise: Option<HeldTree>,
) -> Result<HeldTree, AllocError>
    ensures { IfOk result (λ tree. tree ≡ after arg (λ x. after (option_map (λ v. v.items) whens) (λ ws. after otherwise (made.case_tree x ws)))) }
{
    let Some(arg) = arg else {
        return Ok(None);
    };
    let Some(whens) = whens else {
        return Ok(None);
    };
    let Some(otherwise) = otherwise else {
        return Ok(None);
    };
    form::case(alloc, arg, whens, otherwise)
}

pub fn case(
    alloc: Global,
    arg: Perhaps,
    whens: WhenParts,
    otherwise: Perhaps,
) -> Result<Judged, AllocError>
    ensures { IfOk result (λ j. (ws : List JudgedWhen) → AreOfWhens whens ws → j ≡ spec.case arg ws otherwise) }
{
    let WhenParts {
        trees,
        conds,
        results,
        unknown,
        ambiguous,
    } = whens;
    Ok(Judged {
        tree: case_tree(alloc, arg.tree, trees, otherwise.tree)?,
        types: types_of_case(arg.types, &conds, results, otherwise.types)?,
        unknown: either(either(arg.unknown, unknown), otherwise.unknown),
        ambiguous: either(either(arg.ambiguous, ambiguous), otherwise.ambiguous),
    })
}

fn agg_call_types(fun: AggFun, star: bool, args: &[Types]) -> Types
    ensures { result ≡ types.agg_call_types fun star args.now }
{
    match (fun, star, args) {
        (_, false, [arg]) => possible::aggregate(fun, *arg),
        (AggFun::Count, true, []) => possible::where_found(true, Some(SqlType::Big)),
        _ => possible::where_found(false, None),
    }
}

fn call_types(name: &str, star: bool, args: &[Types]) -> Types
    ensures { result ≡ types.call_types (functions.aggregate_of name.now) (functions.function_of name.now) star args.now }
{
    if let Some(fun) = aggregate_of(name) {
        return agg_call_types(fun, star, args);
    }
    match function_of(name) {
        Some(_) if star => possible::where_found(false, None),
        Some(fun) => possible::call(fun, args),
        None => possible::unknown(args),
    }
}

fn agg_call_tree(
    alloc: Global,
    fun: AggFun,
    star: bool,
    mut args: Vec<Typed>,
) -> Result<HeldTree, AllocError>
    ensures { IfOk result (λ tree. tree ≡ made.agg_call_tree fun star args.items) }
{
    if star {
        if fun == AggFun::Count && args.is_empty() {
            return Ok(Some(Boxed::of(alloc, form::count_all())?));
        }
        return Ok(None);
    }
    if args.len() != 1 {
        return Ok(None);
    }
    match args.pop() {
        Some(arg) => form::aggregate(alloc, fun, arg),
        None => Ok(None),
    }
}

fn call_tree(
    alloc: Global,
    name: &str,
    star: bool,
    args: Vec<Typed>,
) -> Result<HeldTree, AllocError>
    ensures { IfOk result (λ tree. tree ≡ made.named_tree (functions.aggregate_of name.now) (functions.function_of name.now) star args.items) }
{
    if let Some(fun) = aggregate_of(name) {
        return agg_call_tree(alloc, fun, star, args);
    }
    match function_of(name) {
        Some(fun) => {
            if star {
                return Ok(None);
            }
            form::call(alloc, fun, args)
        }
        None => Ok(None),
    }
}

fn tree_of_call(
    alloc: Global,
    name: &str,
    star: bool,
    args: Option<Vec<Typed>>,
) -> Result<HeldTree, AllocError>
    ensures { IfOk result (λ tree. tree ≡ after (option_map (λ v. v.items) args)
        (made.named_tree (functions.aggregate_of name.now) (functions.function_of name.now) star)) }
{
    match args {
        Some(args) => call_tree(alloc, name, star, args),
        None => Ok(None),
    }
}

pub fn call(alloc: Global, name: &str, star: bool, args: Parts) -> Result<Judged, AllocError>
    ensures { IfOk result (λ j. (xs : List OneJudged) → AreOf args xs → j ≡ spec.call name.now star xs) }
{
    Ok(Judged {
        tree: tree_of_call(alloc, name, star, args.trees)?,
        types: call_types(name, star, &args.types),
        unknown: args.unknown,
        ambiguous: args.ambiguous,
    })
}
