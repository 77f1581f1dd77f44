//! Sets of types: the types that a form can have, computed from those of its parts.

ghost use Rattle.std.specs.Prelude.{◌≡◌, [], ◌∷◌, Some};
ghost use Rattle.std.specs.List.{list_all};
ghost use Rattle.ksql_expr.specs.Rules.{typed as as_expression, sign_type, binary_type, fits, is_between_typed, are_comparable, can_cast, joint, can_be_when, fun_type, agg_type};
ghost use Rattle.ksql_type_sets.specs.Sets as spec;
ghost use Rattle.ksql_type_sets.specs.Sets.{some_in};

use ksql_expr::{
    AggFun, Fun, agg_type, are_comparable, binary_type, can_be_when, can_cast, fits, fun_type,
    is_between_typed, joint, same_type, sign_type,
};
use ksql_types::{BinaryOp, SqlType};

/// Some of the types that an expression can have; `null` stands for the type of plain NULL.
#[derive(Clone, Copy, Debug, PartialEq, Eq)]
pub struct Types {
    pub null: bool,
    pub int: bool,
    pub big: bool,
    pub text: bool,
    pub truth: bool,
}

/// All types.
pub(crate) const KINDS: [Option<SqlType>; 5] = [
    None,
    Some(SqlType::Int),
    Some(SqlType::Big),
    Some(SqlType::Text),
    Some(SqlType::Bool),
];

impl Types {
    /// Whether a type is in the set.
    pub fn has(self, ty: Option<SqlType>) -> bool
        ensures { result ≡ spec.has self ty }
    {
        match ty {
            None => self.null,
            Some(SqlType::Int) => self.int,
            Some(SqlType::Big) => self.big,
            Some(SqlType::Text) => self.text,
            Some(SqlType::Bool) => self.truth,
        }
    }
}

fn is_same(one: Option<SqlType>, other: Option<SqlType>) -> bool
    ensures { result ≡ spec.is_same one other }
{
    match (one, other) {
        (None, None) => true,
        (Some(a), Some(b)) => same_type(a, b),
        _ => false,
    }
}

fn is_found(found: Option<Option<SqlType>>, ty: Option<SqlType>) -> bool
    ensures { result ≡ spec.is_found found ty }
{
    match found {
        Some(found) => is_same(found, ty),
        None => false,
    }
}

fn is_one(found: Option<SqlType>, ty: Option<SqlType>) -> bool
    ensures { result ≡ spec.is_found (as_expression found) ty }
{
    match found {
        Some(found) => is_same(Some(found), ty),
        None => false,
    }
}

/// The set of this one type if a condition holds, else the empty set.
pub fn where_found(holds: bool, found: Option<SqlType>) -> Types
    ensures { result ≡ spec.where_found holds found }
{
    Types {
        null: holds && is_same(found, None),
        int: holds && is_same(found, Some(SqlType::Int)),
        big: holds && is_same(found, Some(SqlType::Big)),
        text: holds && is_same(found, Some(SqlType::Text)),
        truth: holds && is_same(found, Some(SqlType::Bool)),
    }
}

#[tactic(auto, unfolding(crate::specs::Sets::some_in))]
fn sign_can(arg: Types, ty: Option<SqlType>) -> bool
    ensures { result ≡ some_in arg (λ x. spec.is_found (as_expression (sign_type x)) ty) }
{
    KINDS
        .iter()
        .any(|x| arg.has(*x) && is_one(sign_type(*x), ty))
}

/// The types of a signed number.
pub fn sign(arg: Types) -> Types
    ensures { result ≡ spec.sign_types arg }
{
    Types {
        null: sign_can(arg, None),
        int: sign_can(arg, Some(SqlType::Int)),
        big: sign_can(arg, Some(SqlType::Big)),
        text: sign_can(arg, Some(SqlType::Text)),
        truth: sign_can(arg, Some(SqlType::Bool)),
    }
}

#[tactic(auto, unfolding(crate::specs::Sets::some_in))]
fn binary_can_with(op: BinaryOp, x: Option<SqlType>, right: Types, ty: Option<SqlType>) -> bool
    ensures { result ≡ some_in right (λ y. spec.is_found (as_expression (binary_type op x y)) ty) }
{
    KINDS
        .iter()
        .any(|y| right.has(*y) && is_one(binary_type(op, x, *y), ty))
}

#[tactic(auto, unfolding(crate::specs::Sets::some_in))]
fn binary_can(op: BinaryOp, left: Types, right: Types, ty: Option<SqlType>) -> bool
    ensures { result ≡ some_in left (λ x. some_in right (λ y. spec.is_found (as_expression (binary_type op x y)) ty)) }
{
    KINDS
        .iter()
        .any(|x| left.has(*x) && binary_can_with(op, *x, right, ty))
}

/// The types of a binary operator's result.
pub fn binary(op: BinaryOp, left: Types, right: Types) -> Types
    ensures { result ≡ spec.binary_types op left right }
{
    Types {
        null: binary_can(op, left, right, None),
        int: binary_can(op, left, right, Some(SqlType::Int)),
        big: binary_can(op, left, right, Some(SqlType::Big)),
        text: binary_can(op, left, right, Some(SqlType::Text)),
        truth: binary_can(op, left, right, Some(SqlType::Bool)),
    }
}

#[tactic(auto, unfolding(crate::specs::Sets::some_in))]
fn can_fit(wanted: SqlType, arg: Types) -> bool
    ensures { result ≡ some_in arg (fits wanted) }
{
    KINDS.iter().any(|x| arg.has(*x) && fits(wanted, *x))
}

/// The type of a truth value, if the argument fits.
pub fn fitting(wanted: SqlType, arg: Types) -> Types
    ensures { result ≡ spec.fitting wanted arg }
{
    where_found(can_fit(wanted, arg), Some(SqlType::Bool))
}

/// Whether an expression has some type.
#[tactic(auto, unfolding(crate::specs::Sets::some_in))]
pub fn has_some_type(types: Types) -> bool
    ensures { result ≡ spec.is_some_in types }
{
    KINDS.iter().any(|x| types.has(*x))
}

#[tactic(auto, unfolding(crate::specs::Sets::some_in))]
fn can_end_between(x: Option<SqlType>, y: Option<SqlType>, high: Types) -> bool
    ensures { result ≡ some_in high (λ z. is_between_typed x y z) }
{
    KINDS
        .iter()
        .any(|z| high.has(*z) && is_between_typed(x, y, *z))
}

#[tactic(auto, unfolding(crate::specs::Sets::some_in))]
fn can_be_between(x: Option<SqlType>, low: Types, high: Types) -> bool
    ensures { result ≡ some_in low (λ y. some_in high (λ z. is_between_typed x y z)) }
{
    KINDS
        .iter()
        .any(|y| low.has(*y) && can_end_between(x, *y, high))
}

#[tactic(auto, unfolding(crate::specs::Sets::some_in))]
fn can_lie_between(arg: Types, low: Types, high: Types) -> bool
    ensures { result ≡ some_in arg (λ x. some_in low (λ y. some_in high (λ z. is_between_typed x y z))) }
{
    KINDS
        .iter()
        .any(|x| arg.has(*x) && can_be_between(*x, low, high))
}

/// The type of a truth value, if some types of the operands fit BETWEEN.
pub fn between(arg: Types, low: Types, high: Types) -> Types
    ensures { result ≡ spec.between_types arg low high }
{
    where_found(can_lie_between(arg, low, high), Some(SqlType::Bool))
}

#[tactic(auto, unfolding(crate::specs::Sets::some_in))]
fn can_equal(x: Option<SqlType>, choice: Types) -> bool
    ensures { result ≡ some_in choice (are_comparable x) }
{
    KINDS
        .iter()
        .any(|y| choice.has(*y) && are_comparable(x, *y))
}

fn can_equal_each(x: Option<SqlType>, choices: &[Types]) -> bool
    ensures { result ≡ spec.each_in (are_comparable x) choices.now }
{
    choices.iter().all(|choice| can_equal(x, *choice))
}

#[tactic(auto, unfolding(crate::specs::Sets::some_in))]
fn can_be_one_of(arg: Types, choices: &[Types]) -> bool
    ensures { result ≡ some_in arg (λ x. spec.each_in (are_comparable x) choices.now) }
{
    KINDS
        .iter()
        .any(|x| arg.has(*x) && can_equal_each(*x, choices))
}

/// The type of a truth value, if some types of the operands fit IN.
pub fn one_of(arg: Types, choices: &[Types]) -> Types
    ensures { result ≡ spec.one_of_types arg choices.now }
{
    where_found(can_be_one_of(arg, choices), Some(SqlType::Bool))
}

#[tactic(auto, unfolding(crate::specs::Sets::some_in))]
fn can_be_cast(arg: Types, to: SqlType) -> bool
    ensures { result ≡ some_in arg (λ x. can_cast x to) }
{
    KINDS.iter().any(|x| arg.has(*x) && can_cast(*x, to))
}

/// The type `to`, if some type of the argument can be cast to it.
pub fn cast(to: SqlType, arg: Types) -> Types
    ensures { result ≡ spec.cast_types to arg }
{
    where_found(can_be_cast(arg, to), Some(to))
}

#[tactic(auto, unfolding(crate::specs::Sets::some_in))]
fn joint_can_with(x: Option<SqlType>, other: Types, ty: Option<SqlType>) -> bool
    ensures { result ≡ some_in other (λ y. spec.is_found (joint x y) ty) }
{
    KINDS
        .iter()
        .any(|y| other.has(*y) && is_found(joint(x, *y), ty))
}

#[tactic(auto, unfolding(crate::specs::Sets::some_in))]
fn joint_can(one: Types, other: Types, ty: Option<SqlType>) -> bool
    ensures { result ≡ some_in one (λ x. some_in other (λ y. spec.is_found (joint x y) ty)) }
{
    KINDS
        .iter()
        .any(|x| one.has(*x) && joint_can_with(*x, other, ty))
}

fn joint_two(one: Types, other: Types) -> Types
    ensures { result ≡ spec.joint_two one other }
{
    Types {
        null: joint_can(one, other, None),
        int: joint_can(one, other, Some(SqlType::Int)),
        big: joint_can(one, other, Some(SqlType::Big)),
        text: joint_can(one, other, Some(SqlType::Text)),
        truth: joint_can(one, other, Some(SqlType::Bool)),
    }
}

fn joint_types(results: &[Types]) -> Types
    ensures { result ≡ spec.joint_types results.now }
{
    match results {
        [] => where_found(true, None),
        [first, rest @ ..] => joint_two(*first, joint_types(rest)),
    }
}

#[tactic(auto, unfolding(crate::specs::Sets::some_in))]
fn can_be_one_when(operand: Option<Option<SqlType>>, cond: Types) -> bool
    ensures { result ≡ some_in cond (can_be_when operand) }
{
    KINDS
        .iter()
        .any(|x| cond.has(*x) && can_be_when(operand, *x))
}

fn can_be_each_when(operand: Option<Option<SqlType>>, conds: &[Types]) -> bool
    ensures { result ≡ spec.each_in (can_be_when operand) conds.now }
{
    conds.iter().all(|cond| can_be_one_when(operand, *cond))
}

#[tactic(auto, unfolding(crate::specs::Sets::some_in))]
fn can_equal_each_when(operand: Types, conds: &[Types]) -> bool
    ensures { result ≡ some_in operand (λ x. spec.each_in (can_be_when (Some x)) conds.now) }
{
    KINDS
        .iter()
        .any(|x| operand.has(*x) && can_be_each_when(Some(*x), conds))
}

fn can_be_whens(operand: Option<Types>, conds: &[Types]) -> bool
    ensures { result ≡ spec.can_be_whens operand conds.now }
{
    match operand {
        None => can_be_each_when(None, conds),
        Some(operand) => can_equal_each_when(operand, conds),
    }
}

/// The types of a CASE: those of its results, if its conditions fit.
pub fn case(operand: Option<Types>, conds: &[Types], results: &[Types]) -> Types
    ensures { result ≡ spec.case_types operand conds.now results.now }
{
    let holds = can_be_whens(operand, conds);
    let joint = joint_types(results);
    Types {
        null: holds && joint.null,
        int: holds && joint.int,
        big: holds && joint.big,
        text: holds && joint.text,
        truth: holds && joint.truth,
    }
}

#[tactic(auto, unfolding(crate::specs::Sets::some_in))]
fn one_can(fun: Fun, a: Types, ty: Option<SqlType>) -> bool
    ensures { result ≡ some_in a (λ x. spec.is_found (fun_type fun (x ∷ [])) ty) }
{
    KINDS
        .iter()
        .any(|x| a.has(*x) && is_found(fun_type(fun, &[*x]), ty))
}

#[tactic(auto, unfolding(crate::specs::Sets::some_in))]
fn two_can_with(fun: Fun, x: Option<SqlType>, b: Types, ty: Option<SqlType>) -> bool
    ensures { result ≡ some_in b (λ y. spec.is_found (fun_type fun (x ∷ y ∷ [])) ty) }
{
    KINDS
        .iter()
        .any(|y| b.has(*y) && is_found(fun_type(fun, &[x, *y]), ty))
}

#[tactic(auto, unfolding(crate::specs::Sets::some_in))]
fn two_can(fun: Fun, a: Types, b: Types, ty: Option<SqlType>) -> bool
    ensures { result ≡ some_in a (λ x. some_in b (λ y. spec.is_found (fun_type fun (x ∷ y ∷ [])) ty)) }
{
    KINDS
        .iter()
        .any(|x| a.has(*x) && two_can_with(fun, *x, b, ty))
}

#[tactic(auto, unfolding(crate::specs::Sets::some_in))]
fn three_can_with_two(
    fun: Fun,
    x: Option<SqlType>,
    y: Option<SqlType>,
    c: Types,
    ty: Option<SqlType>,
) -> bool
    ensures { result ≡ some_in c (λ z. spec.is_found (fun_type fun (x ∷ y ∷ z ∷ [])) ty) }
{
    KINDS
        .iter()
        .any(|z| c.has(*z) && is_found(fun_type(fun, &[x, y, *z]), ty))
}

#[tactic(auto, unfolding(crate::specs::Sets::some_in))]
fn three_can_with(fun: Fun, x: Option<SqlType>, b: Types, c: Types, ty: Option<SqlType>) -> bool
    ensures { result ≡ some_in b (λ y. some_in c (λ z. spec.is_found (fun_type fun (x ∷ y ∷ z ∷ [])) ty)) }
{
    KINDS
        .iter()
        .any(|y| b.has(*y) && three_can_with_two(fun, x, *y, c, ty))
}

#[tactic(auto, unfolding(crate::specs::Sets::some_in))]
fn three_can(fun: Fun, a: Types, b: Types, c: Types, ty: Option<SqlType>) -> bool
    ensures { result ≡ some_in a (λ x. some_in b (λ y. some_in c (λ z. spec.is_found (fun_type fun (x ∷ y ∷ z ∷ [])) ty))) }
{
    KINDS
        .iter()
        .any(|x| a.has(*x) && three_can_with(fun, *x, b, c, ty))
}

fn fixed_can(fun: Fun, args: &[Types], ty: Option<SqlType>) -> bool
    ensures { result ≡ spec.fixed_can fun args.now ty }
{
    match args {
        [a] => one_can(fun, *a, ty),
        [a, b] => two_can(fun, *a, *b, ty),
        [a, b, c] => three_can(fun, *a, *b, *c, ty),
        _ => false,
    }
}

fn fixed(fun: Fun, args: &[Types]) -> Types
    ensures { result ≡ spec.fixed_types fun args.now }
{
    Types {
        null: fixed_can(fun, args, None),
        int: fixed_can(fun, args, Some(SqlType::Int)),
        big: fixed_can(fun, args, Some(SqlType::Big)),
        text: fixed_can(fun, args, Some(SqlType::Text)),
        truth: fixed_can(fun, args, Some(SqlType::Bool)),
    }
}

fn can_fit_each(wanted: SqlType, args: &[Types]) -> bool
    ensures { result ≡ spec.each_in (fits wanted) args.now }
{
    args.iter().all(|arg| can_fit(wanted, *arg))
}

/// The types of a scalar function's result.
pub fn call(fun: Fun, args: &[Types]) -> Types
    ensures { result ≡ spec.fun_types fun args.now }
{
    match fun {
        Fun::Concat => {
            let holds = 2 <= args.len() && can_fit_each(SqlType::Text, args);
            where_found(holds, Some(SqlType::Text))
        }
        Fun::Coalesce => match args {
            [] => where_found(false, None),
            _ => joint_types(args),
        },
        _ => fixed(fun, args),
    }
}

#[tactic(auto, unfolding(crate::specs::Sets::some_in))]
fn aggregate_can(fun: AggFun, arg: Types, ty: Option<SqlType>) -> bool
    ensures { result ≡ some_in arg (λ x. spec.is_found (agg_type fun (Some x)) ty) }
{
    KINDS
        .iter()
        .any(|x| arg.has(*x) && is_found(agg_type(fun, Some(*x)), ty))
}

/// The types of an aggregate function's result.
pub fn aggregate(fun: AggFun, arg: Types) -> Types
    ensures { result ≡ spec.agg_types fun arg }
{
    Types {
        null: aggregate_can(fun, arg, None),
        int: aggregate_can(fun, arg, Some(SqlType::Int)),
        big: aggregate_can(fun, arg, Some(SqlType::Big)),
        text: aggregate_can(fun, arg, Some(SqlType::Text)),
        truth: aggregate_can(fun, arg, Some(SqlType::Bool)),
    }
}

/// The types of an unknown function's result: every type, plain NULL included, if each argument has a type.
pub fn unknown(args: &[Types]) -> Types
    ensures { result ≡ spec.unknown_types (list_all spec.is_some_in args.now) }
{
    let holds = have_types(args);
    Types {
        null: holds,
        int: holds,
        big: holds,
        text: holds,
        truth: holds,
    }
}

fn have_types(args: &[Types]) -> bool
    ensures { result ≡ list_all spec.is_some_in args.now }
{
    args.iter().all(|arg| has_some_type(*arg))
}
