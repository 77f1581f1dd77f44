//! Functions by name.

ghost use Rattle.std.specs.Prelude.{◌≡◌};
ghost use Rattle.ksql_scopes.specs.Functions as spec;

use ksql_expr::{AggFun, Fun};

const FUNCTIONS: [(&str, Fun); 10] = [
    ("ABS", Fun::Abs),
    ("LEN", Fun::Len),
    ("CONCAT", Fun::Concat),
    ("SUBSTRING", Fun::Substring),
    ("TRIM", Fun::Trim),
    ("UCASE", Fun::Ucase),
    ("LCASE", Fun::Lcase),
    ("COALESCE", Fun::Coalesce),
    ("IFNULL", Fun::IfNull),
    ("NULLIF", Fun::NullIf),
];

const AGGREGATES: [(&str, AggFun); 6] = [
    ("COUNT", AggFun::Count),
    ("SUM", AggFun::Sum),
    ("MIN", AggFun::Min),
    ("MAX", AggFun::Max),
    ("LATEST_BY_OFFSET", AggFun::Latest),
    ("EARLIEST_BY_OFFSET", AggFun::Earliest),
];

/// The scalar function of that name, if any.
#[tactic(auto, unfolding(crate::specs::Functions::function_of))]
pub fn function_of(name: &str) -> Option<Fun>
    ensures { result ≡ spec.function_of name.now }
{
    let mut table: &[(&str, Fun)] = &FUNCTIONS;
    while let [(word, fun), rest @ ..] = table {
        if *word == name {
            return Some(*fun);
        }
        table = rest;
    }
    None
}

/// The aggregate function of that name, if any.
#[tactic(auto, unfolding(crate::specs::Functions::aggregate_of))]
pub fn aggregate_of(name: &str) -> Option<AggFun>
    ensures { result ≡ spec.aggregate_of name.now }
{
    let mut table: &[(&str, AggFun)] = &AGGREGATES;
    while let [(word, fun), rest @ ..] = table {
        if *word == name {
            return Some(*fun);
        }
        table = rest;
    }
    None
}
