//! Words of the grammar.

ghost use Rattle.std.specs.Prelude.{◌≡◌};
ghost use Rattle.expression_trees.specs.Words.{beside};
ghost use Rattle.ksql_grammar.specs.Symbols as spec;

use ksql_types::SqlType;

/// The type that a word names, if any.
pub fn type_of(word: &str) -> Option<SqlType>
    ensures { result ≡ beside spec.type_words word.now }
{
    match word {
        "INT" | "INTEGER" => Some(SqlType::Int),
        "BIGINT" => Some(SqlType::Big),
        "VARCHAR" | "STRING" => Some(SqlType::Text),
        "BOOLEAN" => Some(SqlType::Bool),
        _ => None,
    }
}
