ghost use Rattle.std.specs.Prelude.{◌≡◌, bytes_eq};
ghost use Rattle.std.specs.List.{list_any};
ghost use Rattle.ksql_grammar.specs.Symbols.{keyword_of};
ghost use Rattle.expression_trees.specs.Words.{beside};
ghost use Rattle.ksql_parser.specs.Limits.{unsupported_words};
ghost use Rattle.ksql_parser.specs.Words.{clause_words, closing_words, command_words, expression_words, form_words, kind_words, setting_words, statement_words};

use ksql_grammar::Keyword;

/// The reserved word that a word spells, if any.
#[tactic(auto, unfolding(ksql_grammar::specs::Symbols::keyword_of), using(crate::proofs::Tables::joined))]
pub(crate) fn keyword_of(word: &str) -> Option<Keyword>
    ensures { result ≡ keyword_of word.now }
{
    statement_keyword(word)
        .or_else(|| clause_keyword(word))
        .or_else(|| expression_keyword(word))
        .or_else(|| closing_keyword(word))
}

fn statement_keyword(word: &str) -> Option<Keyword>
    ensures { result ≡ beside statement_words word.now }
{
    match word {
        "CREATE" => Some(Keyword::Create),
        "STREAM" => Some(Keyword::Stream),
        "TABLE" => Some(Keyword::Table),
        "AS" => Some(Keyword::As),
        "SELECT" => Some(Keyword::Select),
        "FROM" => Some(Keyword::From),
        "WHERE" => Some(Keyword::Where),
        "GROUP" => Some(Keyword::Group),
        "BY" => Some(Keyword::By),
        "HAVING" => Some(Keyword::Having),
        _ => None,
    }
}

fn clause_keyword(word: &str) -> Option<Keyword>
    ensures { result ≡ beside clause_words word.now }
{
    match word {
        "PARTITION" => Some(Keyword::Partition),
        "WINDOW" => Some(Keyword::Window),
        "JOIN" => Some(Keyword::Join),
        "INNER" => Some(Keyword::Inner),
        "LEFT" => Some(Keyword::Left),
        "RIGHT" => Some(Keyword::Right),
        "FULL" => Some(Keyword::Full),
        "OUTER" => Some(Keyword::Outer),
        "ON" => Some(Keyword::On),
        "WITH" => Some(Keyword::With),
        _ => None,
    }
}

fn expression_keyword(word: &str) -> Option<Keyword>
    ensures { result ≡ beside expression_words word.now }
{
    match word {
        "AND" => Some(Keyword::And),
        "OR" => Some(Keyword::Or),
        "NOT" => Some(Keyword::Not),
        "NULL" => Some(Keyword::Null),
        "IS" => Some(Keyword::Is),
        "IN" => Some(Keyword::In),
        "LIKE" => Some(Keyword::Like),
        "BETWEEN" => Some(Keyword::Between),
        "CASE" => Some(Keyword::Case),
        "WHEN" => Some(Keyword::When),
        _ => None,
    }
}

fn closing_keyword(word: &str) -> Option<Keyword>
    ensures { result ≡ beside closing_words word.now }
{
    match word {
        "THEN" => Some(Keyword::Then),
        "ELSE" => Some(Keyword::Else),
        "END" => Some(Keyword::End),
        "CAST" => Some(Keyword::Cast),
        "TRUE" => Some(Keyword::True),
        "FALSE" => Some(Keyword::False),
        "EMIT" => Some(Keyword::Emit),
        "LIMIT" => Some(Keyword::Limit),
        "WITHIN" => Some(Keyword::Within),
        _ => None,
    }
}

/// Whether a word belongs to an unsupported part of ksqlDB.
pub(crate) fn is_unsupported_word(word: &str) -> bool
    ensures { result ≡ list_any (λ wanted. bytes_eq word.now wanted) unsupported_words }
{
    is_command_word(word) || is_setting_word(word) || is_kind_word(word) || is_form_word(word)
}

fn is_command_word(word: &str) -> bool
    ensures { result ≡ list_any (λ wanted. bytes_eq word.now wanted) command_words }
{
    word == "INSERT"
        || word == "DROP"
        || word == "TERMINATE"
        || word == "PAUSE"
        || word == "RESUME"
        || word == "EXPLAIN"
        || word == "SHOW"
        || word == "LIST"
        || word == "DESCRIBE"
}

fn is_setting_word(word: &str) -> bool
    ensures { result ≡ list_any (λ wanted. bytes_eq word.now wanted) setting_words }
{
    word == "PRINT"
        || word == "SET"
        || word == "UNSET"
        || word == "DEFINE"
        || word == "UNDEFINE"
        || word == "ALTER"
        || word == "ASSERT"
        || word == "REPLACE"
        || word == "IF"
}

fn is_kind_word(word: &str) -> bool
    ensures { result ≡ list_any (λ wanted. bytes_eq word.now wanted) kind_words }
{
    word == "CONNECTOR"
        || word == "DOUBLE"
        || word == "DECIMAL"
        || word == "TIMESTAMP"
        || word == "DATE"
        || word == "TIME"
        || word == "BYTES"
        || word == "ARRAY"
        || word == "MAP"
}

fn is_form_word(word: &str) -> bool
    ensures { result ≡ list_any (λ wanted. bytes_eq word.now wanted) form_words }
{
    word == "STRUCT"
        || word == "RIGHT"
        || word == "WITHIN"
        || word == "SESSION"
        || word == "FINAL"
        || word == "LIMIT"
        || word == "HEADER"
        || word == "HEADERS"
        || word == "ESCAPE"
}
