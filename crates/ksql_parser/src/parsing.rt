ghost use Rattle.std.specs.Prelude.{◌≡◌, ◌<◌, ◌^◌, ◌++◌, ℕ, List, [], ◌∷◌, Ok, Err, filter, length, position};
ghost use Rattle.ksql_lexer.specs.declared.token.TokenKind.{TokenKind as Kind};
ghost use Rattle.statement_trees.specs.declared.tree.Statement.{Statement as Tree};
ghost use Rattle.ksql_types.specs.declared.code.Code.{Code as OneCode};
ghost use Rattle.ksql_lexer.specs.Script.{is_semicolon, kinds};
ghost use Rattle.ksql_parser.specs.Grammar.{IsSpelledBy};
ghost use Rattle.ksql_parser.specs.Script.{AreOfText, is_filled, statements, AreTrees, FirstRefused, IsParsed, Answers};
ghost use Rattle.ksql_parser.specs.Settled.{SettlesOne, Settles};
ghost use Rattle.ksql_parser.specs.Words.{AreWritten};

use crate::fault::ParseFault;
use crate::limits::{has_too_large, has_too_many, has_unsupported, is_too_deep};
use crate::statement::read_statement;
use crate::symbols::symbols_of;
use ksql_grammar::ReadError;
use ksql_lexer::{Mark, Token, TokenKind};
use ksql_types::Code;
use statement_trees::Statement;
use std::alloc::Global;

fn is_semicolon(kind: &TokenKind) -> bool
    ensures { result ≡ is_semicolon kind.now }
{
    matches!(kind, TokenKind::Mark(Mark::Semicolon))
}

fn first_semicolon(tokens: &[Token]) -> Option<usize>
    ensures { result ≡ position (λ t. is_semicolon t.kind) tokens.now }
{
    tokens.iter().position(|token| is_semicolon(&token.kind))
}

/// The tokens before the first `;`, and those after it.
fn first_part(tokens: &[Token]) -> (&[Token], &[Token])
    ensures parts { statements (kinds tokens.now) ≡ filter is_filled (kinds result.0.now ∷ []) ++ statements (kinds result.1.now) }
    ensures shorter { 0 < length tokens.now → length result.1.now < length tokens.now }
    ensures written { AreWritten (kinds tokens.now) → AreWritten (kinds result.0.now) × AreWritten (kinds result.1.now) }
{
    match first_semicolon(tokens) {
        Some(end) => (&tokens[..end], &tokens[end + 1..]),
        None => (tokens, &[]),
    }
}

/// The tree of statement `number`, or its refusal.
fn tree_of(alloc: Global, number: u32, tokens: &[Token]) -> Result<Statement, ParseFault>
    requires { AreWritten (kinds tokens.now) }
    ensures { SettlesOne number (kinds tokens.now) result }
{
    if has_too_many(tokens) || is_too_deep(tokens) || has_too_large(tokens) {
        return Err(ParseFault::Refused {
            statement: number,
            code: Code::TooLarge,
        });
    }
    let symbols = symbols_of(alloc, tokens)?;
    match read_statement(alloc, &symbols) {
        Ok(tree) => Ok(tree),
        Err(ReadError::OutOfMemory) => Err(ParseFault::OutOfMemory),
        Err(ReadError::Unspelled) => {
            let unsupported = has_unsupported(tokens);
            Err(ParseFault::Refused {
                statement: number,
                code: if unsupported {
                    Code::Unsupported
                } else {
                    Code::Syntax
                },
            })
        }
    }
}

fn trees_of(alloc: Global, tokens: &[Token]) -> Result<Vec<Statement>, ParseFault>
    requires few { length tokens.now < 2 ^ 31 }
    requires written { AreWritten (kinds tokens.now) }
    ensures { Settles (statements (kinds tokens.now)) result }
{
    let mut trees = Vec::new(alloc);
    let mut number: u32 = 0;
    let mut rest = tokens;
    while !rest.is_empty() {
        let (statement, behind) = first_part(rest);
        rest = behind;
        if statement.is_empty() {
            continue;
        }
        number += 1;
        trees.push(tree_of(alloc, number, statement)?)?;
    }
    Ok(trees)
}

/// The trees of the statements in order, or the first refusal. Takes time linear in the tokens, apart from the copies
/// of names and texts.
pub fn parse(alloc: Global, tokens: &[Token]) -> Result<Vec<Statement>, ParseFault>
    requires { AreOfText tokens.now }
    // Every result is right: these are the trees of all statements, or this is the first refusal.
    ensures found { IsParsed tokens.now result }
    // Every right result is returned, unless memory runs out.
    ensures only { (trees : List Tree) → AreTrees (statements (kinds tokens.now)) trees → Answers result (Ok trees) }
    ensures refused { (n : ℕ) (code : OneCode) → FirstRefused (statements (kinds tokens.now)) n code
        → Answers result (Err (ParseFault.Refused n code)) }
{
    trees_of(alloc, tokens)
}

/// No list of tokens spells two statements.
pub fn one_tree()
    ensures { (ts : List Kind) (a b : Tree) → IsSpelledBy a ts → IsSpelledBy b ts → a ≡ b }
{}

/// Statements have either one list of trees or one first refusal, and not both.
pub fn one_list()
    ensures trees { (tss : List (List Kind)) (a b : List Tree) → AreTrees tss a → AreTrees tss b → a ≡ b }
    ensures refusal { (tss : List (List Kind)) (m n : ℕ) (c d : OneCode) → FirstRefused tss m c → FirstRefused tss n d
        → (m ≡ n) × (c ≡ d) }
    ensures not_both { (tss : List (List Kind)) (a : List Tree) (n : ℕ) (c : OneCode) → AreTrees tss a → FirstRefused tss n c → ⊥ }
{}
