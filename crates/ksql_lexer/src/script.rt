ghost use Rattle.std.specs.Prelude.{◌≡◌, ℕ, ◌<◌, ◌≤◌, ◌^◌, List, length, Ok, Err};
ghost use Rattle.ksql_types.specs.Text.{longest_text};
ghost use Rattle.ksql_lexer.specs.declared.token.Token.{Token as OneToken};
ghost use Rattle.ksql_lexer.specs.Script.{AreTokens, BreaksIn, IsReading, Answers, is_semicolon};
ghost use Rattle.ksql_lexer.specs.Numbering.{moved};

use crate::fault::LexFault;
use crate::place::{Found, read_place};
use crate::token::{Mark, Token, TokenKind};
use std::alloc::Global;

// The statement at a place: its number, and whether it has tokens before the place.
#[derive(Clone, Copy)]
struct Numbering {
    statement: u32,
    begun: bool,
}

fn is_semicolon(kind: &TokenKind) -> bool
    ensures { result ≡ is_semicolon kind.now }
{
    matches!(kind, TokenKind::Mark(Mark::Semicolon))
}

impl Numbering {
    // The numbering after a token.
    fn after(self, kind: &TokenKind) -> Numbering
        requires { self.statement < 2 ^ 31 }
        ensures { result ≡ moved self kind.now }
    {
        let ends = is_semicolon(kind);
        Numbering {
            statement: if ends && self.begun {
                self.statement + 1
            } else {
                self.statement
            },
            begun: !ends,
        }
    }
}

fn read_script(alloc: Global, text: &str) -> Result<Vec<Token>, LexFault>
    requires { length text.now ≤ longest_text }
    ensures { IsReading text.now result }
{
    let mut tokens = Vec::new(alloc);
    let mut at = Numbering {
        statement: 1,
        begun: false,
    };
    let mut closes = true;
    let mut rest = text;
    while !rest.is_empty() {
        let found = match read_place(alloc, rest, &mut closes) {
            Ok(Some(found)) => found,
            Ok(None) => {
                return Err(LexFault::Bad {
                    statement: at.statement,
                });
            }
            Err(_) => return Err(LexFault::OutOfMemory),
        };
        let Found { kind, rest: after } = found;
        rest = after;
        let Some(kind) = kind else {
            continue;
        };
        let statement = at.statement;
        at = at.after(&kind);
        tokens.push(Token { kind, statement })?;
    }
    Ok(tokens)
}

/// The tokens of a text of at most 1,048,576 bytes, in order: the longest token at each place, skipping blanks and
/// comments. A `/*` without a `*/` after it is the two signs `/` and `*`. A quote or backquote without a closing one
/// begins no token, nor do digits directly followed by a letter or `_`. Takes time linear in the text.
pub fn tokens(alloc: Global, text: &str) -> Result<Vec<Token>, LexFault>
    requires { length text.now ≤ longest_text }
    // Every result is right: these are the text's tokens, or this is the statement of its first bad place.
    ensures found { IsReading text.now result }
    // Every right result is returned, unless memory runs out.
    ensures only { (ts : List OneToken) → AreTokens text.now ts → Answers result (Ok ts) }
    ensures bad { (s : ℕ) → BreaksIn text.now s → Answers result (Err (LexFault.Bad s)) }
{
    read_script(alloc, text)
}

/// A text has either one list of tokens, or one statement with its first bad place, and not both.
pub fn one_reading()
    ensures one_list { (text : List ℕ) (ts us : List OneToken) → AreTokens text ts → AreTokens text us → ts ≡ us }
    ensures one_fault { (text : List ℕ) (s n : ℕ) → BreaksIn text s → BreaksIn text n → s ≡ n }
    ensures not_both { (text : List ℕ) (ts : List OneToken) (s : ℕ) → AreTokens text ts → BreaksIn text s → ⊥ }
{}
