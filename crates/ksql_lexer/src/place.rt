ghost use Rattle.std.specs.Prelude.{◌≡◌, ◌≤◌, length, false, IfOk, MatchOption};
ghost use Rattle.ksql_types.specs.Text.{longest_text};
ghost use Rattle.ksql_lexer.specs.Piece.{Longest};
ghost use Rattle.ksql_lexer.specs.Place.{first_class, NoComment, NoneCloses, Stands};

use crate::byte::{Class, are_digits, first_class, is_quotable};
use crate::cut::{between, line_at, up_to_end, word_at};
use crate::sign::mark_at;
use crate::token::TokenKind;
use ksql_types::Chars;
use std::alloc::{AllocError, Global};

/// What begins at a place: a token, or `None` for a blank or a comment; and the rest of the text.
#[derive(Drop)]
pub struct Found<'a> {
    pub kind: Option<TokenKind>,
    pub rest: &'a str,
}

fn read_blank(text: &str) -> Found<'_>
    requires { first_class text.now ≡ Some Class.Blank }
    ensures { Longest text.now result.kind result.rest.now }
{
    let (_, rest) = text.split_at(1);
    Found { kind: None, rest }
}

fn read_word(alloc: Global, text: &str) -> Result<Option<Found<'_>>, AllocError>
    requires short { length text.now ≤ longest_text }
    requires class { first_class text.now ≡ Some Class.Letter }
    ensures { IfOk result (Stands text.now) }
{
    let (word, rest) = word_at(text);
    let mut name = String::from_str(alloc, word)?;
    name.make_ascii_uppercase();
    Ok(Some(Found {
        kind: Some(TokenKind::Word(Chars::of(name)?)),
        rest,
    }))
}

fn read_digits(alloc: Global, text: &str) -> Result<Option<Found<'_>>, AllocError>
    requires short { length text.now ≤ longest_text }
    requires class { first_class text.now ≡ Some Class.Digit }
    ensures { IfOk result (Stands text.now) }
{
    let (word, rest) = word_at(text);
    if !are_digits(word) {
        return Ok(None);
    }
    Ok(Some(Found {
        kind: Some(TokenKind::Digits(Chars::of(String::from_str(alloc, word)?)?)),
        rest,
    }))
}

fn read_quoted(alloc: Global, text: &str) -> Result<Option<Found<'_>>, AllocError>
    requires short { length text.now ≤ longest_text }
    requires class { first_class text.now ≡ Some Class.Backquote }
    ensures { IfOk result (Stands text.now) }
{
    let Some((name, rest)) = between(text, '`') else {
        return Ok(None);
    };
    if !is_quotable(name) {
        return Ok(None);
    }
    let name = String::from_str(alloc, name)?;
    Ok(Some(Found {
        kind: Some(TokenKind::Quoted(Chars::of(name)?)),
        rest,
    }))
}

// A quote directly after the closing quote stands for a quote in the text, if another quote follows to close it.
fn read_text(alloc: Global, text: &str) -> Result<Option<Found<'_>>, AllocError>
    requires short { length text.now ≤ longest_text }
    requires class { first_class text.now ≡ Some Class.Quote }
    ensures { IfOk result (Stands text.now) }
{
    let Some((inside, mut rest)) = between(text, '\'') else {
        return Ok(None);
    };
    let mut content = String::from_str(alloc, inside)?;
    while let Some((inside, behind)) = between(rest, '\'') {
        content.push('\'')?;
        content.push_str(inside)?;
        rest = behind;
    }
    Ok(Some(Found {
        kind: Some(TokenKind::Text(Chars::of(content)?)),
        rest,
    }))
}

// If no `*/` follows a `/*`, `closes` becomes false, so that no later `/*` searches for one.
fn after_comment<'a>(text: &'a str, closes: &mut bool) -> Option<&'a str>
    requires { closes.old ≡ false → NoneCloses text.now }
    ensures closes { closes.new ≡ false → NoneCloses text.now }
    ensures comment { MatchOption result (NoComment text.now) (λ rest. Longest text.now None rest.now) }
{
    if let Some(line) = text.strip_prefix("--") {
        let (_, rest) = line_at(line);
        return Some(rest);
    }
    let inside = text.strip_prefix("/*")?;
    if !*closes {
        return None;
    }
    match up_to_end(inside) {
        None => {
            *closes = false;
            None
        }
        Some((_, rest)) => Some(rest),
    }
}

fn read_other<'a>(text: &'a str, closes: &mut bool) -> Option<Found<'a>>
    requires closes { closes.old ≡ false → NoneCloses text.now }
    requires class { first_class text.now ≡ Some Class.Other }
    ensures closes { closes.new ≡ false → NoneCloses text.now }
    ensures found { Stands text.now result }
{
    if let Some(rest) = after_comment(text, closes) {
        return Some(Found { kind: None, rest });
    }
    let (mark, rest) = mark_at(text)?;
    Some(Found {
        kind: Some(TokenKind::Mark(mark)),
        rest,
    })
}

/// The longest token, blank or comment at the start of a text of at most 1,048,576 bytes, or `None` if nothing begins
/// there. `closes` may be false only if no `/*` of the text has a `*/` after it; the same holds on return.
pub fn read_place<'a>(
    alloc: Global,
    text: &'a str,
    closes: &mut bool,
) -> Result<Option<Found<'a>>, AllocError>
    requires short { length text.now ≤ longest_text }
    requires closes { closes.old ≡ false → NoneCloses text.now }
    ensures closes { closes.new ≡ false → NoneCloses text.now }
    ensures found { IfOk result (Stands text.now) }
{
    match first_class(text) {
        None => Ok(None),
        Some(Class::Blank) => Ok(Some(read_blank(text))),
        Some(Class::Letter) => read_word(alloc, text),
        Some(Class::Digit) => read_digits(alloc, text),
        Some(Class::Backquote) => read_quoted(alloc, text),
        Some(Class::Quote) => read_text(alloc, text),
        Some(Class::Other) => Ok(read_other(text, closes)),
    }
}
