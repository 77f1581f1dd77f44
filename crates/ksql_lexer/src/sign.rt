ghost use Rattle.std.specs.Prelude.{◌≡◌, MatchOption};
ghost use Rattle.ksql_lexer.specs.Place.{pair_mark, single_mark, pair_at, single_at, NoMark, IsLongestMark};

use crate::token::Mark;

fn pair_mark(first: u8, second: u8) -> Option<Mark>
    ensures { result ≡ pair_mark first second }
{
    match (first, second) {
        (b'<', b'>') | (b'!', b'=') => Some(Mark::NotEqual),
        (b'<', b'=') => Some(Mark::LessEqual),
        (b'>', b'=') => Some(Mark::GreaterEqual),
        (b'|', b'|') => Some(Mark::Concat),
        _ => None,
    }
}

fn single_mark(byte: u8) -> Option<Mark>
    ensures { result ≡ single_mark byte }
{
    match byte {
        b'(' => Some(Mark::Open),
        b')' => Some(Mark::Close),
        b',' => Some(Mark::Comma),
        b';' => Some(Mark::Semicolon),
        b'.' => Some(Mark::Dot),
        b'=' => Some(Mark::Equal),
        b'<' => Some(Mark::Less),
        b'>' => Some(Mark::Greater),
        b'+' => Some(Mark::Plus),
        b'-' => Some(Mark::Minus),
        b'*' => Some(Mark::Star),
        b'/' => Some(Mark::Slash),
        b'%' => Some(Mark::Percent),
        _ => None,
    }
}

fn pair_at(text: &str) -> Option<Mark>
    ensures { result ≡ pair_at text.now }
{
    match text.as_bytes() {
        [first, second, ..] => pair_mark(*first, *second),
        _ => None,
    }
}

fn single_at(text: &str) -> Option<Mark>
    ensures { result ≡ single_at text.now }
{
    match text.as_bytes() {
        [first, ..] => single_mark(*first),
        [] => None,
    }
}

/// The longest sign at the start of a text, and the rest.
pub fn mark_at(text: &str) -> Option<(Mark, &str)>
    ensures { MatchOption result (NoMark text.now) (λ found. IsLongestMark text.now found.0 found.1.now) }
{
    if let Some(mark) = pair_at(text) {
        let (_, rest) = text.split_at(2);
        return Some((mark, rest));
    }
    let mark = single_at(text)?;
    let (_, rest) = text.split_at(1);
    Some((mark, rest))
}
