ghost use Rattle.std.specs.Prelude.{◌≡◌, ◌||◌, ◌==◌, ◌∷◌, [], MatchOption, IfSome};
ghost use Rattle.std.specs.Str.{chars, IsUtf8};
ghost use Rattle.ksql_expr.specs.Value.{is_like, some_tail, is_value_like};

use ksql_types::{Chars, Value};

/// The first character of a text, and the rest.
fn first_char(text: &str) -> Option<(char, &str)>
    ensures first { MatchOption result (chars text.now ≡ []) (λ first. chars text.now ≡ first.0 ∷ chars first.1.now) }
    ensures utf8 { IfSome result (λ first. IsUtf8 first.1.now) }
{
    let mut rest = text.chars();
    let first = rest.next()?;
    Some((first, rest.as_str()))
}

/// Whether a pattern's character, other than `%`, matches a character: `_` matches any, another only itself.
fn stands_for(wanted: char, found: char) -> bool
    ensures { result ≡ ((wanted == 95) || (found == wanted)) }
{
    wanted == '_' || found == wanted
}

/// Whether a text matches a pattern, in which `%` matches any characters and `_` exactly one. Takes time at most the
/// product of their lengths.
fn is_like(pattern: &str, text: &str) -> bool
    ensures { result ≡ is_like (chars pattern.now) (chars text.now) }
{
    let (mut ahead, mut left) = (pattern, text);
    while let Some((wanted, after)) = first_char(ahead) {
        if wanted == '%' {
            return ends_like(after, left);
        }
        match first_char(left) {
            Some((found, behind)) if stands_for(wanted, found) => {
                ahead = after;
                left = behind;
            }
            _ => return false,
        }
    }
    first_char(left).is_none()
}

/// Whether a text, or what follows some of its first characters, matches a pattern. If the pattern fails, it is tried
/// again one character further on, from its last `%`: what precedes that was matched as early as possible.
fn ends_like(pattern: &str, text: &str) -> bool
    ensures { result ≡ some_tail (is_like (chars pattern.now)) (chars text.now) }
{
    let (mut ahead, mut left) = (pattern, text);
    let (mut again, mut begun) = (pattern, text);
    loop {
        match (first_char(ahead), first_char(left)) {
            (None, None) => return true,
            (Some((wanted, after)), _) if wanted == '%' => {
                (ahead, again, begun) = (after, after, left);
            }
            (Some((wanted, after)), Some((found, behind))) if stands_for(wanted, found) => {
                (ahead, left) = (after, behind);
            }
            _ => match first_char(begun) {
                Some((_, behind)) => {
                    (ahead, left, begun) = (again, behind, behind);
                }
                None => return false,
            },
        }
    }
}

/// LIKE: whether a value matches a pattern; false for NULL.
pub fn is_value_like(pattern: &Chars, value: &Value) -> bool
    ensures { result ≡ is_value_like pattern.now value.now }
{
    match value {
        Value::Txt(text) => is_like(pattern.items(), text.items()),
        _ => false,
    }
}
