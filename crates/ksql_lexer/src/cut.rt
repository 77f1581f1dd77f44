ghost use Rattle.std.specs.Prelude.{◌≡◌, ◌<◌, ◌==◌, not, codes, MatchOption};
ghost use Rattle.std.specs.List.{prefix_len};
ghost use Rattle.std.specs.Str.Iter.{HasSubslice};
ghost use Rattle.ksql_lexer.specs.Piece.{is_word_byte};
ghost use Rattle.ksql_lexer.specs.Place.{IsRun, IsBetween, NoneBetween, IsUpToEnd};

use crate::byte::is_word_byte;

fn word_len(text: &str) -> usize
    ensures { result ≡ prefix_len is_word_byte text.now }
{
    text.bytes().take_while(|byte| is_word_byte(*byte)).count()
}

fn line_len(text: &str) -> usize
    ensures { result ≡ prefix_len (λ b. not (b == 10)) text.now }
{
    text.bytes().take_while(|byte| *byte != b'\n').count()
}

/// The leading letters, digits and `_` of a text, and the rest.
pub fn word_at(text: &str) -> (&str, &str)
    ensures { IsRun is_word_byte text.now result.0.now result.1.now }
{
    text.split_at(word_len(text))
}

/// The first line of a text, and the rest, which is empty or begins with the line end.
pub fn line_at(text: &str) -> (&str, &str)
    ensures { IsRun (λ b. not (b == 10)) text.now result.0.now result.1.now }
{
    text.split_at(line_len(text))
}

/// The text between the leading `quote` and the next one, and the rest after that. `quote` is ASCII.
pub fn between(text: &str, quote: char) -> Option<(&str, &str)>
    requires { quote < 128 }
    ensures { MatchOption result (NoneBetween quote text.now) (λ found. IsBetween quote text.now found.0.now found.1.now) }
{
    text.strip_prefix(quote)?.split_once(quote)
}

/// The text before the first `*/`, and the rest after it.
pub fn up_to_end(text: &str) -> Option<(&str, &str)>
    ensures { MatchOption result (¬ (HasSubslice text.now (codes "*/"))) (λ found. IsUpToEnd text.now found.0.now found.1.now) }
{
    text.split_once("*/")
}
