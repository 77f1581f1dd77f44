ghost use Rattle.std.specs.Prelude.{◌≡◌, ◌<◌, ◌==◌, ◌↔◌, IsTrue, not, length};
ghost use Rattle.std.specs.Char.{is_ascii_digit};
ghost use Rattle.std.specs.List.{list_all};
ghost use Rattle.ksql_lexer.specs.Piece.{is_word_byte, Lacks};
ghost use Rattle.ksql_lexer.specs.Place.{class_of, first_class};

/// What a byte can begin. `Other` is a sign, a comment, or nothing.
#[derive(Clone, Copy, Debug, PartialEq, Eq)]
pub enum Class {
    Blank,
    Letter,
    Digit,
    Quote,
    Backquote,
    Other,
}

fn class_of(byte: u8) -> Class
    ensures { result ≡ class_of byte }
{
    match byte {
        b' ' | b'\t' | b'\r' | b'\n' => Class::Blank,
        b'a'..=b'z' | b'A'..=b'Z' | b'_' => Class::Letter,
        b'0'..=b'9' => Class::Digit,
        b'\'' => Class::Quote,
        b'`' => Class::Backquote,
        _ => Class::Other,
    }
}

/// The class of a text's first byte, or `None` for the empty text.
pub fn first_class(text: &str) -> Option<Class>
    ensures { result ≡ first_class text.now }
{
    match text.as_bytes() {
        [] => None,
        [first, ..] => Some(class_of(*first)),
    }
}

/// Whether a byte is a letter, a digit or `_`.
pub fn is_word_byte(byte: u8) -> bool
    ensures { result ≡ is_word_byte byte }
{
    byte.is_ascii_alphabetic() || byte == b'_' || byte.is_ascii_digit()
}

/// Whether each byte of a text is a digit.
pub fn are_digits(text: &str) -> bool
    ensures { result ≡ list_all is_ascii_digit text.now }
{
    text.bytes().all(|byte| byte.is_ascii_digit())
}

fn is_one_line(text: &str) -> bool
    ensures { result ≡ list_all (λ b. not (b == 10)) text.now }
{
    text.bytes().all(|byte| byte != b'\n')
}

/// Whether a text is not empty and has no line end.
pub fn is_quotable(text: &str) -> bool
    ensures { IsTrue result ↔ ((0 < length text.now) × Lacks 10 text.now) }
{
    !text.is_empty() && is_one_line(text)
}
