ghost use Rattle.std.specs.Prelude.{◌≡◌, string_bytes};
ghost use Rattle.std.specs.Str.{IsUtf8};

use crate::copying::CopyOf;
use crate::items::Items;
use std::alloc::{AllocError, Global};
use std::marker::Model;

/// A word of a command line: a text of any length, which contracts see as the list of its bytes.
#[derive(Debug, Drop)]
pub struct Word {
    text: String,
}

/// The words of a command line, the program's name first.
pub type Words = Items<Word>;

impl Model for Word {
    ghost use Rattle.std.specs.Prelude.{List, ℕ, string_bytes};
    ghost use Rattle.std.specs.Coded.{coded_list, coded_ℕ};

    ghost Value = { List ℕ };

    ghost coded = { coded_list coded_ℕ };

    ghost view = { λ w. string_bytes w.text };
}

impl Word {
    /// Wraps a text as a word. Takes no memory.
    pub fn of(text: String) -> Word
        ensures { result ≡ string_bytes text }
    {
        Word { text }
    }

    /// The text, borrowed.
    pub fn items(&self) -> &str
        ensures value { result.now ≡ self.now }
        ensures utf8 { IsUtf8 self.now }
    {
        self.text.as_str()
    }

    /// The text as a `String`. Takes no memory.
    pub fn into_items(self) -> String
        ensures { string_bytes result ≡ self }
    {
        let Word { text } = self;
        text
    }
}

impl CopyOf for Word {
    fn copy(&self, alloc: Global) -> Result<Word, AllocError> {
        Ok(Word::of(String::from_str(alloc, self.items())?))
    }
}
