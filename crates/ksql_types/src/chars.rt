ghost use Rattle.std.specs.Prelude.{◌≡◌, ◌≤◌, length, take, IfOk, IfSome, Some, refl, bytes_eq, string_bytes, string_len};
ghost use Rattle.std.proofs.Common.{rules};
ghost use Rattle.std.specs.Ordering.{nat_cmp};
ghost use Rattle.std.specs.Str.{IsUtf8};
ghost use Rattle.std.specs.Hash as fed;
ghost use Rattle.std.specs.Cmp.{partial_equiv_from_equiv};
ghost use Rattle.std.specs.Cmp.Lexicographic.{slice_cmp, nat_list_eq_equiv, nat_list_cmp_total, texts_ties, texts_po};
ghost use Rattle.std.specs.Cmp.Rules.{hashing};
ghost use Rattle.ksql_types.specs.Chars.{IsShortText};
ghost use Rattle.ksql_types.specs.Text.{longest_text};

use crate::copying::CopyOf;
use std::alloc::{AllocError, Global};
use std::cmp::Ordering;
use std::hash::{Hash, Hasher};
use std::marker::Model;
use std::sync::ArcStr;

/// A text of at most 1,048,576 bytes of UTF-8, which contracts see as the list of its bytes. A copy of a long text
/// shares its bytes.
#[derive(Debug, Drop)]
pub struct Chars {
    text: Text,
}

/// A text of at most 14 bytes is stored in place.
#[derive(Debug, Drop)]
enum Text {
    Short(ShortText),
    Long(ArcStr),
}

#[derive(Clone, Copy, Debug)]
struct ShortText {
    len: u8,
    bytes: [u8; 14],
}

impl Model for Chars {
    ghost use Rattle.std.specs.Prelude.{List, ℕ};
    ghost use Rattle.std.specs.Coded.{coded_list, coded_ℕ};
    ghost use Rattle.ksql_types.specs.Chars.{bytes_in, IsText};

    ghost Value = { List ℕ };

    ghost coded = { coded_list coded_ℕ };

    ghost view = { λ c. bytes_in c.text };

    ghost invariant = { λ c. IsText c.text };
}

impl Chars {
    /// A text of at most 1,048,576 bytes as `Chars`.
    pub fn of(text: String) -> Result<Chars, AllocError>
        requires { string_len text ≤ longest_text }
        ensures { IfOk result (λ made. made ≡ string_bytes text) }
    {
        let text = match short(text.as_str()) {
            Some(short) => Text::Short(short),
            None => Text::Long(ArcStr::from_string(text)?),
        };
        Ok(Chars { text })
    }

    /// A copy of the text.
    pub fn copy_of(alloc: Global, text: &str) -> Result<Chars, AllocError>
        requires { length text.now ≤ longest_text }
        ensures { IfOk result (λ made. made ≡ text.now) }
    {
        let text = match short(text) {
            Some(short) => Text::Short(short),
            None => Text::Long(ArcStr::from_str(alloc, text)?),
        };
        Ok(Chars { text })
    }

    /// The text, borrowed.
    #[tactic(auto, unfolding(crate::specs::Text::longest_text))]
    pub fn items(&self) -> &str
        ensures value { result.now ≡ self.now }
        ensures bound { length self.now ≤ longest_text }
        ensures utf8 { IsUtf8 self.now }
    {
        match &self.text {
            Text::Short(short) => short.text(),
            Text::Long(text) => text.as_str(),
        }
    }
}

impl ShortText {
    fn text(&self) -> &str
        requires { IsShortText self.now }
        ensures { result.now ≡ take self.now.len self.now.bytes }
    {
        let bytes = &self.bytes[..self.len as usize];
        unsafe { str::from_utf8_unchecked(bytes) }
    }
}

fn short(text: &str) -> Option<ShortText>
    ensures { IfSome result (λ short. IsShortText short × (take short.len short.bytes ≡ text.now)) }
{
    let len = text.len();
    if len > 14 {
        return None;
    }
    let mut bytes = [0; 14];
    bytes[..len].copy_from_slice(text.as_bytes());
    Some(ShortText {
        len: len as u8,
        bytes,
    })
}

impl CopyOf for Chars {
    fn copy(&self, _alloc: Global) -> Result<Chars, AllocError> {
        let text = match &self.text {
            Text::Short(short) => Text::Short(*short),
            Text::Long(text) => Text::Long(text.clone()?),
        };
        Ok(Chars { text })
    }
}

impl PartialEq for Chars {
    ghost eq = { bytes_eq };

    ghost laws = { partial_equiv_from_equiv nat_list_eq_equiv };

    fn eq(&self, other: &Chars) -> bool {
        self.items() == other.items()
    }
}

impl Eq for Chars {
    ghost laws = { nat_list_eq_equiv };
}

impl PartialOrd for Chars {
    ghost partial_cmp = { λ a b. Some (slice_cmp nat_cmp a b) };

    ghost laws = { texts_po };

    fn partial_cmp(&self, other: &Chars) -> Option<Ordering> {
        Some(self.cmp(other))
    }
}

impl Ord for Chars {
    ghost cmp = { slice_cmp nat_cmp };

    ghost total = { nat_list_cmp_total };

    ghost matches_partial_cmp = { λ a b. refl };

    ghost matches_eq = { texts_ties };

    fn cmp(&self, other: &Chars) -> Ordering {
        self.items().cmp(other.items())
    }
}

impl Hash for Chars {
    ghost hash_input = { fed.str };

    ghost respects_eq = { Prim.search (hashing, rules) };

    fn hash<H: Hasher>(&self, state: &mut H) {
        self.items().hash(state);
    }
}
