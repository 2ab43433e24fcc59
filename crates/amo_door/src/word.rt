//! The words by which callers name a life and themselves.
ghost use Rattle.std.specs.Prelude.{◌≡◌, ◌↔◌, IfSome, IsSome, IsTrue};
ghost use Rattle.std.specs.List.{list_all};
ghost use Rattle.amo_door.specs.Word.{IsWord, is_word_character};

use arrayvec::ArrayVec;
use std::marker::Model;

/// The greatest length of a word, in bytes.
pub const MAX_WORD: usize = 32;

/// A word: 1 to [`MAX_WORD`] letters, digits, dashes and underscores of ASCII. Contracts see the list of its bytes.
#[derive(Debug, Drop)]
pub struct Word {
    text: ArrayVec<u8, MAX_WORD>,
}

impl Model for Word {
    ghost use Rattle.std.specs.Prelude.{List, ℕ};
    ghost use Rattle.amo_door.specs.Word.{IsWord};

    ghost Value = { List ℕ };

    ghost view = { λ w. w.text.items };

    ghost invariant = { λ w. IsWord w.text.items };
}

impl Word {
    /// The word that these bytes spell, if they spell one.
    pub fn read(text: &[u8]) -> Option<Word>
        ensures some { IsSome result ↔ IsWord text.now }
        ensures found { IfSome result (λ word. word ≡ text.now) }
    {
        if !is_word(text) {
            return None;
        }
        match ArrayVec::try_from(text) {
            Ok(text) => Some(Word { text }),
            Err(_) => unreachable!(),
        }
    }

    /// Its bytes.
    pub fn bytes(&self) -> &[u8]
        ensures value { result.now ≡ self.now }
        ensures form { IsWord self.now }
    {
        self.text.as_slice()
    }
}

/// Whether bytes spell a word.
fn is_word(text: &[u8]) -> bool
    ensures { IsTrue result ↔ IsWord text.now }
{
    !text.is_empty() && text.len() <= MAX_WORD && has_word_characters(text)
}

/// Whether each byte is one that words have.
fn has_word_characters(text: &[u8]) -> bool
    ensures { result ≡ list_all is_word_character text.now }
{
    text.iter().all(|byte| byte.is_ascii_alphanumeric() || *byte == b'-' || *byte == b'_')
}

impl PartialEq for Word {
    ghost use Rattle.std.specs.Prelude.{bytes_eq};
    ghost use Rattle.std.specs.Cmp.{partial_equiv_from_equiv};
    ghost use Rattle.std.specs.Cmp.Lexicographic.{nat_list_eq_equiv};

    ghost eq = { bytes_eq };

    ghost laws = { partial_equiv_from_equiv nat_list_eq_equiv };

    fn eq(&self, other: &Word) -> bool {
        self.bytes() == other.bytes()
    }
}

impl Eq for Word {
    ghost use Rattle.std.specs.Cmp.Lexicographic.{nat_list_eq_equiv};

    ghost laws = { nat_list_eq_equiv };
}
