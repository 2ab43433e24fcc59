//! What stands in front of a text.
ghost use Rattle.std.specs.Prelude.{◌≡◌, ◌≢◌, ℕ, ◌<◌, ◌^◌, ◌++◌, ◌∷◌, List, IfSome, IfNone, false};
ghost use Rattle.std.specs.Fmt.{decimal};
ghost use Rattle.std.specs.Int.{IsInRange};
ghost use Rattle.amo_door.specs.Word.{IsWord, is_word_character};
ghost use Rattle.amo_text.specs.Line.{Lacks};

use amo_door::Word;
use amo_text::{cut, read_decimal};

/// What stands behind this front of a text.
pub(crate) fn behind<'a>(text: &'a [u8], front: &[u8]) -> Option<&'a [u8]>
    ensures found { IfSome result (λ rest. text.now ≡ front.now ++ rest.now) }
    ensures none { IfNone result ((rest : List ℕ) → text.now ≢ front.now ++ rest) }
{
    text.strip_prefix(front)
}

/// What stands in front of this end of a text.
pub(crate) fn before<'a>(text: &'a [u8], end: &[u8]) -> Option<&'a [u8]>
    ensures found { IfSome result (λ front. text.now ≡ front.now ++ end.now) }
    ensures none { IfNone result ((front : List ℕ) → text.now ≢ front ++ end.now) }
{
    text.strip_suffix(end)
}

/// The number in front of a text up to the first such byte, with no sign and no leading zero, and what stands behind that byte.
pub(crate) fn number_before(text: &[u8], end: u8) -> Option<(u64, &[u8])>
    requires { ¬ (IsInRange 48 57 end) }
    ensures found { IfSome result (λ parts. (parts.0 < 2 ^ 64) × (text.now ≡ decimal parts.0 ++ end ∷ parts.1.now)) }
    ensures none { IfNone result ((number : ℕ) (rest : List ℕ) → number < 2 ^ 64 → text.now ≢ decimal number ++ end ∷ rest) }
{
    let (digits, rest) = cut(text, end)?;
    Some((read_decimal(digits)?, rest))
}

/// What stands behind this number and this byte, where a text begins with them.
pub(crate) fn behind_number(text: &[u8], number: u64, end: u8) -> Option<&[u8]>
    requires { ¬ (IsInRange 48 57 end) }
    ensures found { IfSome result (λ rest. text.now ≡ decimal number ++ end ∷ rest.now) }
    ensures none { IfNone result ((rest : List ℕ) → text.now ≢ decimal number ++ end ∷ rest) }
{
    let (found, rest) = number_before(text, end)?;
    if found == number { Some(rest) } else { None }
}

/// The bytes in front of a text up to a quote, and what stands behind that.
pub(crate) fn quoted_in_front(text: &[u8]) -> Option<(&[u8], &[u8])>
    ensures found { IfSome result (λ parts. (text.now ≡ parts.0.now ++ 34 ∷ parts.1.now) × Lacks 34 parts.0.now) }
    ensures none { IfNone result (Lacks 34 text.now) }
{
    cut(text, b'"')
}

/// The word in front of a text up to the first such byte, which no word has, and what stands behind that byte.
pub(crate) fn word_before(text: &[u8], end: u8) -> Option<(Word, &[u8])>
    requires { is_word_character end ≡ false }
    ensures found { IfSome result (λ parts. IsWord parts.0 × (text.now ≡ parts.0 ++ end ∷ parts.1.now)) }
    ensures none { IfNone result ((word rest : List ℕ) → IsWord word → text.now ≢ word ++ end ∷ rest) }
{
    let (word, rest) = cut(text, end)?;
    Some((Word::read(word)?, rest))
}
