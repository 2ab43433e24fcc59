//! Decimals: numbers from `0` to `18446744073709551615`, with no sign and no leading zero.
ghost use Rattle.std.specs.Prelude.{◌≡◌, ◌≢◌, ℕ, ◌+◌, ◌-◌, ◌*◌, ◌<◌, ◌≤◌, ◌^◌, ◌++◌, ◌∷◌, ◌↔◌, List, slice_index, IsTrue, IfSome, IfNone, OnOk, OnErr};
ghost use Rattle.std.specs.Char.{IsAsciiDigit};
ghost use Rattle.std.specs.Fmt.{decimal};
ghost use Rattle.amo_text.specs.Decimal.{HasNoDigitInFront};

use itoa::Buffer;
use std::alloc::AllocError;

/// The number that this text spells, if it spells one.
///
/// A sign, a leading zero, a number past `u64::MAX` and the empty text spell none.
pub fn read_decimal(text: &[u8]) -> Option<u64>
    ensures found { IfSome result (λ n. text.now ≡ decimal n) }
    ensures fits { IfSome result (λ n. n < 2 ^ 64) }
    ensures none { IfNone result ((n : ℕ) → n < 2 ^ 64 → text.now ≢ decimal n) }
{
    let (number, rest) = decimal_in_front(text)?;
    if rest.is_empty() { Some(number) } else { None }
}

/// The number in front, and what stands behind the space after it.
pub fn next_decimal(text: &[u8]) -> Option<(u64, &[u8])>
    ensures found { IfSome result (λ n. (n.0 < 2 ^ 64) × (text.now ≡ decimal n.0 ++ 32 ∷ n.1.now)) }
    ensures none { IfNone result ((n : ℕ) (rest : List ℕ) → n < 2 ^ 64 → text.now ≢ decimal n ++ 32 ∷ rest) }
{
    let (number, rest) = decimal_in_front(text)?;
    if rest.is_empty() || rest[0] != b' ' {
        return None;
    }
    Some((number, &rest[1..]))
}

/// The number whose digits stand in front, all of them, and what is behind them.
fn decimal_in_front(text: &[u8]) -> Option<(u64, &[u8])>
    ensures found { IfSome result (λ n. (n.0 < 2 ^ 64) × (text.now ≡ decimal n.0 ++ n.1.now) × HasNoDigitInFront n.1.now) }
    ensures none { IfNone result ((n : ℕ) (rest : List ℕ) → n < 2 ^ 64 → HasNoDigitInFront rest → text.now ≢ decimal n ++ rest) }
{
    if !begins_as_decimal(text) {
        return None;
    }
    let mut number = 0;
    for place in 0..text.len() {
        let digit = text[place];
        if !digit.is_ascii_digit() {
            return Some((number, &text[place..]));
        }
        number = with_digit(number, digit)?;
    }
    Some((number, &[]))
}

/// Whether its first byte is a digit, and a zero only where no other digit follows.
fn begins_as_decimal(text: &[u8]) -> bool
    ensures { IsTrue result ↔ (IsAsciiDigit (slice_index text.now 0) × (slice_index text.now 0 ≡ 48 → ¬ (IsAsciiDigit (slice_index text.now 1)))) }
{
    match text {
        [b'0', next, ..] => !next.is_ascii_digit(),
        [first, ..] => first.is_ascii_digit(),
        [] => false,
    }
}

/// The number with one digit more at its end, if that is not past `u64::MAX`.
fn with_digit(number: u64, digit: u8) -> Option<u64>
    requires { IsAsciiDigit digit }
    ensures found { IfSome result (λ n. (n ≡ number * 10 + (digit - 48)) × (n < 2 ^ 64)) }
    ensures none { IfNone result (2 ^ 64 ≤ number * 10 + (digit - 48)) }
{
    number.checked_mul(10)?.checked_add((digit - b'0') as u64)
}

/// Appends the number's digits. Where memory is refused, the text stays as it was.
pub fn push_decimal(text: &mut Vec<u8>, number: u64) -> Result<(), AllocError>
    ensures ok { OnOk result (text.new.items ≡ text.old.items ++ decimal number) }
    ensures err { OnErr result (text.new.items ≡ text.old.items) }
{
    let mut digits = Buffer::new();
    text.extend_from_slice(digits.format(number).as_bytes())
}
