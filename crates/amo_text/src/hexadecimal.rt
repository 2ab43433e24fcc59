//! HEX: bytes as text in base 16 (RFC 4648, section 8), with lower-case digits, and `-` for no bytes.
ghost use Rattle.std.specs.Prelude.{◌≡◌, ◌≢◌, ℕ, ◌≤◌, ◌↔◌, List, ◌++◌, length, take, drop, IsTrue, IfSome, IfNone, OnOk, OnErr};
ghost use Rattle.std.specs.List.{list_all};
ghost use Rattle.hex.specs.Hex.{IsBytes};
ghost use Rattle.amo_text.specs.Hexadecimal.{hex, is_hex_digit, IsPairs};

use std::alloc::AllocError;

/// Reads the bytes that this text spells into the front of `room`, and answers how many they are.
///
/// None where the text is no HEX, or spells more bytes than the room takes: the room is then unchanged.
pub fn read_hex(text: &[u8], room: &mut [u8]) -> Option<usize>
    ensures found { IfSome result (λ n. text.now ≡ hex (take n room.new)) }
    ensures within { IfSome result (λ n. n ≤ length room.new) }
    ensures bytes { IfSome result (λ n. IsBytes (take n room.new)) }
    ensures rest { IfSome result (λ n. drop n room.new ≡ drop n room.old) }
    ensures none { IfNone result ((m : List ℕ) → IsBytes m → length m ≤ length room.old → text.now ≢ hex m) }
    ensures same { IfNone result (room.new ≡ room.old) }
{
    let count = hex_length(text)?;
    if count > room.len() {
        return None;
    }
    if count > 0 {
        // It is pairs of digits, and so does not fail.
        let _ = hex::decode_to_slice(text, &mut room[..count]);
    }
    Some(count)
}

/// How many bytes this text spells; none where it is no HEX. Nothing is read, and no memory taken.
pub fn hex_length(text: &[u8]) -> Option<usize>
    ensures found { IfSome result (λ n. (m : List ℕ) × IsBytes m × (text.now ≡ hex m) × (n ≡ length m)) }
    ensures none { IfNone result ((m : List ℕ) → IsBytes m → text.now ≢ hex m) }
{
    if text == b"-".as_slice() {
        return Some(0);
    }
    if !are_pairs(text) {
        return None;
    }
    Some(text.len() / 2)
}

/// Whether it is pairs of digits, and one pair at least.
fn are_pairs(text: &[u8]) -> bool
    ensures { IsTrue result ↔ IsPairs text.now }
{
    !text.is_empty() && text.len() % 2 == 0 && are_digits(text)
}

/// Whether each byte is a digit.
fn are_digits(text: &[u8]) -> bool
    ensures { result ≡ list_all is_hex_digit text.now }
{
    // It goes on to the end in any case, so that it is compiled to vector instructions.
    let mut all = true;
    for &digit in text {
        all &= is_digit(digit);
    }
    all
}

fn is_digit(digit: u8) -> bool
    ensures { result ≡ is_hex_digit digit }
{
    matches!(digit, b'0'..=b'9' | b'a'..=b'f')
}

/// Appends the spelling of these bytes.
pub fn push_hex(text: &mut Vec<u8>, bytes: &[u8]) -> Result<(), AllocError>
    ensures ok { OnOk result (text.new.items ≡ text.old.items ++ hex bytes.now) }
    ensures err { OnErr result (text.new.items ≡ text.old.items) }
{
    if bytes.is_empty() {
        text.push(b'-')?;
        return Ok(());
    }
    let start = text.len();
    let digits = bytes.len().checked_mul(2).ok_or(AllocError)?;
    let end = start.checked_add(digits).ok_or(AllocError)?;
    text.resize(end, 0)?;
    // It fits, two digits a byte, and so does not fail.
    let _ = hex::encode_to_slice(bytes, &mut text[start..]);
    Ok(())
}
