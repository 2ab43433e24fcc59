//! The names of the files that the pieces of a journal are in.
ghost use Rattle.std.specs.Prelude.{◌≡◌, ◌≢◌, ◌<◌, ◌^◌, ◌++◌, ◌∷◌, ℕ, List, replicate, IfNone, IfSome};
ghost use Rattle.amo_pieces.specs.Names.{LacksZero, padded, piece_name};

use amo_text::read_decimal;

/// The least number of digits in the name of a piece.
const DIGITS: usize = 6;

/// The number of a piece of the journal of this name, if a file's name is that of one: the journal's name, a dot, and the number, from 1,
/// with zeros in front up to six digits.
pub fn piece_number(name: &[u8], file: &[u8]) -> Option<u64>
    ensures found { IfSome result (λ n. (0 < n) × (n < 2 ^ 64) × (file.now ≡ piece_name name.now n)) }
    ensures none { IfNone result ((n : ℕ) → 0 < n → n < 2 ^ 64 → file.now ≢ piece_name name.now n) }
{
    read_padded(behind(name, file)?)
}

/// What stands behind this name and a dot.
fn behind<'a>(name: &[u8], file: &'a [u8]) -> Option<&'a [u8]>
    ensures some { IfSome result (λ rest. file.now ≡ name.now ++ 46 ∷ rest.now) }
    ensures none { IfNone result ((rest : List ℕ) → file.now ≢ name.now ++ 46 ∷ rest) }
{
    if !file.starts_with(name) {
        return None;
    }
    let rest = &file[name.len()..];
    if !rest.starts_with(b".") {
        return None;
    }
    Some(&rest[1..])
}

/// The number, not 0, that digits with zeros in front up to six spell.
fn read_padded(digits: &[u8]) -> Option<u64>
    ensures found { IfSome result (λ n. (0 < n) × (n < 2 ^ 64) × (digits.now ≡ padded n)) }
    ensures none { IfNone result ((n : ℕ) → 0 < n → n < 2 ^ 64 → digits.now ≢ padded n) }
{
    if digits.len() < DIGITS {
        return None;
    }
    if digits.len() > DIGITS {
        return read_decimal(digits);
    }
    read_decimal(without_zeros(digits))
}

/// The digits behind all zeros in front.
fn without_zeros(digits: &[u8]) -> &[u8]
    ensures zeros { (zeros : ℕ) × (digits.now ≡ replicate zeros 48 ++ result.now) }
    ensures behind { LacksZero result.now }
{
    let mut rest = digits;
    while rest.starts_with(b"0") {
        rest = &rest[1..];
    }
    rest
}
