//! A bijection of the numbers of 64 bits: a balanced Feistel network with SipHash in its rounds.
ghost use Rattle.std.specs.Prelude.{◌≡◌, ◌+◌, ◌*◌, ◌^◌};
ghost use Rattle.amo_word.specs.Distinct.{round_function, shuffled};

use crate::siphash;

/// How many rounds the network has.
const ROUNDS: u8 = 4;

/// The value of a key's bijection at the number that has these halves.
#[tactic(auto, unfolding(crate::specs::Feistel::network))]
pub(crate) fn shuffle(key: &[u8; 16], upper: u32, lower: u32) -> u64
    ensures { result ≡ shuffled key.now (upper * 2 ^ 32 + lower) }
{
    let (mut left, mut right) = (upper, lower);
    for round in 0..ROUNDS {
        (left, right) = (right, left ^ round_function(key, round, right));
    }
    from_halves(left, right)
}

/// The lower half of the hash of five bytes: those of a half, the low one first, and the round's number.
#[tactic(auto, unfolding(crate::specs::Distinct::round_function))]
fn round_function(key: &[u8; 16], round: u8, half: u32) -> u32
    ensures { result ≡ round_function key.now round half }
{
    let message = from_halves((5 << 24) + u32::from(round), half);
    (siphash::hash(key, message) & 0xffff_ffff) as u32
}

fn from_halves(upper: u32, lower: u32) -> u64
    ensures { result ≡ upper * 2 ^ 32 + lower }
{
    u64::from(upper) << 32 | u64::from(lower)
}
