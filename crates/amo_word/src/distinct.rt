//! Words that are distinct by construction.
ghost use Rattle.std.specs.Prelude.{◌≡◌, ℕ};
ghost use Rattle.amo_word.specs.Distinct.{distinct_word};

use crate::{Words, feistel};
use std::fmt;
use std::marker::Model;

/// Words of which no two are equal, in constant memory: 2^32 for each tag, and then none for ever.
///
/// Word k is the value of a bijection of the numbers of 64 bits at a counter, of which the tag is the upper half and k
/// the lower one. The bijection is a balanced Feistel network of four rounds. The function of a round is the lower
/// half of SipHash-2-4, under the key, of five bytes: the four of the half that the network hands it, the low one
/// first, and the round's number from 0. See Aumasson and Bernstein, "SipHash: a fast short-input PRF" (2012).
///
/// So no word comes twice under one key, under one tag or under several, which is proved ([`laws`](crate::laws)).
/// Words under different keys may meet, as random ones do. How hard words are to guess is not proved. It rests on a key
/// that is random and kept secret, and on four rounds, whose words look random to whoever sees far fewer than 2^16 of
/// them; see Luby and Rackoff, "How to construct pseudorandom permutations from pseudorandom functions" (1988). Whoever
/// sees more may tell them from random ones.
///
/// A contract sees the key, the tag and the count, which is how many words came.
#[derive(Drop)]
pub struct DistinctWords {
    key: [u8; 16],
    tag: u32,
    count: u64,
}

impl Model for DistinctWords {
    ghost use Rattle.amo_word.specs.Distinct.{Progress};

    ghost Value = { Progress };

    ghost view = { λ words. record { key = words.key; tag = words.tag; count = words.count } };
}

impl DistinctWords {
    /// The words of this key and tag, from word 0 on. Past the last one, whoever needs more takes another tag.
    pub fn new(key: [u8; 16], tag: u32) -> DistinctWords
        ensures { (k : ℕ) → ⟦<DistinctWords as Words>⟧.to_come result k ≡ distinct_word key tag k }
    {
        DistinctWords { key, tag, count: 0 }
    }
}

impl Words for DistinctWords {
    ghost use Rattle.std.specs.Prelude.{◌+◌};

    ghost to_come = { λ words k. distinct_word words.key words.tag (words.count + k) };

    fn next(&mut self) -> Option<u64> {
        let count = u32::try_from(self.count).ok()?;
        self.count += 1;
        Some(feistel::shuffle(&self.key, self.tag, count))
    }
}

/// It does not show the key, nor what would tell words to come.
impl fmt::Debug for DistinctWords {
    fn fmt<W: fmt::Write>(&self, f: &mut fmt::Formatter<W>) -> fmt::Result {
        f.write_str("DistinctWords { .. }")
    }
}
