//! The words of ChaCha20.
ghost use Rattle.std.specs.Prelude.{◌≡◌, ℕ};
ghost use Rattle.amo_word.specs.Word.{word_at};

use crate::Words;
use rand_chacha::ChaCha20Rng;
use rand_core::{SeedableRng, utils};
use std::marker::Model;

/// The key stream of ChaCha20 as words of 64 bits, without an end.
///
/// Word k consists of the words 2k and 2k + 1 of the key stream, which have 32 bits each, the low half first. The
/// seed is the key. The block counter and the nonce have 64 bits each, as in Bernstein, "ChaCha, a variant of
/// Salsa20" (2008), and the stream number is the nonce; RFC 8439, section 2.3, has the same block function. A key
/// stream repeats after 2^68 words of its own, so these repeat after 2^67.
///
/// Four blocks of the key stream are made ahead, within the value itself: it has some 300 bytes, and no call takes
/// memory. A contract sees the key, the stream number and which word comes next.
#[derive(Drop)]
pub struct ChaChaWords {
    generator: ChaCha20Rng,
}

impl Model for ChaChaWords {
    ghost use Rattle.std.specs.Prelude.{◌≡◌, ◌/◌, ◌%◌, ◌<◌, ◌^◌};
    ghost use Rattle.amo_word.specs.Word.{Source};

    ghost Value = { Source };

    ghost view = { λ words. record {
      key = words.generator.key;
      stream = words.generator.stream;
      place = words.generator.word_pos / 2;
    } };

    ghost invariant = { λ words.
        (words.generator.word_pos % 2 ≡ 0) × (words.generator.word_pos < 2 ^ 68) };
}

impl ChaChaWords {
    /// The words of this seed and stream number, from word 0 on. None is ever missing.
    pub fn new(seed: [u8; 32], stream: u64) -> ChaChaWords
        ensures { (k : ℕ) → ⟦<ChaChaWords as Words>⟧.to_come result k ≡ Some (word_at seed stream k) }
    {
        let mut generator = ChaCha20Rng::from_seed(seed);
        generator.set_stream(stream);
        ChaChaWords { generator }
    }
}

impl Words for ChaChaWords {
    ghost use Rattle.std.specs.Prelude.{◌+◌, Some};
    ghost use Rattle.amo_word.specs.Word.{key_word};

    ghost to_come = { λ words k. Some (key_word words.key words.stream (words.place + k)) };

    fn next(&mut self) -> Option<u64> {
        Some(utils::next_u64_via_u32(&mut self.generator))
    }
}
