//! What holds of the definitions of words. A law is a function that does nothing: its contract is the law, and is
//! proved like any other.
ghost use Rattle.std.specs.Prelude.{◌≡◌, ◌≢◌, ◌+◌, ◌*◌, ◌^◌, ◌<◌, ℕ, List, [], ◌∷◌, replicate};
ghost use Rattle.amo_word.specs.Distinct.{message, shuffled, unshuffled, distinct_word, AreDistinct, AreApart};
ghost use Rattle.amo_word.specs.SipHash.{siphash};
ghost use Rattle.amo_word.specs.Word.{word_at};

/// The key of the worked example of RFC 8439, section 2.3.2: the bytes 0 to 31.
const EXAMPLE_KEY: [u8; 32] = [
    0, 1, 2, 3, 4, 5, 6, 7, 8, 9, 10, 11, 12, 13, 14, 15, 16, 17, 18, 19, 20, 21, 22, 23, 24, 25,
    26, 27, 28, 29, 30, 31,
];

/// The key of the published hashes of SipHash-2-4: the bytes 0 to 15.
const SIPHASH_KEY: [u8; 16] = [0, 1, 2, 3, 4, 5, 6, 7, 8, 9, 10, 11, 12, 13, 14, 15];

/// The definition gives the words that RFC 8439 publishes.
///
/// The zero key is that of appendix A.1, test vector 1. The other is the worked example of section 2.3.2: its block
/// counter 1 and the first word of its nonce, 09000000, are the halves of a counter of 64 bits, and the rest of the
/// nonce, 4a000000, is the stream number. Eight words make a block.
pub fn words_are_those_of_the_standard()
    ensures first { word_at (replicate 32 0) 0 0 ≡ 0x903df1a0ade0b876 }
    ensures second { word_at (replicate 32 0) 0 1 ≡ 0x28bd8653e56a5d40 }
    ensures example { word_at EXAMPLE_KEY 0x4a000000 (8 * (1 + 0x09000000 * 2 ^ 32)) ≡ 0x15593bd1e4e7f110 }
{}

/// The words of a seed and a stream number repeat after 2^67.
pub fn words_repeat()
    ensures { (seed : List ℕ) (stream k : ℕ) → word_at seed stream (k + 2 ^ 67) ≡ word_at seed stream k }
{}

/// The definition gives the hashes that the authors of SipHash publish.
///
/// The first is the worked example of appendix A of Aumasson and Bernstein, "SipHash: a fast short-input PRF" (2012):
/// the bytes 0 to 14, which are parsed into two words. The other is `vectors_sip64[5]` of their reference
/// implementation: the bytes 0 to 4, which as a round's message are the half 03020100 and the number 4.
#[tactic(auto, unfolding(rand_core::specs::Steps::u32_at, crate::specs::SipHash::sip_round))]
pub fn hashes_are_those_published()
    ensures example { siphash SIPHASH_KEY (0x0706050403020100 ∷ 0x0f0e0d0c0b0a0908 ∷ []) ≡ 0xa129ca6149be45e5 }
    ensures round { siphash SIPHASH_KEY (message 4 0x03020100 ∷ []) ≡ 0x18765564cd99a68d }
{}

/// Shuffling under a key is a bijection of the numbers of 64 bits: it stays within them, as its inverse does, and the
/// two undo each other.
#[tactic(auto, using(crate::proofs::Distinctness::bijection))]
pub fn shuffle_is_a_bijection()
    ensures fits { (key : List ℕ) (n : ℕ) → n < 2 ^ 64 → shuffled key n < 2 ^ 64 }
    ensures inverse_fits { (key : List ℕ) (n : ℕ) → n < 2 ^ 64 → unshuffled key n < 2 ^ 64 }
    ensures left_inverse { (key : List ℕ) (n : ℕ) → n < 2 ^ 64 → unshuffled key (shuffled key n) ≡ n }
    ensures right_inverse { (key : List ℕ) (n : ℕ) → n < 2 ^ 64 → shuffled key (unshuffled key n) ≡ n }
{}

/// No word comes twice under one key: those of one tag are pairwise distinct, and two tags share none.
#[tactic(auto, using(crate::proofs::Distinctness::words_are_distinct, crate::proofs::Distinctness::tags_are_apart))]
pub fn words_are_distinct()
    ensures one_tag { (key : List ℕ) (tag : ℕ) → tag < 2 ^ 32 → AreDistinct (distinct_word key tag) }
    ensures two_tags { (key : List ℕ) (tag other : ℕ) → tag < 2 ^ 32 → other < 2 ^ 32 → tag ≢ other →
        AreApart (distinct_word key tag) (distinct_word key other) }
{}
