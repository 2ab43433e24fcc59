//! Laws of a lossy channel: what its words do to the datagrams of one direction.
//!
//! These functions do nothing. Their contracts are facts about the definitions, which callers may use.
ghost use Rattle.std.specs.Prelude.{◌≡◌, ℕ, ◌+◌, ◌%◌, ◌<◌, ◌≤◌, List, [], ◌∷◌, ◌++◌, length, drop};
ghost use Rattle.amo_net.specs.Lossy.{Takes, sent};

use crate::{MAX_DATAGRAM, MAX_QUEUED};

/// Of eight words one loses what is sent, one repeats it, and the others queue it once. A full direction takes nothing,
/// and none ever holds more than its limit.
pub fn words_lose_repeat_and_keep()
    ensures loses { (word : ℕ) (bytes : List ℕ) (queue : List (List ℕ)) → word % 8 ≡ 0 → sent word bytes queue ≡ queue }
    ensures repeats { (word : ℕ) (bytes : List ℕ) (queue : List (List ℕ)) → word % 8 ≡ 1 → length bytes ≤ MAX_DATAGRAM
        → length queue + 2 ≤ MAX_QUEUED → sent word bytes queue ≡ queue ++ bytes ∷ bytes ∷ [] }
    ensures keeps { (word : ℕ) (bytes : List ℕ) (queue : List (List ℕ)) → 2 ≤ word % 8 → length bytes ≤ MAX_DATAGRAM
        → length queue < MAX_QUEUED → sent word bytes queue ≡ queue ++ bytes ∷ [] }
    ensures full { (word : ℕ) (bytes : List ℕ) (queue : List (List ℕ)) → length queue ≡ MAX_QUEUED → sent word bytes queue ≡ queue }
    ensures bounded { (word : ℕ) (bytes : List ℕ) (queue : List (List ℕ)) → length queue ≤ MAX_QUEUED → length (sent word bytes queue) ≤ MAX_QUEUED }
{}

/// The words 2 and 0, which a channel takes where none are left, lose, repeat and reorder nothing.
pub fn nothing_overtakes_without_words()
    ensures last { (bytes : List ℕ) (queue : List (List ℕ)) → length bytes ≤ MAX_DATAGRAM → length queue < MAX_QUEUED
        → sent 2 bytes queue ≡ queue ++ bytes ∷ [] }
    ensures first { (first before after : List ℕ) (rest new : List (List ℕ)) (count : ℕ) → Takes 0 (first ∷ rest) new before after count
        → (new ≡ rest) × (after ≡ first ++ drop count before) × (count ≡ length first) }
{}
