//! How long the newest piece is, and how much of some bytes it is to get.
ghost use Rattle.std.specs.Prelude.{◌≡◌, ◌≢◌, ◌+◌, ◌<◌, ◌≤◌, ◌↔◌, ◌++◌, ◌∷◌, [], ℕ, List, length, take, IsTrue, IfSome, IfNone, ◌^◌};
ghost use Rattle.amo_journal.specs.Version.{heading};
ghost use Rattle.amo_pieces.specs.Journal.{IsWhole};

use amo_journal::Version;

/// The newest piece.
#[derive(Clone, Copy, PartialEq, Eq)]
pub(crate) struct Newest {
    /// How many bytes it has.
    pub(crate) length: u64,
    /// Whether its last line has its end, or it has none.
    pub(crate) is_whole: bool,
}

impl Newest {
    ghost use Rattle.amo_disk.specs.Kept.{IsNewest};

    /// One that has the heading of this version, and nothing else.
    pub(crate) fn headed(version: Version) -> Newest
        ensures { IsNewest result (heading version) }
    {
        Newest {
            length: version.heading().len() as u64,
            is_whole: true,
        }
    }

    /// Whether it is time for another one: it has so many bytes, and its last line is whole.
    pub(crate) fn is_full(self, limit: u64) -> bool
        ensures { IsTrue result ↔ ((limit ≤ self.length) × IsTrue self.is_whole) }
    {
        self.length >= limit && self.is_whole
    }

    /// It, with these bytes more. None where nobody can count so many.
    pub(crate) fn with(self, bytes: &[u8]) -> Option<Newest>
        ensures some { IfSome result (λ next. (text : List ℕ) → IsNewest self text → IsNewest next (text ++ bytes.now)) }
        ensures none { IfNone result (2 ^ 64 ≤ self.length + length bytes.now) }
    {
        Some(Newest {
            length: self.length.checked_add(bytes.len() as u64)?,
            is_whole: whole_behind(self.is_whole, bytes),
        })
    }
}

/// Whether the last line is whole behind these bytes, where it was so before them or not.
fn whole_behind(before: bool, bytes: &[u8]) -> bool
    ensures { (text : List ℕ) → IsTrue before ↔ IsWhole text → IsTrue result ↔ IsWhole (text ++ bytes.now) }
{
    if bytes.is_empty() {
        return before;
    }
    bytes[bytes.len() - 1] == b'\n'
}

/// How many of these bytes a piece of this length is to get: all, or as far as the first end of a line with which it has so many bytes as a piece
/// is to have.
pub(crate) fn part_within(size: u64, limit: u64, bytes: &[u8]) -> usize
    ensures bound { result ≤ length bytes.now }
    ensures some { 0 < length bytes.now → 0 < result }
    ensures within { (front more : List ℕ) → take result bytes.now ≡ front ++ 10 ∷ more → more ≢ [] → size + length front + 1 < limit }
{
    let first = limit.saturating_sub(size).saturating_sub(1) as usize;
    for place in first..bytes.len() {
        if bytes[place] == b'\n' {
            return place + 1;
        }
    }
    bytes.len()
}
