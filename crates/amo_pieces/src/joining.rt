//! One piece more behind a text.
ghost use Rattle.std.specs.Prelude.{◌≡◌, ◌≤◌, ◌+◌, ◌↔◌, ◌++◌, ℕ, List, length, take, drop, IfOk, IfSome, IsTrue, OnErr};
ghost use Rattle.amo_pieces.specs.Journal.{IsWhole};
ghost use Rattle.amo_pieces.specs.Text.{Joins};
ghost use Rattle.amo_pieces.specs.Places.{ends_in};

use amo_journal::open;
use std::io;
use std::io::Read;

/// Whether each line of the text has its end.
pub(crate) fn is_whole(text: &[u8]) -> bool
    ensures { IsTrue result ↔ IsWhole text.now }
{
    matches!(text, [] | [.., b'\n'])
}

/// How many lines end in the text.
pub(crate) fn count_ends(text: &[u8]) -> usize
    ensures { result ≡ ends_in text.now }
{
    let mut ends = 0;
    for &byte in text {
        if byte == b'\n' {
            ends += 1;
        }
    }
    ends
}

/// Reads all that a reader has left behind a text of whole lines, and makes it a part of that. Answers how many lines of it are left out.
/// Behind a line without its end nothing is read. Where memory or the reader fails, the text stays as it was.
pub(crate) fn read_behind<R: Read>(text: &mut Vec<u8>, reader: &mut R) -> io::Result<usize>
    ensures joined { IfOk result (λ left_out. (piece : List ℕ) × IfSome (R.remaining reader.old) (λ bytes. piece ≡ bytes) × Joins text.old.items piece text.new.items left_out) }
    ensures kept { OnErr result (text.new.items ≡ text.old.items) }
{
    if !is_whole(text.as_slice()) {
        return Ok(0);
    }
    let before = text.len();
    match reader.read_to_end(text) {
        Ok(_) => Ok(join(text, before)),
        Err(error) => {
            text.truncate(before);
            Err(error)
        }
    }
}

/// Makes a piece, which stands behind so many bytes of the text, a part of it. Answers how many lines of the piece are left out.
fn join(text: &mut Vec<u8>, before: usize) -> usize
    requires within { before ≤ length text.old.items }
    requires whole { IsWhole (take before text.old.items) }
    ensures { Joins (take before text.old.items) (drop before text.old.items) text.new.items result }
{
    if before == 0 || before == text.len() {
        return 0;
    }
    let journal = open(&text.as_slice()[..before]).version;
    let version = open(&text.as_slice()[before..]).version;
    if version != journal {
        text.truncate(before + 1);
        return 0;
    }
    cut_out(text, before, version.heading().len());
    version.lines_before()
}

/// Takes so many bytes out of the text, behind the first ones.
fn cut_out(text: &mut Vec<u8>, before: usize, count: usize)
    requires { before + count ≤ length text.old.items }
    ensures { text.new.items ≡ take before text.old.items ++ drop (before + count) text.old.items }
{
    let length = text.len();
    text.copy_within(before + count..length, before);
    text.truncate(length - count);
}
