//! Finds a line of a piece of a journal by its number, without reading all that stands in front of it.
ghost use Rattle.std.specs.Prelude.{◌≡◌, ◌+◌, ◌≤◌, ◌++◌, ◌∷◌, ℕ, List, IfOk, IfSome, length};
ghost use Rattle.std.specs.Fmt.{decimal};

use amo_text::{next_decimal, next_line};
use std::fs::File;
use std::io;
use std::os::unix::fs::FileExt;

/// How many bytes are read at each place: more than two lines of a sender have.
const BLOCK: usize = 8192;

/// Where a line begins that has this number or a smaller one, at most a block in front of where the line of this number would begin. The lines begin at one
/// place of the file, up to another one, and their numbers rise: half of what is left is passed, again and again. Where no line is found in a block nothing is
/// passed, and whoever reads from there sees why.
pub(crate) fn place_before(file: &File, begin: u64, end: u64, number: u64) -> io::Result<u64>
    ensures { IfOk result (λ place. begin ≤ place) }
{
    let mut block = [0u8; BLOCK];
    let mut place = begin;
    let mut left = end.saturating_sub(begin);
    while left > BLOCK as u64 {
        let half = left / 2;
        let middle = place.saturating_add(half);
        let count = file.read_at(&mut block, middle)?;
        let Some((passed, found)) = first_line_in(&block[..count.min(block.len())]) else {
            return Ok(begin);
        };
        if found <= number {
            let more = half.saturating_add(passed as u64);
            place = place.saturating_add(more);
            left = left.saturating_sub(more);
        } else {
            left = half;
        }
    }
    Ok(place)
}

/// The first line that begins behind the end of another one: how many bytes stand in front of it, and its number.
fn first_line_in(bytes: &[u8]) -> Option<(usize, u64)>
    ensures { IfSome result (λ found. (front : List ℕ) × (rest : List ℕ) × (bytes.now ≡ front ++ 10 ∷ (decimal found.1 ++ 32 ∷ rest)) × (length front + 1 ≡ found.0)) }
{
    let (front, lines) = next_line(bytes)?;
    let (number, _) = next_decimal(lines)?;
    Some((front.len() + 1, number))
}
