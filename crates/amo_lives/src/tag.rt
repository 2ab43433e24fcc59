//! Draws the tag of a life.
ghost use Rattle.std.specs.Prelude.{◌≡◌, IfErr, IfOk};
ghost use Rattle.amo_lives.specs.Tag.{Draws, FailsToDraw, tag_in};

use crate::{Lives, TagFault};
use amo_word::Words;

/// How many tags are drawn at most. From a random source that many that lives have do not come: with a million lives, one in 4,000 is theirs.
const TRIES: u32 = 64;

impl Lives {
    /// Draws a tag that none of these lives has: the lower half of a word, and of the next one where a life has it.
    ///
    /// The words are to be random. A tag that was counted would come again where a disk or a machine is set back to an earlier day.
    pub fn draw_tag<W: Words>(&self, words: &mut W) -> Result<u32, TagFault>
        ensures drawn { IfOk result (Draws self.now.lives (W.to_come words.old) (W.to_come words.new)) }
        ensures fault { IfErr result (FailsToDraw self.now.lives (W.to_come words.old)) }
    {
        for _try in 0..TRIES {
            let Some(word) = words.next() else {
                return Err(TagFault::NoWord);
            };
            let tag = tag_in(word);
            if !self.has_tag(tag) {
                return Ok(tag);
            }
        }
        Err(TagFault::Repeats)
    }
}

/// The tag in a word.
fn tag_in(word: u64) -> u32
    ensures { result ≡ tag_in word }
{
    (word & 0xffff_ffff) as u32
}
