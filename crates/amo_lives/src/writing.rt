//! Writes the file of lives, a line at a time.
ghost use Rattle.std.specs.Prelude.{◌≡◌, ◌≤◌, ◌<◌, ◌↔◌, ◌++◌, ℕ, false, IfOk, IsErrOf, OnOk};
ghost use Rattle.std.specs.Io.KnownBytes.{Appends, Keeps};
ghost use Rattle.std.specs.List.{AllByRecursion};
ghost use Rattle.amo_text.specs.Sink.{AppendsFront};
ghost use Rattle.amo_word.specs.Distinct.{AreApart, AreDistinct, distinct_word};
ghost use Rattle.amo_lives.specs.Life.{boot_field, heading, line_text, sync_field, tag_field};
ghost use Rattle.amo_lives.specs.Lives.{has_tag, reach, with_life};

use crate::line_reader::TITLE;
use crate::{BeginFault, BootId, Life, Lives};
use amo_object::End;
use amo_text::{Sink, push_decimal, push_hex, push_side, write_all};
use amo_word::{DistinctWords, Words};
use std::alloc::AllocError;

impl Lives {
    /// Writes the heading, with which a new file begins. It is made whole in the room, and then written.
    ///
    /// Where the sink fails, a beginning of the heading was appended, and the file can only be begun again.
    pub fn write_heading<W: Sink>(&self, room: &mut Vec<u8>, sink: &mut W) -> Result<(), BeginFault>
        ensures written { OnOk result (Appends (W.written sink.old) (W.written sink.new) (heading self.now.side self.now.key)) }
        ensures no_memory { IsErrOf result BeginFault.NoMemory → Keeps (W.written sink.old) (W.written sink.new) }
        ensures torn { IsErrOf result BeginFault.Device → AppendsFront (W.written sink.old) (W.written sink.new) (heading self.now.side self.now.key) }
        ensures device { IsErrOf result BeginFault.Device ↔ (W.failures sink.old < W.failures sink.new) }
    {
        room.clear();
        push_heading(room, self.side(), &self.key)?;
        write_all(sink, room.as_slice())?;
        Ok(())
    }

    /// Begins one life more, also where the words of the last one are used up. Its tag was drawn here ([`Lives::draw_tag`]), and it begins at the
    /// journal's next line ([`Lives::check_journal`]). Its line is made whole in the room, and then written. What it answers are the words of the
    /// life: no two of them are equal, and none is one of an earlier life.
    ///
    /// The caller puts the file on its disk, where lines are to be there before packets leave, and only then draws the first word. Where the sink fails,
    /// a beginning of the line was appended; the life counts as one of these, and drew no word; and the file can only be read again.
    pub fn begin<W: Sink>(
        &mut self,
        room: &mut Vec<u8>,
        life: Life,
        sink: &mut W,
    ) -> Result<DistinctWords, BeginFault>
        requires tag { has_tag self.old.lives life.tag ≡ false }
        requires first_line { reach self.old.lives ≤ life.first_line }
        ensures life { OnOk result (self.new ≡ with_life self.old life) }
        ensures written { OnOk result (Appends (W.written sink.old) (W.written sink.new) (line_text life)) }
        ensures words { IfOk result (λ words. (k : ℕ) → ⟦<DistinctWords as Words>⟧.to_come words k ≡ distinct_word self.old.key life.tag k) }
        ensures distinct { IfOk result (λ words. AreDistinct (⟦<DistinctWords as Words>⟧.to_come words)) }
        ensures apart { IfOk result (λ words. AllByRecursion (λ earlier. AreApart (distinct_word self.old.key earlier.tag) (⟦<DistinctWords as Words>⟧.to_come words)) self.old.lives) }
        ensures no_memory { IsErrOf result BeginFault.NoMemory → (self.new ≡ self.old) × Keeps (W.written sink.old) (W.written sink.new) }
        ensures torn { IsErrOf result BeginFault.Device → (self.new ≡ with_life self.old life) × AppendsFront (W.written sink.old) (W.written sink.new) (line_text life) }
        ensures device { IsErrOf result BeginFault.Device ↔ (W.failures sink.old < W.failures sink.new) }
    {
        let key = self.key;
        let words = DistinctWords::new(key, life.tag);
        life.has_line();
        room.clear();
        push_life(room, &life)?;
        self.add(&life)?;
        write_all(sink, room.as_slice())?;
        Ok(words)
    }
}

/// Appends the heading.
fn push_heading(text: &mut Vec<u8>, side: End, key: &[u8]) -> Result<(), AllocError>
    ensures { OnOk result (text.new.items ≡ text.old.items ++ heading side key.now) }
{
    text.extend_from_slice(TITLE)?;
    push_side(text, side)?;
    text.push(b' ')?;
    push_hex(text, key)?;
    text.push(b'\n')?;
    Ok(())
}

/// Appends the line of a life.
fn push_life(text: &mut Vec<u8>, life: &Life) -> Result<(), AllocError>
    ensures { OnOk result (text.new.items ≡ text.old.items ++ line_text life.now) }
{
    push_tag(text, life.tag)?;
    text.push(b' ')?;
    push_decimal(text, life.first_line)?;
    text.push(b' ')?;
    push_boot(text, &life.boot)?;
    text.push(b' ')?;
    push_sync(text, life.sync)?;
    text.push(b'\n')?;
    Ok(())
}

/// Appends the digits of a tag.
fn push_tag(text: &mut Vec<u8>, tag: u32) -> Result<(), AllocError>
    ensures { OnOk result (text.new.items ≡ text.old.items ++ tag_field tag) }
{
    push_hex(text, &tag.to_be_bytes())
}

/// Appends the id of the machine's start, or that it is not known.
fn push_boot(text: &mut Vec<u8>, boot: &Option<BootId>) -> Result<(), AllocError>
    ensures { OnOk result (text.new.items ≡ text.old.items ++ boot_field boot.now) }
{
    match boot {
        Some(id) => text.extend_from_slice(id.text()),
        None => text.extend_from_slice(b"unknown"),
    }
}

/// Appends whether the journal was put on its disk.
fn push_sync(text: &mut Vec<u8>, sync: bool) -> Result<(), AllocError>
    ensures { OnOk result (text.new.items ≡ text.old.items ++ sync_field sync) }
{
    if sync {
        text.extend_from_slice(b"sync")
    } else {
        text.extend_from_slice(b"nosync")
    }
}
