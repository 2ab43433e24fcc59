//! The words of a live host: each of its lives has some of its own, and a line in a file that outlives it.
ghost use Rattle.std.specs.Prelude.{◌≡◌, None, false, IfOk, IfSome, IsNone, OnOk, ◌⊎◌};
ghost use Rattle.std.specs.Io.KnownBytes.{Keeps};
ghost use Rattle.amo_word.specs.Distinct.{AreDistinct};
ghost use Rattle.amo_lives.specs.Lives.{has_tag};
ghost use Rattle.amo_live.specs.HostLives.{BeginsLife, Draws, IsBehind, IsDrawn, IsTagFor, tag_behind, to_come};
ghost use Rattle.amo_live.specs.Words.{IsNew, StaysDrawn};

use crate::{Durable, Lineage, LiveFault};
use amo_lives::{BootId, Life, Lives};
use amo_word::{ChaChaWords, DistinctWords, Words};
use std::alloc::Global;
use std::marker::Model;

/// The lives of a host, kept in a sink, and the words of the last one. A life begins when its first word is drawn: one that draws none has no line.
///
/// Contracts see the lives, how far the words of the last one have come, the sink, and what each next life is to tell.
#[derive(Drop)]
pub struct HostLives<S> {
    lives: Lives,
    words: Option<DistinctWords>,
    tags: ChaChaWords,
    sink: S,
    // The line of a life is made whole here before it is written.
    room: Vec<u8>,
    boot: Option<BootId>,
    sync: bool,
}

impl<S> Model for HostLives<S> {
    ghost use Rattle.std.specs.Prelude.{IfSome};
    ghost use Rattle.amo_live.specs.HostLives.{AreOwn, HostLivesState};

    ghost Value = { HostLivesState S };

    ghost view = { λ h. record { lives = h.lives; words = h.words; sink = h.sink; boot = h.boot; sync = h.sync } };

    ghost invariant = { λ h. IfSome h.words (AreOwn h.lives) };
}

impl<S> HostLives<S> {
    /// The lives that a sink has the lines of, behind which lines of more are written. The next ones have tags of these words, which are to be random,
    /// and tell of this start of the machine, and of whether the journal and their lines are put on the disk.
    pub fn new(
        alloc: Global,
        lives: Lives,
        tags: ChaChaWords,
        sink: S,
        boot: Option<BootId>,
        sync: bool,
    ) -> HostLives<S>
        ensures { result ≡ record { lives = lives; words = None; sink = sink; boot = boot; sync = sync } }
    {
        HostLives {
            lives,
            words: None,
            tags,
            sink,
            room: Vec::new(alloc),
            boot,
            sync,
        }
    }
}

impl<S: Durable> HostLives<S> {
    /// Begins one life more, whose next line in the journal has this number, and draws its first word. Where words of this process are used up, that life
    /// goes on for the one that had them. Its line is written before that, and put on its disk, also where the journal is not: what a loss of power takes of
    /// the journal is told by the lives.
    pub fn begin_life(&mut self, next_line: u64) -> Result<u64, LiveFault>
        ensures life { OnOk result (BeginsLife S.written self.old self.new next_line) }
        ensures on_disk { OnOk result (S.on_disk self.new.sink ≡ S.written self.new.sink) }
        ensures new { IfOk result (IsNew (IsDrawn self.old.lives self.old.words) (IsDrawn self.new.lives self.new.words)) }
        ensures stays { OnOk result (StaysDrawn (IsDrawn self.old.lives self.old.words) (IsDrawn self.new.lives self.new.words)) }
    {
        if next_line < self.lives.reach() {
            return Err(LiveFault::Lives);
        }
        let tag = draw_tag(&self.lives, self.words.is_some(), &mut self.tags)?;
        let life = Life {
            tag,
            first_line: next_line,
            boot: self.boot,
            sync: self.sync,
        };
        self.words = None;
        let mut words = self.lives.begin(&mut self.room, life, &mut self.sink)?;
        put_on_disk(&mut self.sink)?;
        let Some(word) = next_nonzero(&mut words) else {
            unreachable!()
        };
        self.words = Some(words);
        Ok(word)
    }
}

/// A tag that no life has, for one more: where it goes on for the last one, whose words are used up, that behind its tag, which no start takes.
fn draw_tag(lives: &Lives, goes_on: bool, tags: &mut ChaChaWords) -> Result<u32, LiveFault>
    ensures free { IfOk result (λ tag. has_tag lives.now.lives tag ≡ false) }
    ensures own { IfOk result (IsTagFor goes_on (tag_behind lives.now.lives)) }
{
    let behind = tag_behind(lives.lives());
    if goes_on {
        return match behind {
            Some(tag) if !lives.has_tag(tag) => Ok(tag),
            _ => Err(LiveFault::Lives),
        };
    }
    match lives.draw_tag(tags) {
        Ok(tag) if behind != Some(tag) => Ok(tag),
        _ => Err(LiveFault::Lives),
    }
}

/// The tag of the life that goes on for the last of these, if there is one.
fn tag_behind(lives: &[Life]) -> Option<u32>
    ensures { result ≡ tag_behind lives.now }
{
    match lives.last() {
        Some(life) => Some(life.next_tag()),
        None => None,
    }
}

impl<S: Durable> Lineage for HostLives<S> {
    ghost is_drawn = { λ h. IsDrawn h.lives h.words };

    fn next(&mut self) -> Option<u64> {
        next_nonzero(self.words.as_mut()?)
    }

    fn begin(&mut self, next_line: u64) -> Result<u64, LiveFault> {
        self.begin_life(next_line)
    }
}

/// Puts the lines on their disk.
#[tactic(auto, using(crate::proofs::OwnWords::keeps_itself))]
fn put_on_disk<S: Durable>(sink: &mut S) -> Result<(), LiveFault>
    ensures kept { Keeps (S.written sink.old) (S.written sink.new) }
    ensures on_disk { OnOk result (S.on_disk sink.new ≡ S.written sink.new) }
{
    match sink.sync() {
        Ok(()) => Ok(()),
        Err(_) => Err(LiveFault::Lives),
    }
}

/// The next of these words that is not 0, of which no two are equal.
fn next_nonzero(words: &mut DistinctWords) -> Option<u64>
    requires { AreDistinct (to_come words.old) }
    ensures drawn { IfSome result (Draws (to_come words.old) (to_come words.new)) }
    ensures behind { IsBehind (to_come words.old) (to_come words.new) }
    ensures none { IsNone result → (to_come words.old 0 ≡ None) ⊎ (to_come words.old 1 ≡ None) }
{
    match words.next()? {
        0 => words.next(),
        word => Some(word),
    }
}
