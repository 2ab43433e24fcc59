//! Reads the file of lives.
ghost use Rattle.std.specs.Prelude.{◌≡◌, ◌<◌, ◌↔◌, ◌++◌, ◌∷◌, [], ℕ, List, length, IfOk, IfErr, IsTrue, OnOk};
ghost use Rattle.amo_text.specs.Line.{Lacks};
ghost use Rattle.amo_lives.specs.Fault.{Faults, LineFaults};
ghost use Rattle.amo_lives.specs.Kept.{StopsAt, TakesAll, TakesLine};
ghost use Rattle.amo_lives.specs.Lives.{LivesState, Tells, text_of_lives};

use crate::line_reader::{begins_heading, read_heading, read_life};
use crate::lives::line_of;
use crate::{Lives, LivesFault};
use amo_object::End;
use amo_text::next_line;
use std::alloc::Global;

/// What a file tells of lives.
#[derive(Drop)]
pub struct LivesFile {
    /// The lives.
    pub lives: Lives,
    /// How many bytes the whole lines have. What is behind them is a line that was torn, which has to be cut off before another one is written.
    pub whole: usize,
}

impl LivesFile {
    /// Whether it has a heading alone, behind which the first life was torn, where so many bytes were read. What that life told of the journal is lost.
    pub fn lacks_first_life(&self, bytes: usize) -> bool
        ensures { IsTrue result ↔ (self.now.lives.lives ≡ []) × (self.now.whole < bytes) }
    {
        self.lives.lives().is_empty() && self.whole < bytes
    }
}

impl Lives {
    /// Reads the file of lives of the host of this side. A last line without its end is left out. The bytes tell of the lives that it answers, and of
    /// no others.
    ///
    /// A fault that names a line names the first that has one, counted from 1.
    pub fn read(alloc: Global, side: End, bytes: &[u8]) -> Result<LivesFile, LivesFault>
        ensures side { IfOk result (λ file. file.lives.side ≡ side) }
        ensures told { IfOk result (λ file. Tells file.lives bytes.now) }
        ensures whole { IfOk result (λ file. file.whole ≡ length (text_of_lives file.lives)) }
        ensures only { IfOk result (λ file. (others : LivesState) → Tells others bytes.now → others ≡ file.lives) }
        ensures fault { IfErr result (λ fault. Faults side bytes.now fault) }
    {
        let Some((text, body)) = next_line(bytes) else {
            return Err(without_line(side, bytes));
        };
        let Some(heading) = read_heading(text) else {
            return Err(LivesFault::Foreign);
        };
        if heading.side != side {
            return Err(LivesFault::OtherSide);
        }
        let key = heading.key;
        let mut lives = Lives::new(alloc, side, key);
        let torn = lives.read_lines(body)?;
        let whole = bytes.len() - torn;
        Ok(LivesFile { lives, whole })
    }
}

/// The fault of bytes without a line's end.
fn without_line(side: End, bytes: &[u8]) -> LivesFault
    requires { Lacks 10 bytes.now }
    ensures { Faults side bytes.now result }
{
    if begins_heading(side, bytes) {
        LivesFault::NoHeading
    } else {
        LivesFault::Foreign
    }
}

impl Lives {
    /// Takes the lives of all lines in front, and answers how many bytes are behind them.
    fn read_lines(&mut self, body: &[u8]) -> Result<usize, LivesFault>
        ensures taken { IfOk result (TakesAll self.old self.new body.now) }
        ensures fault { IfErr result (StopsAt self.old body.now) }
    {
        let mut rest = body;
        while let Some((text, more)) = next_line(rest) {
            self.take_line(text)?;
            rest = more;
        }
        Ok(rest.len())
    }

    /// Takes the life of whose line this is the text. A fault names the line.
    fn take_line(&mut self, text: &[u8]) -> Result<(), LivesFault>
        requires { Lacks 10 text.now }
        ensures taken { OnOk result (TakesLine self.old self.new text.now) }
        ensures fault { IfErr result (λ fault. (more : List ℕ) → LineFaults self.old.lives (text.now ++ 10 ∷ more) fault) }
    {
        let line = line_of(self.lives().len());
        let Some(life) = read_life(text) else {
            return Err(LivesFault::Malformed(line));
        };
        if self.has_tag(life.tag) {
            return Err(LivesFault::SameTag(line));
        }
        if life.first_line < self.reach() {
            return Err(LivesFault::Falls(line));
        }
        self.add(&life)?;
        Ok(())
    }
}
