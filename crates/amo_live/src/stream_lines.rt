//! The lines of a stream that a sender keeps.
ghost use Rattle.std.specs.Prelude.{◌≡◌, ◌-◌, ◌≤◌, ◌++◌, ◌∷◌, [], IfOk, OnOk, drop};
ghost use Rattle.std.specs.List.{filter};
ghost use Rattle.amo_live.specs.Unanswered.{is_put, kept_of, left_by, others, text_on};

use std::alloc::{AllocError, Global};
use std::collections::VecDeque;
use std::marker::Model;

/// How many buffers of lines that are kept no more wait for others.
const MOST_SPARE: usize = 64;

/// What a line tells.
#[derive(Clone, Copy)]
pub(crate) enum Kind {
    /// A message was put.
    Put,
    /// A handshake began, or the accept came for which it asked.
    Handshake,
}

/// A line that is kept. Contracts see what it tells, and its text.
#[derive(Drop)]
struct KeptLine {
    kind: Kind,
    text: Vec<u8>,
}

impl Model for KeptLine {
    ghost use Rattle.amo_live.specs.Unanswered.{Kept};

    ghost Value = { Kept };

    ghost view = { λ l. record { kind = l.kind; text = l.text.items } };
}

impl KeptLine {
    /// Whether it is that of a put.
    fn is_put(&self) -> bool
        ensures { result ≡ is_put self.now }
    {
        match self.kind {
            Kind::Put => true,
            Kind::Handshake => false,
        }
    }
}

/// The lines of a stream that are kept, in the order in which they were written. The end of a handshake costs what it drops from the front: what tells of
/// that handshake behind messages that still wait is left out from then on, and dropped with these. Contracts see the lines that are kept.
#[derive(Drop)]
pub(crate) struct StreamLines {
    written: VecDeque<KeptLine>,
    /// How many of them tell of a handshake.
    of_handshakes: usize,
    /// So many of these, the first, are left out.
    left_out: usize,
}

impl Model for StreamLines {
    ghost use Rattle.std.specs.Prelude.{◌≡◌, ◌≤◌, List};
    ghost use Rattle.amo_live.specs.Unanswered.{Kept, kept_of, others};

    ghost Value = { List Kept };

    ghost view = { λ l. kept_of l.left_out l.written.items };

    ghost invariant = { λ l. (l.of_handshakes ≡ others l.written.items) × (l.left_out ≤ l.of_handshakes) };
}

impl StreamLines {
    /// None is kept.
    pub(crate) fn new(alloc: Global) -> StreamLines
        ensures { result ≡ [] }
    {
        StreamLines {
            written: VecDeque::new(alloc),
            of_handshakes: 0,
            left_out: 0,
        }
    }

    /// One more is kept, in a buffer that another one left, if there is one.
    pub(crate) fn keep(
        &mut self,
        alloc: Global,
        spare: &mut Vec<Vec<u8>>,
        kind: Kind,
        line: &[u8],
    ) -> Result<(), AllocError>
        ensures { OnOk result (self.new ≡ self.old ++ record { kind = kind; text = line.now } ∷ []) }
    {
        let text = copied(alloc, spare, line)?;
        let kept = KeptLine { kind, text };
        let more = usize::from(!kept.is_put());
        self.written.push_back(kept)?;
        self.of_handshakes = self.of_handshakes.saturating_add(more);
        Ok(())
    }

    /// A handshake of so many messages ended: the first so many puts are kept no more, nor what tells of a handshake.
    pub(crate) fn end(&mut self, spare: &mut Vec<Vec<u8>>, messages: u64)
        ensures { self.new ≡ left_by messages self.old }
    {
        let of_handshakes = drop_puts(&mut self.written, spare, messages, self.of_handshakes);
        self.of_handshakes = of_handshakes;
        self.left_out = of_handshakes;
    }

    /// None is kept any more.
    pub(crate) fn forget(&mut self)
        ensures { self.new ≡ [] }
    {
        self.written.clear();
        self.of_handshakes = 0;
        self.left_out = 0;
    }

    /// Appends those that are kept.
    pub(crate) fn push_to(&self, text: &mut Vec<u8>) -> Result<(), AllocError>
        ensures { OnOk result (text.new.items ≡ text.old.items ++ text_on self.now) }
    {
        let (front, behind) = self.written.as_slices();
        let left_out = push_texts(front, self.left_out, text)?;
        push_texts(behind, left_out, text)?;
        Ok(())
    }
}

/// So many puts are dropped from the front, with all lines up to the last of them. Answers how many lines are left that tell of a handshake, where so many
/// did.
fn drop_puts(
    lines: &mut VecDeque<KeptLine>,
    spare: &mut Vec<Vec<u8>>,
    puts: u64,
    of_handshakes: usize,
) -> usize
    ensures puts { filter is_put lines.new.items ≡ drop puts (filter is_put lines.old.items) }
    ensures others { of_handshakes ≡ others lines.old.items → result ≡ others lines.new.items }
{
    let mut left = puts;
    let mut others = of_handshakes;
    'lines: while left > 0 {
        let Some(line) = lines.pop_front() else {
            break;
        };
        if line.is_put() {
            left -= 1;
        } else {
            others = others.saturating_sub(1);
        }
        give_back(spare, line.text);
    }
    others
}

/// Appends these lines, but for so many of the first that tell of a handshake. Answers how many more are to be left out.
fn push_texts(lines: &[KeptLine], left_out: usize, text: &mut Vec<u8>) -> Result<usize, AllocError>
    ensures text { OnOk result (text.new.items ≡ text.old.items ++ text_on (kept_of left_out lines.now)) }
    ensures left { IfOk result (λ left. left ≡ left_out - others lines.now) }
{
    let mut left = left_out;
    'lines: for line in lines {
        if left > 0 && !line.is_put() {
            left -= 1;
        } else {
            text.extend_from_slice(line.text.as_slice())?;
        }
    }
    Ok(left)
}

/// A copy of a line, in a buffer that another one left, if there is one.
fn copied(alloc: Global, spare: &mut Vec<Vec<u8>>, line: &[u8]) -> Result<Vec<u8>, AllocError>
    ensures { IfOk result (λ text. text.items ≡ line.now) }
{
    let mut text = spare.pop().unwrap_or(Vec::new(alloc));
    text.clear();
    text.extend_from_slice(line)?;
    Ok(text)
}

/// The buffer of a line that is kept no more waits for another one, unless enough do.
fn give_back(spare: &mut Vec<Vec<u8>>, text: Vec<u8>) {
    if spare.len() < MOST_SPARE {
        let _ = spare.push(text);
    }
}
