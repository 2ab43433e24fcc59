//! The numbers of a life: what makes it harmless to ask again.
ghost use Rattle.std.specs.Prelude.{◌≡◌, ◌==◌, ◌+◌, ◌<◌, ◌^◌, ◌↔◌, ◌∷◌, [], Some, None, List, IfOk, IsTrue, SomeIff, option_copied, replicate};
ghost use Rattle.amo_door.specs.declared.claim.Decision.TheVariants.{Next};
ghost use Rattle.amo_door.specs.Numbers.{HasStream, chosen, decision, is_for, last_of, made_for, made_for_none, number_of, with_last};
ghost use Rattle.amo_door.specs.Turns.{Answer, Answers, Fresh, Claimed, Keeps, Turn, Unclaimed, fresh};

use crate::{Claim, Decision, EventPlace, Made, Word};
use amo_packet::Message;
use std::alloc::{AllocError, Global};
use std::marker::Model;

/// What was made last on each stream in a life of a host. It takes no memory but at its start and for the last message of each stream, which it is
/// handed.
///
/// A history of turns is behind it, of which contracts speak: what was asked and answered. It keeps what [`Numbers`]' calls need of them.
#[derive(Drop)]
pub struct Numbers {
    life: Word,
    // The first stream first.
    lasts: Vec<Option<Made>>,
}

impl Model for Numbers {
    ghost use Rattle.amo_door.specs.Numbers.{Table};

    ghost Value = { Table };

    ghost view = { λ s. record { life = s.life; lasts = s.lasts.items } };
}

impl Numbers {
    /// Nothing yet in this life, on so many streams.
    pub fn new(alloc: Global, life: Word, streams: u32) -> Result<Numbers, AllocError>
        ensures value { IfOk result (λ numbers. numbers ≡ record { life = life; lasts = replicate streams None }) }
        ensures turns { IfOk result (λ numbers. Keeps [] numbers) }
    {
        let mut lasts = Vec::with_capacity(alloc, streams as usize)?;
        for _stream in 0..streams {
            lasts.push(None)?;
        }
        Ok(Numbers { life, lasts })
    }

    /// The life.
    pub fn life(&self) -> &Word
        ensures { result.now ≡ self.now.life }
    {
        &self.life
    }

    /// Whether there is such a stream.
    pub fn has_stream(&self, stream: u32) -> bool
        ensures { IsTrue result ↔ HasStream self.now stream }
    {
        1 <= stream && stream as usize <= self.lasts.len()
    }

    /// What was made last on this stream.
    pub fn last(&self, stream: u32) -> Option<&Made>
        requires { HasStream self.now stream }
        ensures { option_copied result ≡ last_of self.now stream }
    {
        self.lasts[stream as usize - 1].as_ref()
    }

    /// The number that comes next on this stream; none where numbers are used up.
    pub fn next_number(&self, stream: u32) -> Option<u64>
        requires { HasStream self.now stream }
        ensures { SomeIff result (number_of (last_of self.now stream) + 1 < 2 ^ 64) (number_of (last_of self.now stream) + 1) }
    {
        self.last_number(stream).checked_add(1)
    }

    /// The number of what was made last on this stream; 0 where nothing was.
    pub fn last_number(&self, stream: u32) -> u64
        requires { HasStream self.now stream }
        ensures { result ≡ number_of (last_of self.now stream) }
    {
        match &self.lasts[stream as usize - 1] {
            Some(made) => made.number,
            None => 0,
        }
    }

    /// What is to be done with a claim to put this message.
    pub fn decide_put(&self, claim: &Claim, message: &[u8]) -> Decision
        requires { HasStream self.now claim.now.stream }
        ensures value { result ≡ decision self.now.life (last_of self.now claim.now.stream) claim.now (Some message.now) }
        ensures turns { (turns : List Turn) (answer : Answer) → Keeps turns self.now → Answers result (last_of self.now claim.now.stream) claim.now (Some message.now) answer
            → fresh answer ≡ None → Keeps (Claimed claim.now (Some message.now) answer ∷ turns) self.now }
    {
        let is_again = match self.last(claim.stream) {
            Some(made) => is_for(made, claim) && made.message.bytes() == message,
            None => false,
        };
        self.choose(claim, is_again)
    }

    /// What is to be done with a claim to take a message.
    pub fn decide_take(&self, claim: &Claim) -> Decision
        requires { HasStream self.now claim.now.stream }
        ensures value { result ≡ decision self.now.life (last_of self.now claim.now.stream) claim.now None }
        ensures turns { (turns : List Turn) (answer : Answer) → Keeps turns self.now → Answers result (last_of self.now claim.now.stream) claim.now None answer
            → fresh answer ≡ None → Keeps (Claimed claim.now None answer ∷ turns) self.now }
    {
        let is_again = match self.last(claim.stream) {
            Some(made) => is_for(made, claim),
            None => false,
        };
        self.choose(claim, is_again)
    }

    /// What is to be done with a claim, which is or is not for the last number again.
    fn choose(&self, claim: &Claim, is_again: bool) -> Decision
        requires { HasStream self.now claim.now.stream }
        ensures { result ≡ chosen self.now.life (last_of self.now claim.now.stream) claim.now is_again }
    {
        if self.life != claim.life {
            return Decision::OtherLife;
        }
        if is_again {
            return Decision::Again;
        }
        if self.is_next(claim.stream, claim.number) {
            Decision::Next
        } else {
            Decision::Conflict
        }
    }

    /// Whether this number comes next on this stream.
    fn is_next(&self, stream: u32, number: u64) -> bool
        requires { HasStream self.now stream }
        ensures { result ≡ (number == (number_of (last_of self.now stream) + 1)) }
    {
        match self.next_number(stream) {
            Some(next) => number == next,
            None => false,
        }
    }

    /// The message of this claim was put, for the first time, and its event stands there.
    pub fn note_put(&mut self, claim: Claim, message: Message, place: EventPlace)
        requires stream { HasStream self.old claim.stream }
        requires next { decision self.old.life (last_of self.old claim.stream) claim (Some message) ≡ Next }
        ensures value { self.new ≡ with_last self.old claim.stream (made_for claim message place) }
        ensures turns { (turns : List Turn) → Keeps turns self.old → Keeps (Claimed claim (Some message) (Fresh (made_for claim message place)) ∷ turns) self.new }
    {
        self.keep_claimed(claim, message, place);
    }

    /// This message was got for this claim, for the first time, and its event stands there.
    pub fn note_take(&mut self, claim: Claim, message: Message, place: EventPlace)
        requires stream { HasStream self.old claim.stream }
        requires next { decision self.old.life (last_of self.old claim.stream) claim None ≡ Next }
        ensures value { self.new ≡ with_last self.old claim.stream (made_for claim message place) }
        ensures turns { (turns : List Turn) → Keeps turns self.old → Keeps (Claimed claim None (Fresh (made_for claim message place)) ∷ turns) self.new }
    {
        self.keep_claimed(claim, message, place);
    }

    /// This message was put without a number, and its event stands there. It has the next number all the same, and no caller.
    pub fn note_unclaimed(&mut self, stream: u32, message: Message, place: EventPlace)
        requires stream { HasStream self.old stream }
        requires next { number_of (last_of self.old stream) + 1 < 2 ^ 64 }
        ensures value { self.new ≡ with_last self.old stream (made_for_none (last_of self.old stream) message place) }
        ensures turns { (turns : List Turn) → Keeps turns self.old → Keeps (Unclaimed stream (made_for_none (last_of self.old stream) message place) ∷ turns) self.new }
    {
        let number = self.last_number(stream) + 1;
        self.keep(
            stream,
            Made {
                number,
                by: None,
                message,
                place,
            },
        );
    }

    /// This was made for a claim.
    fn keep_claimed(&mut self, claim: Claim, message: Message, place: EventPlace)
        requires { HasStream self.old claim.stream }
        ensures { self.new ≡ with_last self.old claim.stream (made_for claim message place) }
    {
        let Claim {
            stream,
            number,
            life: _,
            by,
        } = claim;
        self.keep(
            stream,
            Made {
                number,
                by: Some(by),
                message,
                place,
            },
        );
    }

    /// This was made last on a stream.
    fn keep(&mut self, stream: u32, made: Made)
        requires { HasStream self.old stream }
        ensures { self.new ≡ with_last self.old stream made }
    {
        self.lasts[stream as usize - 1] = Some(made);
    }
}

/// Whether this was made under the number of a claim, for its caller.
fn is_for(made: &Made, claim: &Claim) -> bool
    ensures { result ≡ is_for made.now claim.now }
{
    made.number == claim.number
        && match &made.by {
            Some(by) => *by == claim.by,
            None => false,
        }
}
