//! How streams are, and what became of messages.
ghost use Rattle.std.specs.Prelude.{◌≡◌, ◌≢◌, ◌+◌, IfOk, OnOk, true};
ghost use Rattle.amo_door.specs.Numbers.{HasStream, last_of, number_of};
ghost use Rattle.amo_serve.specs.Fates.{present_fate};
ghost use Rattle.amo_serve.specs.Serving.{IsAtOnce};
ghost use Rattle.amo_serve.specs.States.{HasLooked, IsRefused, TellsOrWaits, TellsPresent, TellsState, is_reached, last_told, receiver_told, sender_told, side_of, summary_at};
ghost use Rattle.amo_door.specs.declared.refusal.Refusal.TheVariants.{NoStream};
ghost use Rattle.amo_serve.specs.declared.responder.Reply.TheVariants as reply;

use crate::responder::{Reply, Responder};
use amo_core::Summary;
use amo_door::{Answer, Fate, Last, ReceiverState, Refusal, SenderState, Word};
use amo_live::{Lineage, LiveFault};
use amo_net::Link;
use amo_object::End;
use amo_text::Sink;

impl<L: Link, S: Sink, W: Lineage> Responder<L, S, W> {
    /// How a stream stands after all that happened at the host.
    pub(crate) fn look(&mut self, stream: u32) -> Result<Summary, LiveFault>
        ensures stands { IfOk result (λ summary. summary ≡ summary_at self.old stream) }
        ensures looked { HasLooked self.old self.new }
    {
        self.service.host.look(stream)
    }

    /// What comes of a question how a stream is, whose client waits for so many seconds at most. At a host that comes to its end nobody waits.
    pub(crate) fn respond_to_state(&mut self, stream: u32, wait: u64) -> Result<Reply, LiveFault>
        ensures told { HasStream self.old.numbers stream → IfOk result (TellsOrWaits (side_of self.old) (summary_at self.old stream) self.old.numbers stream wait) }
        ensures no_stream { ¬ (HasStream self.old.numbers stream) → IfOk result (IsRefused NoStream) }
        ensures ends { self.old.ends ≡ true → IfOk result IsAtOnce }
        ensures looked { HasLooked self.old self.new }
    {
        if !self.has_stream(stream) {
            return self.refuse(Refusal::NoStream);
        }
        let summary = self.look(stream)?;
        if wait > 0 && !self.ends && !self.is_reached(&summary) {
            return Ok(Reply::State { stream, wait });
        }
        Ok(Reply::Answer(self.state(stream, &summary)?))
    }

    /// Whether what is waited for at a stream that stands so is so: its last message has settled, or its next one is ready.
    pub(crate) fn is_reached(&self, summary: &Summary) -> bool
        ensures { result ≡ is_reached (side_of self.now) summary.now }
    {
        match self.service.host.side() {
            End::Sender => summary.known.is_some(),
            End::Receiver => summary.held > 0,
        }
    }

    /// How a stream is that stands so.
    pub(crate) fn state(&self, stream: u32, summary: &Summary) -> Result<Answer, LiveFault>
        requires { HasStream self.now.numbers stream }
        ensures { IfOk result (TellsState (side_of self.now) summary.now self.now.numbers stream) }
    {
        let life = self.numbers.life();
        match self.service.host.side() {
            End::Sender => {
                let state = self.sender_state(stream, summary);
                Ok(Answer::sender(self.alloc, life, stream, state)?)
            }
            End::Receiver => {
                let state = self.receiver_state(stream, summary);
                Ok(Answer::receiver(self.alloc, life, stream, state)?)
            }
        }
    }

    /// How a stream of the sender is that stands so.
    pub(crate) fn sender_state(&self, stream: u32, summary: &Summary) -> SenderState
        requires { HasStream self.now.numbers stream }
        ensures { result ≡ sender_told summary.now (number_of (last_of self.now.numbers stream)) }
    {
        let put = self.numbers.last_number(stream);
        SenderState {
            put,
            waiting: summary.waiting as u64,
            last: last_known(summary, put),
        }
    }

    /// How a stream of the receiver is that stands so.
    pub(crate) fn receiver_state(&self, stream: u32, summary: &Summary) -> ReceiverState
        requires { HasStream self.now.numbers stream }
        ensures { result ≡ receiver_told summary.now (number_of (last_of self.now.numbers stream)) }
    {
        ReceiverState {
            taken: self.numbers.last_number(stream),
            ready: summary.held > 0,
        }
    }

    /// What comes of a question what became of the message of a number in a life.
    pub(crate) fn respond_to_outcome(
        &mut self,
        stream: u32,
        number: u64,
        life: Word,
    ) -> Result<Reply, LiveFault>
        ensures present { HasStream self.old.numbers stream → life ≡ self.old.numbers.life → IfOk result (TellsPresent (summary_at self.old stream) self.old.numbers self.old.handshakes stream number) }
        ensures earlier { HasStream self.old.numbers stream → life ≢ self.old.numbers.life → IfOk result (λ r. r ≡ reply.Fate stream number life) }
        ensures no_stream { ¬ (HasStream self.old.numbers stream) → IfOk result (IsRefused NoStream) }
        ensures looked { HasLooked self.old self.new }
    {
        if !self.has_stream(stream) {
            return self.refuse(Refusal::NoStream);
        }
        if *self.numbers.life() != life {
            return Ok(Reply::Fate {
                stream,
                number,
                life,
            });
        }
        let summary = self.look(stream)?;
        Ok(Reply::Answer(self.present_outcome(stream, number, &summary)?))
    }

    /// What became of the message of a number in this life, on a stream that stands so.
    fn present_outcome(
        &self,
        stream: u32,
        number: u64,
        summary: &Summary,
    ) -> Result<Answer, LiveFault>
        requires { HasStream self.now.numbers stream }
        ensures { IfOk result (λ answer. TellsPresent summary.now self.now.numbers self.now.handshakes stream number (reply.Answer answer)) }
    {
        let life = self.numbers.life();
        let was_got = self.handshakes.has_got(stream, number);
        let put = self.numbers.last_number(stream);
        match fate_of(summary, put, number, was_got) {
            Some(fate) => Ok(Answer::outcome(self.alloc, life, stream, number, fate)?),
            None => {
                let state = self.sender_state(stream, summary);
                Ok(Answer::conflict_at_sender(self.alloc, life, stream, state)?)
            }
        }
    }
}

/// What is known of the last message of a stream that stands so, and on which so many were put.
fn last_known(summary: &Summary, put: u64) -> Last
    ensures { result ≡ last_told summary.now.known put }
{
    if put == 0 {
        return Last::None;
    }
    match summary.known {
        Some(true) => Last::Yes,
        Some(false) => Last::No,
        None => Last::Open,
    }
}

/// What became of the message of this number on a stream on which so many were put, in this life; none where it was not put yet. It is open where it is
/// among the last ones, which wait or travel, and else its handshake has ended: then it was got, as that says, or was got or lost.
fn fate_of(summary: &Summary, put: u64, number: u64, was_got: bool) -> Option<Fate>
    ensures { result ≡ present_fate (summary.now.waiting + summary.now.held) put number was_got }
{
    if number == 0 || put < number {
        return None;
    }
    let open = (summary.waiting as u64).saturating_add(summary.held as u64);
    if put - number < open {
        Some(Fate::Open)
    } else if was_got {
        Some(Fate::Got)
    } else {
        Some(Fate::Settled)
    }
}
