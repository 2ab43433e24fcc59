//! The acts of a host: each is an event, then its line in the journal, then a packet that is to leave.
ghost use Rattle.std.specs.Prelude.{◌≡◌, ◌∷◌, Contains, IfNone, IfOk, IfSome, OnOk, OnErr, Some, true};
ghost use Rattle.amo_packet.specs.Packet.{body_of};
ghost use Rattle.amo_core.specs.declared.act.Act.TheVariants as act;
ghost use Rattle.amo_core.specs.declared.act.Act.TheVariants.{Resend};
ghost use Rattle.amo_core.specs.declared.mode.Mode.TheVariants.{Send};
ghost use Rattle.amo_core.specs.declared.reply.Reply.TheVariants as reply;
ghost use Rattle.amo_journal.specs.declared.version.Version.TheVariants.{Two};
ghost use Rattle.amo_journal.specs.Version.{HasBatches};
ghost use Rattle.amo_book.specs.Pass.{event, mine};
ghost use Rattle.amo_host.specs.AtStream.{HasMode, hastened};
ghost use Rattle.amo_host.specs.Host.{streams_of};
ghost use Rattle.amo_host.specs.Station.{BelongTogether, IsStation};
ghost use Rattle.amo_live.specs.Due.{Resent, repeated_if};
ghost use Rattle.amo_live.specs.Unanswered.{step_of, stepped};
ghost use Rattle.amo_live.specs.Host.{Delivered, Did, Drives, HasLines, IsBegun, IsNoted, IsWhole, Looks, MayNotBegin, MayNotStart, NotedLast, Stays, Suits, Tried, comes_back, done, done_of, held_on, is_start, word_for};

use crate::noting::note_answer;
use crate::unanswered::{Step, step_of};
use crate::{GivenWord, Host, LiveFault};
use amo_book::{Book, Done, Foreseen, Pass};
use amo_core::{Act, Mode, Reply};
use amo_host::{Pump, PumpFault, Turned};
use amo_net::Link;
use amo_object::End;
use amo_packet::{Body, MAX_PACKET, Packet};
use amo_text::Sink;
use std::alloc::AllocError;

/// The time of an event that sets no timer.
const NO_TIME: u64 = 0;

/// What a look ahead at an act tells.
#[derive(Clone, Copy)]
struct Outlook {
    /// The act would change nothing, and emit nothing or only a packet that was emitted of late.
    is_repetition: bool,
    /// How many messages are of the stream's handshake now, where the act would change something.
    held: Option<u64>,
}

impl<L: Link, S: Sink> Host<L, S> {
    /// Begins a handshake on a stream under this word, if its sender is at rest, a message waits and no more handshakes are open than may be. Answers
    /// the kind of its mode then.
    #[tactic(auto, using(crate::proofs::Suiting::start_suits))]
    pub fn start(&mut self, stream: u32, word: u64, now: u64) -> Result<Option<Mode>, LiveFault>
        requires { IsNoted S.written self.old }
        ensures did { IfOk result (Did self.old self.new stream (act.Start word)) }
        ensures waits { IfOk result (λ mode. IfNone mode (MayNotStart self.old stream)) }
        ensures noted { OnOk result (IsNoted S.written self.new) }
        ensures begun { OnErr result (IsBegun S.written self.new) }
        ensures stays { Stays self.old self.new }
    {
        if self.side == End::Sender {
            self.perform(stream, Act::Start(word), now, None)
        } else {
            Ok(None)
        }
    }

    /// The same for the messages that wait, at most four, which travel together.
    #[tactic(auto, using(crate::proofs::Suiting::batch_suits))]
    pub fn start_batch(
        &mut self,
        stream: u32,
        word: u64,
        now: u64,
    ) -> Result<Option<Mode>, LiveFault>
        requires noted { IsNoted S.written self.old }
        requires batches { HasBatches self.old.journal.version }
        ensures did { IfOk result (Did self.old self.new stream (act.Batch word)) }
        ensures waits { IfOk result (λ mode. IfNone mode (MayNotStart self.old stream)) }
        ensures noted { OnOk result (IsNoted S.written self.new) }
        ensures begun { OnErr result (IsBegun S.written self.new) }
        ensures stays { Stays self.old self.new }
    {
        if self.side == End::Sender {
            self.perform(stream, Act::Batch(word), now, None)
        } else {
            Ok(None)
        }
    }

    /// Lets the packet of a stream's mode leave again, where it was emitted before; or nothing, where the mode has none. That is no event. Answers
    /// whether it was so: otherwise [`Host::resend`] does it by one.
    pub fn repeat(&mut self, stream: u32, now: u64) -> Result<bool, LiveFault>
        requires { IsNoted S.written self.old }
        ensures looks { IfOk result (Looks self.old self.new stream act.Resend) }
        ensures timed { IfOk result (λ again. Contains (streams_of self.old.pump.host.modes) stream → self.new.pump ≡ repeated_if again stream now self.old.pump) }
        ensures noted { IsNoted S.written self.new }
        ensures stays { Stays self.old self.new }
    {
        let is_repeated = self.look_ahead(stream, &Act::Resend)?.is_repetition;
        if is_repeated {
            self.pump.repeat(stream, now);
            self.traffic.again = self.traffic.again.saturating_add(1);
        }
        Ok(is_repeated)
    }

    /// Emits the packet of a stream's mode again, if it has one.
    #[tactic(auto, using(crate::proofs::Suiting::resend_suits))]
    pub fn resend(&mut self, stream: u32, now: u64) -> Result<Option<Mode>, LiveFault>
        requires { IsNoted S.written self.old }
        ensures did { IfOk result (Did self.old self.new stream act.Resend) }
        ensures resent { IfOk result (λ mode. IfSome mode (Resent now self.old.pump self.new.pump stream)) }
        ensures noted { OnOk result (IsNoted S.written self.new) }
        ensures begun { OnErr result (IsBegun S.written self.new) }
        ensures stays { Stays self.old self.new }
    {
        self.perform(stream, Act::Resend, now, None)
    }

    /// A stream's side goes down, and forgets everything.
    #[tactic(auto, using(crate::proofs::Suiting::crash_suits))]
    pub fn crash(&mut self, stream: u32) -> Result<Option<Mode>, LiveFault>
        requires { IsNoted S.written self.old }
        ensures did { IfOk result (Did self.old self.new stream act.Crash) }
        ensures noted { OnOk result (IsNoted S.written self.new) }
        ensures begun { OnErr result (IsBegun S.written self.new) }
        ensures stays { Stays self.old self.new }
    {
        self.perform(stream, Act::Crash, NO_TIME, None)
    }

    /// A stream's side is up again.
    #[tactic(auto, using(crate::proofs::Suiting::recover_suits))]
    pub fn recover(&mut self, stream: u32) -> Result<Option<Mode>, LiveFault>
        requires { IsNoted S.written self.old }
        ensures did { IfOk result (Did self.old self.new stream act.Recover) }
        ensures noted { OnOk result (IsNoted S.written self.new) }
        ensures begun { OnErr result (IsBegun S.written self.new) }
        ensures stays { Stays self.old self.new }
    {
        self.perform(stream, Act::Recover, NO_TIME, None)
    }

    /// Delivers the packet that a datagram is, a needuid with this word for an accept, if it is one for a side of this host, and the journal has a line
    /// for that. Answers its stream, and the kind of the side's mode then. A delivery that would change nothing, and emit nothing or only a packet that
    /// was emitted of late, is no event: the network lost that packet, and repeated the other.
    pub fn deliver(
        &mut self,
        bytes: &[u8],
        word: u64,
        now: u64,
    ) -> Result<Option<(u32, Mode)>, LiveFault>
        requires { IsNoted S.written self.old }
        ensures delivered { IfOk result (Delivered self.old self.new bytes.now word) }
        ensures noted { OnOk result (IsNoted S.written self.new) }
        ensures begun { OnErr result (IsBegun S.written self.new) }
        ensures stays { Stays self.old self.new }
    {
        let Ok(packet) = self.read(bytes) else {
            return Ok(None);
        };
        let stream = packet.stream;
        if !is_for(self.side, &packet) || self.place_of(stream).is_none() {
            return Ok(None);
        }
        let word = word_for(&packet, word);
        let Ok(packet) = packet.copied(self.alloc) else {
            return Err(LiveFault::NoMemory);
        };
        match self.attempt(stream, Act::Deliver(packet, word), now) {
            Ok(Some(mode)) => Ok(Some((stream, mode))),
            Ok(None) => Ok(None),
            Err(fault) => Err(fault),
        }
    }

    /// A peer is heard again: what is to be sent again is so as if it had been sent now for the first time.
    pub fn hasten(&mut self, now: u64)
        requires { IsNoted S.written self.old }
        ensures hastened { self.new ≡ record self.old { pump = hastened now self.old.pump } }
        ensures noted { IsNoted S.written self.new }
    {
        self.pump.hasten(now);
    }

    /// Comes back from a crash of its process: each side goes down, and is up again, in the order of the streams.
    pub fn come_back(&mut self) -> Result<(), LiveFault>
        requires { IsNoted S.written self.old }
        ensures back { OnOk result (mine self.new.pass ≡ comes_back self.old.pass.number self.old.book.sides (mine self.old.pass)) }
        ensures noted { OnOk result (IsNoted S.written self.new) }
        ensures begun { OnErr result (IsBegun S.written self.new) }
        ensures stays { Stays self.old self.new }
    {
        let streams = self.streams;
        'streams: for place in 0..streams {
            self.manage(place + 1, Act::Crash)?;
            self.manage(place + 1, Act::Recover)?;
        }
        Ok(())
    }

    /// Does this act at a stream, or cannot go on.
    fn manage(&mut self, stream: u32, act: Act) -> Result<(), LiveFault>
        requires noted { IsNoted S.written self.old }
        requires suits { Suits self.old.journal.version self.old.side stream act }
        ensures did { OnOk result (mine self.new.pass ≡ done self.old.pass.number self.old.side stream act ∷ mine self.old.pass) }
        ensures noted { OnOk result (IsNoted S.written self.new) }
        ensures begun { OnErr result (IsBegun S.written self.new) }
        ensures stays { Stays self.old self.new }
    {
        match self.perform(stream, act, NO_TIME, None)? {
            Some(_) => Ok(()),
            None => Err(LiveFault::Busy),
        }
    }

    /// Does this act at a stream, unless it is a repetition.
    fn attempt(&mut self, stream: u32, act: Act, now: u64) -> Result<Option<Mode>, LiveFault>
        requires noted { IsNoted S.written self.old }
        requires suits { Suits self.old.journal.version self.old.side stream act }
        ensures tried { IfOk result (Tried self.old self.new stream act) }
        ensures noted { OnOk result (IsNoted S.written self.new) }
        ensures begun { OnErr result (IsBegun S.written self.new) }
        ensures stays { Stays self.old self.new }
    {
        let outlook = match self.look_ahead(stream, &act) {
            Ok(outlook) => outlook,
            Err(fault) => return Err(fault),
        };
        if outlook.is_repetition {
            return Ok(None);
        }
        self.perform(stream, act, now, outlook.held)
    }

    /// Looks ahead at this act at a stream. The packet of a repetition is to leave again then.
    fn look_ahead(&mut self, stream: u32, act: &Act) -> Result<Outlook, LiveFault>
        requires { IsNoted S.written self.old }
        ensures looks { IfOk result (λ outlook. Looks self.old self.new stream act.now outlook.is_repetition) }
        ensures held { IfOk result (λ outlook. IfSome outlook.held (λ held. held ≡ held_on self.new stream)) }
        ensures noted { IsNoted S.written self.new }
        ensures stays { Stays self.old self.new }
        ensures pump { self.new.pump ≡ self.old.pump }
    {
        let Some(place) = self.place_of(stream) else {
            return Ok(Outlook {
                is_repetition: false,
                held: None,
            });
        };
        match self
            .pump
            .foresee(&self.book, &mut self.pass, stream, act, &mut self.room)
        {
            Ok(Some(Foreseen::Keeps(None))) => Ok(Outlook {
                is_repetition: true,
                held: None,
            }),
            Ok(Some(Foreseen::Keeps(Some(count)))) => {
                let Ok(known) = self.outbox.repeat(place, &self.room, count) else {
                    return Err(LiveFault::NoMemory);
                };
                Ok(Outlook {
                    is_repetition: known,
                    held: None,
                })
            }
            Ok(Some(Foreseen::Changes(summary))) => Ok(Outlook {
                is_repetition: false,
                held: Some(summary.held as u64),
            }),
            Ok(None) | Err(_) => Ok(Outlook {
                is_repetition: false,
                held: None,
            }),
        }
    }

    /// Does this act at a stream, notes it, keeps what it emitted for [`Host::send`], and of a sender the lines that still matter. Where it is known by a look
    /// ahead how many messages are of the stream's handshake, there is no other look.
    #[tactic(auto, using(crate::proofs::NotedLines::begins_noted))]
    fn perform(
        &mut self,
        stream: u32,
        act: Act,
        now: u64,
        held: Option<u64>,
    ) -> Result<Option<Mode>, LiveFault>
        requires noted { IsNoted S.written self.old }
        requires held { IfSome held (λ n. n ≡ held_on self.old stream) }
        requires suits { Suits self.old.journal.version self.old.side stream act }
        ensures did { IfOk result (Did self.old self.new stream act) }
        ensures resent { act ≡ Resend → IfOk result (λ mode. IfSome mode (Resent now self.old.pump self.new.pump stream)) }
        ensures waits { is_start act ≡ true → IfOk result (λ mode. IfNone mode (MayNotStart self.old stream)) }
        ensures noted { OnOk result (IsNoted S.written self.new) }
        ensures begun { OnErr result (IsBegun S.written self.new) }
        ensures stays { Stays self.old self.new }
    {
        let before = self.mode_of(stream);
        let travelling = match self.travelling(stream, before, held) {
            Ok(messages) => messages,
            Err(fault) => return Err(fault),
        };
        let mode = match self.note_act(stream, act, now) {
            Ok(Some(mode)) => mode,
            Ok(None) => return Ok(None),
            Err(fault) => return Err(fault),
        };
        self.meet();
        match self.keep_step(step_of(before, mode), stream, travelling) {
            Ok(()) => Ok(Some(mode)),
            Err(_) => Err(LiveFault::NoMemory),
        }
    }

    /// How many messages travel in a stream's handshake, if its side is a sender that sends, and else none. Where a look ahead told it, there is no other look.
    fn travelling(
        &mut self,
        stream: u32,
        mode: Option<Mode>,
        held: Option<u64>,
    ) -> Result<u64, LiveFault>
        requires held { IfSome held (λ n. n ≡ held_on self.old stream) }
        ensures sends { mode ≡ Some Send → IfOk result (λ messages. messages ≡ held_on self.old stream) }
        ensures whole { mode ≡ Some Send → OnOk result (IsWhole self.new.pass) }
        ensures same { self.new ≡ record self.old { other = self.new.other } }
    {
        let Some(Mode::Send) = mode else {
            return Ok(0);
        };
        if let Some(messages) = held {
            self.meet();
            return Ok(messages);
        }
        match self.look(stream) {
            Ok(summary) => Ok(summary.held as u64),
            Err(fault) => Err(fault),
        }
    }

    /// Does this step with the lines that it keeps of a stream, of which the last one is the line of its last event. So many messages travelled in the
    /// handshake, if that ended one.
    fn keep_step(&mut self, step: Step, stream: u32, travelling: u64) -> Result<(), AllocError>
        ensures kept { OnOk result (self.new.unanswered ≡ stepped step stream travelling self.old.journal.last self.old.unanswered) }
        ensures same { self.new ≡ record self.old { unanswered = self.new.unanswered } }
    {
        let line = self.journal.last_line();
        self.unanswered.step(step, stream, travelling, line)
    }

    /// Does this act at a stream, notes it, and keeps what it emitted for [`Host::send`].
    fn note_act(&mut self, stream: u32, act: Act, now: u64) -> Result<Option<Mode>, LiveFault>
        requires noted { HasLines S.written self.old }
        requires suits { Suits self.old.journal.version self.old.side stream act }
        ensures did { IfOk result (Did self.old self.new stream act) }
        ensures resent { act ≡ Resend → IfOk result (λ mode. IfSome mode (Resent now self.old.pump self.new.pump stream)) }
        ensures waits { is_start act ≡ true → IfOk result (λ mode. IfNone mode (MayNotStart self.old stream)) }
        ensures noted { OnOk result (HasLines S.written self.new) }
        ensures found { IfOk result (λ mode. IfSome mode (λ _. (known : Mode) × HasMode self.old.pump.host stream known)) }
        ensures last { IfOk result (λ mode. IfSome mode (λ _. NotedLast self.old self.new (event self.old.pass.number self.old.side stream act reply.Done))) }
        ensures kept { self.new.unanswered ≡ self.old.unanswered }
        ensures begun { OnErr result (IsBegun S.written self.new) }
        ensures stays { Stays self.old self.new }
    {
        let Some(place) = self.place_of(stream) else {
            return Ok(None);
        };
        let pass = self.pass.number();
        let before = self.pump.mode_of(stream);
        let delivered = is_delivery(&act);
        let done = match drive(
            &mut self.pump,
            &self.book,
            &mut self.pass,
            now,
            stream,
            &act,
            &mut self.room,
        ) {
            Ok(Some(done)) => done,
            Ok(None) => return Ok(None),
            Err(fault) => return Err(fault),
        };
        let known = Some((Reply::Done, done.position));
        match note_answer(&mut self.journal, pass, self.side, stream, act, known) {
            Ok(_) => (),
            Err(fault) => return Err(fault),
        }
        let is_answer = is_answer(delivered, before, done.mode);
        let Ok(()) = self.outbox.push(place, is_answer, &self.room, done.length) else {
            return Err(LiveFault::NoMemory);
        };
        Ok(Some(done.mode))
    }
}

/// Whether an act is the delivery of a packet.
fn is_delivery(act: &Act) -> bool {
    matches!(act, Act::Deliver(_, _))
}

/// Whether what an act emits is an answer: it was a delivery, and left the mode as it was.
fn is_answer(delivered: bool, before: Option<Mode>, after: Mode) -> bool {
    match before {
        Some(before) => delivered && before == after,
        None => false,
    }
}

/// The word that a packet is delivered with, where a needuid is with this one.
fn word_for(packet: &Packet<'_>, word: u64) -> u64
    ensures { result ≡ word_for (body_of packet.now.body) word }
{
    match packet.body {
        Body::NeedUid(_) => word,
        _ => 0,
    }
}

/// Whether a packet is one for this side.
pub(crate) fn is_for(side: End, packet: &Packet<'_>) -> bool {
    match packet.body {
        Body::Accept(_, _) | Body::Ack(_, _) => side == End::Sender,
        Body::NeedUid(_) | Body::Send(_, _) | Body::Batch(_, _) | Body::Cleanup(_) => {
            side == End::Receiver
        }
    }
}

/// Does this act at a stream, by one call of the pump. A journal of version 2 has a line for each act of a side.
fn drive(
    pump: &mut Pump<GivenWord>,
    book: &Book,
    pass: &mut Pass,
    now: u64,
    stream: u32,
    act: &Act,
    out: &mut [u8; MAX_PACKET],
) -> Result<Option<Done>, LiveFault>
    requires together { BelongTogether book.now pass.old pump.old × IsStation pump.old }
    requires suits { Suits Two pump.old.host.side stream act.now }
    ensures driven { IfOk result (Drives pump.old pass.old pass.new out.old out.new stream act.now) }
    ensures waits { is_start act.now ≡ true → IfOk result (λ done. IfNone done (MayNotBegin pump.old.host stream)) }
    ensures resent { act.now ≡ Resend → IfOk result (λ done. IfSome done (λ d. Resent now pump.old pump.new stream d.mode)) }
    ensures failed { OnErr result (pass.new ≡ pass.old) }
    ensures side { pump.new.host.side ≡ pump.old.host.side }
    ensures station { IsStation pump.new × BelongTogether book.now pass.new pump.new }
{
    match act {
        Act::Start(word) => {
            give(pump, false, *word);
            done_of(pump.start(book, pass, now, stream, out))
        }
        Act::Batch(word) => {
            give(pump, true, *word);
            done_of(pump.start(book, pass, now, stream, out))
        }
        Act::Resend => done_of(pump.resend(book, pass, now, stream, out)),
        Act::Deliver(packet, word) => {
            give(pump, false, *word);
            done_of(pump.deliver(book, pass, now, &packet.as_packet(), out))
        }
        Act::Crash => done_of(pump.crash(book, pass, now, stream)),
        Act::Recover => done_of(pump.recover(book, pass, now, stream)),
        Act::Put(_) => unreachable!(),
        Act::Get => unreachable!(),
        Act::Ack => unreachable!(),
    }
}

/// The pump's next event is to be under this word; where it is a start, for all messages that wait together or for one.
fn give(pump: &mut Pump<GivenWord>, together: bool, word: u64)
    ensures given { pump.new ≡ record pump.old { words = pump.new.words; batches = together } }
    ensures word { pump.new.words.word ≡ Some word }
    ensures station { IsStation pump.new }
{
    pump.batches(together);
    pump.renew(GivenWord { word: Some(word) });
}

/// What a pump's call did.
fn done_of(turned: Result<Turned, PumpFault>) -> Result<Option<Done>, LiveFault>
    ensures { result ≡ done_of turned }
{
    match turned {
        Ok(Turned::Did(_, _, _, done)) => Ok(Some(done)),
        Ok(Turned::Idle | Turned::Unread(_) | Turned::Stranger) => Ok(None),
        Err(PumpFault::NoMemory) => Err(LiveFault::NoMemory),
        Err(PumpFault::Busy | PumpFault::NoWord) => Err(LiveFault::Busy),
    }
}
