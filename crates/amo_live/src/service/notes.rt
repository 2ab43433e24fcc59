//! What a service knows of its streams from what it did, and what it counts.
ghost use Rattle.std.specs.Prelude.{◌≡◌, ◌&&◌, OnOk, false, true};
ghost use Rattle.amo_packet.specs.Packet.{body_of};
ghost use Rattle.amo_live.specs.Client.{has};
ghost use Rattle.amo_live.specs.Service.{begins_to_send, is_in_doubt, shown_by, spelling_of, streams_of, words_of};
ghost use Rattle.amo_live.specs.Shown.{told_ack, told_answer, told_answers, told_put, told_refused, told_settled};

use crate::service::{Lane, Service};
use crate::{Figures, Lineage, Times};
use amo_core::Mode;
use amo_lines::{Id, Word, push_ok, push_refused, push_settled, push_word};
use amo_net::Link;
use amo_object::End;
use amo_packet::{Body, Packet, read};
use amo_text::Sink;
use std::alloc::AllocError;

impl<L: Link, S: Sink, W: Lineage> Service<L, S, W> {
    /// A message more of this stream was put, and has no answer.
    pub(crate) fn owe(&mut self, stream: u32, lane: Lane)
        ensures host { self.new.host ≡ self.old.host }
        ensures streams { streams_of self.new ≡ streams_of self.old }
        ensures shown { (shown_by self.new ≡ shown_by self.old) × (self.new.setup ≡ self.old.setup) }
        ensures words { words_of self.new ≡ words_of self.old }
    {
        self.put = self.put.saturating_add(1);
        self.owed = self.owed.saturating_add(1);
        let waiting = lane.waiting.saturating_add(1);
        self.set_lane(
            stream,
            Lane {
                waiting,
                owed: true,
                ..lane
            },
        );
    }

    /// A handshake was begun on a stream, whose sender is in this mode then; or it could not be.
    pub(crate) fn note_start(&mut self, stream: u32, lane: Lane, started: Option<Mode>, began: u64)
        ensures host { self.new.host ≡ self.old.host }
        ensures streams { streams_of self.new ≡ streams_of self.old }
        ensures shown { (shown_by self.new ≡ shown_by self.old) × (self.new.setup ≡ self.old.setup) }
        ensures words { words_of self.new ≡ words_of self.old }
    {
        match started {
            Some(Mode::NeedId) => {
                let waiting = lane.waiting.saturating_sub(self.most_at_once());
                self.set_lane(
                    stream,
                    Lane {
                        waiting,
                        began,
                        ..lane
                    },
                );
            }
            Some(_) => (),
            None => self.behind = true,
        }
    }

    /// A packet came for a stream that it has not.
    pub(crate) fn drop_foreign(&mut self, stream: u32)
        ensures { self.new ≡ record self.old { foreign = self.new.foreign; dropped = self.new.dropped } }
    {
        self.foreign = Some(stream);
        self.dropped.foreign = self.dropped.foreign.saturating_add(1);
    }

    /// A packet came for the other side.
    pub(crate) fn drop_stray(&mut self)
        ensures { self.new ≡ record self.old { astray = self.new.astray; dropped = self.new.dropped } }
    {
        self.astray = true;
        self.dropped.idle = self.dropped.idle.saturating_add(1);
    }

    /// A packet came that made no event.
    pub(crate) fn drop_idle(&mut self)
        ensures { self.new ≡ record self.old { dropped = self.new.dropped } }
    {
        self.dropped.idle = self.dropped.idle.saturating_add(1);
    }

    /// A datagram came that is no packet for which the journal has a line.
    pub(crate) fn miss(&mut self, bytes: &[u8])
        ensures host { self.new.host ≡ self.old.host }
        ensures streams { streams_of self.new ≡ streams_of self.old }
        ensures shown { (shown_by self.new ≡ shown_by self.old) × (self.new.setup ≡ self.old.setup) }
        ensures words { words_of self.new ≡ words_of self.old }
    {
        let is_missed = match read(bytes) {
            Ok(
                Packet {
                    stream,
                    body: Body::Batch(_, _),
                },
            ) => self.setup.side == End::Receiver && self.has(stream),
            _ => false,
        };
        self.missed = self.missed || is_missed;
        self.dropped.unread = self.dropped.unread.saturating_add(1);
    }

    /// A packet that brings so many messages was delivered on a stream, whose side is in this mode now. It holds them, if it held none before.
    pub(crate) fn arrive(
        &mut self,
        stream: u32,
        mode: Mode,
        is_other: bool,
        brought: usize,
        now: u64,
    )
        ensures host { self.new.host ≡ self.old.host }
        ensures streams { streams_of self.new ≡ streams_of self.old }
        ensures shown { (shown_by self.new ≡ shown_by self.old) × (self.new.setup ≡ self.old.setup) }
        ensures words { words_of self.new ≡ words_of self.old }
    {
        if let Some(lane) = self.lane(stream) {
            let holds_more = is_other && mode == Mode::Rcvd;
            let held = if holds_more { brought } else { lane.held };
            self.set_lane(stream, Lane { held, ..lane });
            if is_other && mode == Mode::Quiet {
                self.times.note(now.saturating_sub(lane.began));
            }
        }
    }

    /// A message with this id was put on a stream, by this line of the journal.
    pub(crate) fn tell_put(&mut self, stream: u32, id: Id, line: u64) -> Result<(), AllocError>
        ensures told { OnOk result (shown_by self.new ≡ told_put (spelling_of self.old) stream id line (shown_by self.old)) }
        ensures same { self.new ≡ record self.old { shown = self.new.shown; ids = self.new.ids } }
    {
        push_ok(&mut self.shown, stream, &id, line, self.setup.spelling)?;
        if self.setup.spelling.json {
            self.ids.owe(stream, id)?;
        }
        Ok(())
    }

    /// The first of a stream's messages that have no answer has this one.
    pub(crate) fn tell_answer(&mut self, stream: u32, word: Word) -> Result<(), AllocError>
        ensures told { OnOk result (shown_by self.new ≡ told_answer (spelling_of self.old) stream word (shown_by self.old)) }
        ensures same { self.new ≡ record self.old { shown = self.new.shown; ids = self.new.ids } }
    {
        let id = self.ids.answer(stream);
        push_word(&mut self.shown, stream, &id, word, self.setup.spelling)
    }

    /// The client's line of this number is none that is put, for this reason.
    pub fn tell_refused(&mut self, id: &Id, line: u64, reason: &str) -> Result<(), AllocError>
        ensures told { OnOk result (shown_by self.new ≡ told_refused (record { id = id.now; input = line; reason = reason.now }) (shown_by self.old)) }
        ensures host { self.new.host ≡ self.old.host }
        ensures streams { streams_of self.new ≡ streams_of self.old }
        ensures words { words_of self.new ≡ words_of self.old }
        ensures spelling { spelling_of self.new ≡ spelling_of self.old }
    {
        push_refused(&mut self.shown, id, line, reason.as_bytes())
    }

    /// A packet was delivered. If it is an ack, the client is told what it says of so many messages that travelled in its handshake.
    pub(crate) fn tell_ack(&mut self, packet: &Packet<'_>, messages: u64) -> Result<(), AllocError>
        ensures told { OnOk result (shown_by self.new ≡ told_ack (spelling_of self.old) packet.now.stream (body_of packet.now.body) messages (shown_by self.old)) }
        ensures host { self.new.host ≡ self.old.host }
        ensures streams { streams_of self.new ≡ streams_of self.old }
        ensures setup { self.new.setup ≡ self.old.setup }
        ensures words { words_of self.new ≡ words_of self.old }
    {
        let Body::Ack(_, was_got) = packet.body else {
            return Ok(());
        };
        self.count_answers(was_got, messages);
        let word = Word::of(was_got);
        self.tell_answers(packet.stream, word, messages)
    }

    /// It is not known what became of a message that an earlier life sent on this stream. Once that is settled, the client is told so.
    pub fn doubt(&mut self, stream: u32)
        ensures host { self.new.host ≡ self.old.host }
        ensures streams { streams_of self.new ≡ streams_of self.old }
        ensures shown { (shown_by self.new ≡ shown_by self.old) × (self.new.setup ≡ self.old.setup) }
        ensures words { words_of self.new ≡ words_of self.old }
        ensures doubt { is_in_doubt self.new stream ≡ has (streams_of self.old) stream }
    {
        if let Some(lane) = self.lane(stream) {
            self.set_lane(
                stream,
                Lane {
                    in_doubt: true,
                    ..lane
                },
            );
        }
    }

    /// A packet was delivered on a stream, whose side was in one mode before and is in the other now. Where it sends now, what became of earlier messages
    /// that were in doubt is settled, and the client is told so.
    pub(crate) fn tell_settled(
        &mut self,
        stream: u32,
        before: Option<Mode>,
        after: Mode,
    ) -> Result<(), AllocError>
        ensures told { OnOk result (shown_by self.new ≡ told_settled (is_in_doubt self.old stream && begins_to_send before after) (spelling_of self.old) stream (shown_by self.old)) }
        ensures settled { OnOk result (begins_to_send before after ≡ true → is_in_doubt self.new stream ≡ false) }
        ensures host { self.new.host ≡ self.old.host }
        ensures streams { streams_of self.new ≡ streams_of self.old }
        ensures setup { self.new.setup ≡ self.old.setup }
        ensures words { words_of self.new ≡ words_of self.old }
    {
        let Some(lane) = self.lane(stream) else {
            return Ok(());
        };
        if !lane.in_doubt || !begins_to_send(before, after) {
            return Ok(());
        }
        self.set_lane(
            stream,
            Lane {
                in_doubt: false,
                ..lane
            },
        );
        push_settled(&mut self.shown, stream, self.setup.spelling)
    }

    /// The first so many of a stream's messages that have no answer have this one.
    fn tell_answers(&mut self, stream: u32, word: Word, messages: u64) -> Result<(), AllocError>
        ensures told { OnOk result (shown_by self.new ≡ told_answers (spelling_of self.old) stream word messages (shown_by self.old)) }
        ensures same { self.new ≡ record self.old { shown = self.new.shown; ids = self.new.ids } }
    {
        'messages: for _message in 0..messages {
            self.tell_answer(stream, word)?;
        }
        Ok(())
    }

    /// So many messages more have their answer.
    fn count_answers(&mut self, was_got: bool, messages: u64)
        ensures { self.new ≡ record self.old { yes = self.new.yes; no = self.new.no; owed = self.new.owed } }
    {
        if was_got {
            self.yes = self.yes.saturating_add(messages);
        } else {
            self.no = self.no.saturating_add(messages);
        }
        self.owed = self.owed.saturating_sub(messages);
    }

    /// The client of a stream was told what became of its last message.
    pub(crate) fn note_answer(&mut self, stream: u32, lane: Lane, was_got: bool)
        ensures host { self.new.host ≡ self.old.host }
        ensures streams { streams_of self.new ≡ streams_of self.old }
        ensures shown { (shown_by self.new ≡ shown_by self.old) × (self.new.setup ≡ self.old.setup) }
        ensures words { words_of self.new ≡ words_of self.old }
    {
        self.count_answers(was_got, 1);
        self.set_lane(
            stream,
            Lane {
                owed: false,
                ..lane
            },
        );
    }

    /// How long handshakes took.
    pub fn times(&self) -> &Times {
        &self.times
    }

    /// How it is, and what it has done.
    pub fn figures(&self) -> Figures {
        let (mut waiting, mut held, mut open) = (0u64, 0u64, 0u64);
        'streams: for place in 0..self.setup.streams {
            let stream = place.saturating_add(1);
            let lane = self.lane(stream).unwrap_or(Lane::new());
            waiting = waiting.saturating_add(lane.waiting);
            held = held.saturating_add(lane.held as u64);
            open = open.saturating_add(u64::from(is_open(self.host.mode_of(stream))));
        }
        Figures {
            put: self.put,
            got: self.got,
            yes: self.yes,
            no: self.no,
            waiting,
            held,
            open,
            ended: self.times.ended(),
            traffic: self.host.traffic(),
            dropped: self.dropped,
            line: self.host.next_line(),
            bytes: self.host.journal_bytes(),
        }
    }
}

/// Whether a sender that asked for an identifier sends now, which was in one mode before and is in the other now.
fn begins_to_send(before: Option<Mode>, after: Mode) -> bool
    ensures { result ≡ begins_to_send before after }
{
    matches!((before, after), (Some(Mode::NeedId), Mode::Send))
}

/// Whether a handshake is open in this mode.
fn is_open(mode: Option<Mode>) -> bool {
    !matches!(mode, None | Some(Mode::Down | Mode::Quiet | Mode::Idle))
}
