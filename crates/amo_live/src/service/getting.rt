//! What a receiver gets, and when: a message only where there is room to show it.
ghost use Rattle.std.specs.Prelude.{◌≡◌, OnOk};
ghost use Rattle.amo_live.specs.Callers.{IsSameLife, MovesWithin};
ghost use Rattle.amo_live.specs.Host.{IsNoted};
ghost use Rattle.amo_live.specs.Service.{PutsNone, is_rcvd, shown_by, spelling_of, streams_of, words_of};
ghost use Rattle.amo_live.specs.Shown.{ShowsMore};
ghost use Rattle.amo_live.specs.Words.{BearsNew};

use crate::service::{Lane, Service};
use crate::{Lineage, LiveFault};
use amo_core::Mode;
use amo_lines::push_message;
use amo_net::Link;
use amo_text::Sink;

impl<L: Link, S: Sink, W: Lineage> Service<L, S, W> {
    /// Gets the messages for which there was no room before, stream after stream in turn, as far as there is now.
    #[tactic(auto, using(crate::proofs::Fresh::bears_none))]
    pub(crate) fn get_unread(&mut self, now: u64, room: usize) -> Result<(), LiveFault>
        requires { IsNoted S.written self.old.host }
        ensures noted { OnOk result (IsNoted S.written self.new.host) }
        ensures life { IsSameLife self.old.host.pass self.new.host.pass self.old.host.journal self.new.host.journal }
        ensures moved { OnOk result (MovesWithin room self.old.host.pass self.new.host.pass) }
        ensures streams { streams_of self.new ≡ streams_of self.old }
        ensures shown { OnOk result (ShowsMore (spelling_of self.old) self.old.host.pass self.new.host.pass (shown_by self.old) (shown_by self.new)) }
        ensures spelling { spelling_of self.new ≡ spelling_of self.old }
        ensures words { OnOk result (BearsNew W.is_drawn (words_of self.old) (words_of self.new) self.old.host.pass self.new.host.pass) }
    {
        if !self.unread {
            return Ok(());
        }
        self.unread = false;
        let streams = self.setup.streams;
        'streams: for _stream in 0..streams {
            self.get_in_turn(now, room)?;
        }
        Ok(())
    }

    /// Gets the messages of the stream whose turn it is, and goes on to the next one, unless there is no room.
    #[tactic(auto, using(crate::proofs::Fresh::bears_none))]
    fn get_in_turn(&mut self, now: u64, room: usize) -> Result<(), LiveFault>
        requires { IsNoted S.written self.old.host }
        ensures noted { OnOk result (IsNoted S.written self.new.host) }
        ensures life { IsSameLife self.old.host.pass self.new.host.pass self.old.host.journal self.new.host.journal }
        ensures moved { OnOk result (MovesWithin room self.old.host.pass self.new.host.pass) }
        ensures streams { streams_of self.new ≡ streams_of self.old }
        ensures shown { OnOk result (ShowsMore (spelling_of self.old) self.old.host.pass self.new.host.pass (shown_by self.old) (shown_by self.new)) }
        ensures spelling { spelling_of self.new ≡ spelling_of self.old }
        ensures words { OnOk result (BearsNew W.is_drawn (words_of self.old) (words_of self.new) self.old.host.pass self.new.host.pass) }
    {
        if self.unread {
            return Ok(());
        }
        let stream = self.next;
        self.get_held(stream, now, room)?;
        self.move_on(self.unread);
        Ok(())
    }

    /// Gets the messages that a stream holds, if it holds some.
    #[tactic(auto, using(crate::proofs::Fresh::bears_none))]
    fn get_held(&mut self, stream: u32, now: u64, room: usize) -> Result<(), LiveFault>
        requires { IsNoted S.written self.old.host }
        ensures noted { OnOk result (IsNoted S.written self.new.host) }
        ensures life { IsSameLife self.old.host.pass self.new.host.pass self.old.host.journal self.new.host.journal }
        ensures moved { OnOk result (MovesWithin room self.old.host.pass self.new.host.pass) }
        ensures streams { streams_of self.new ≡ streams_of self.old }
        ensures shown { OnOk result (ShowsMore (spelling_of self.old) self.old.host.pass self.new.host.pass (shown_by self.old) (shown_by self.new)) }
        ensures spelling { spelling_of self.new ≡ spelling_of self.old }
        ensures words { OnOk result (BearsNew W.is_drawn (words_of self.old) (words_of self.new) self.old.host.pass self.new.host.pass) }
    {
        if is_rcvd(self.host.mode_of(stream)) {
            self.get_all(stream, now, room)
        } else {
            Ok(())
        }
    }

    /// Gets the messages that have come to a stream, in their order, and acknowledges them together. Where no more are wanted they stay where
    /// they are, and no ack leaves; where there is no room for them, until there is.
    #[tactic(auto, using(crate::proofs::Fresh::bears_none))]
    pub(crate) fn get_all(&mut self, stream: u32, now: u64, room: usize) -> Result<(), LiveFault>
        requires { IsNoted S.written self.old.host }
        ensures noted { OnOk result (IsNoted S.written self.new.host) }
        ensures life { IsSameLife self.old.host.pass self.new.host.pass self.old.host.journal self.new.host.journal }
        ensures moved { OnOk result (MovesWithin room self.old.host.pass self.new.host.pass) }
        ensures streams { streams_of self.new ≡ streams_of self.old }
        ensures shown { OnOk result (ShowsMore (spelling_of self.old) self.old.host.pass self.new.host.pass (shown_by self.old) (shown_by self.new)) }
        ensures spelling { spelling_of self.new ≡ spelling_of self.old }
        ensures words { OnOk result (BearsNew W.is_drawn (words_of self.old) (words_of self.new) self.old.host.pass self.new.host.pass) }
    {
        let Some(lane) = self.lane(stream) else {
            return Ok(());
        };
        if self.has_enough() {
            return Ok(());
        }
        'messages: for _message in 0..lane.held {
            if !self.has_room(room) {
                self.unread = true;
                return Ok(());
            }
            if !self.get(stream)? {
                return Ok(());
            }
        }
        self.host.resend(stream, now)?;
        Ok(())
    }

    /// Gets the next message that has come to a stream. Answers whether it did.
    #[tactic(auto, using(crate::proofs::Fresh::bears_none))]
    fn get(&mut self, stream: u32) -> Result<bool, LiveFault>
        requires { IsNoted S.written self.old.host }
        ensures noted { OnOk result (IsNoted S.written self.new.host) }
        ensures life { IsSameLife self.old.host.pass self.new.host.pass self.old.host.journal self.new.host.journal }
        ensures none_put { OnOk result (PutsNone self.old.host.pass self.new.host.pass) }
        ensures streams { streams_of self.new ≡ streams_of self.old }
        ensures shown { OnOk result (ShowsMore (spelling_of self.old) self.old.host.pass self.new.host.pass (shown_by self.old) (shown_by self.new)) }
        ensures spelling { spelling_of self.new ≡ spelling_of self.old }
        ensures words { OnOk result (BearsNew W.is_drawn (words_of self.old) (words_of self.new) self.old.host.pass self.new.host.pass) }
    {
        let line = self.host.next_line();
        let Some((message, _)) = self.host.get(stream)? else {
            return Ok(false);
        };
        self.got = self.got.saturating_add(1);
        self.unshown = Some(self.unshown.unwrap_or(line));
        push_message(&mut self.shown, stream, line, &message, self.setup.spelling)?;
        if let Some(lane) = self.lane(stream) {
            let held = lane.held.saturating_sub(1);
            self.set_lane(stream, Lane { held, ..lane });
        }
        Ok(true)
    }
}

/// Whether this is the mode of a receiver that holds messages.
pub(crate) fn is_rcvd(mode: Option<Mode>) -> bool
    ensures { result ≡ is_rcvd mode }
{
    matches!(mode, Some(Mode::Rcvd))
}
