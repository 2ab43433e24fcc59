//! What a host sends again, and when.
ghost use Rattle.std.specs.Prelude.{◌≡◌, ◌↔◌, Contains, IsTrue, OnOk};
ghost use Rattle.amo_host.specs.AtStream.{IsNextDue};
ghost use Rattle.amo_host.specs.Host as host;
ghost use Rattle.amo_live.specs.Callers.{GetsNone, IsSameLife};
ghost use Rattle.amo_live.specs.Due.{HasDue, NoneDue, SendsAgain, SendsDue};
ghost use Rattle.amo_live.specs.Host.{IsNoted};
ghost use Rattle.amo_live.specs.Service.{PutsNone, shown_by, spelling_of, streams_of, words_of};
ghost use Rattle.amo_live.specs.Shown.{ShowsMore};
ghost use Rattle.amo_live.specs.Words.{BearsNew};

use crate::service::Service;
use crate::{Lineage, LiveFault};
use amo_net::Link;
use amo_text::Sink;

impl<L: Link, S: Sink, W: Lineage> Service<L, S, W> {
    /// When a stream is to be sent again next, in microseconds.
    pub fn next_due(&self) -> Option<u64>
        ensures { IsNextDue self.now.host.pump.host result }
    {
        self.host.next_due()
    }

    /// Whether a stream is to be sent again now.
    fn has_due(&self, now: u64) -> bool
        ensures { IsTrue result ↔ HasDue self.now.host.pump.host now }
    {
        match self.next_due() {
            Some(due) => due <= now,
            None => false,
        }
    }

    /// Sends again what is due: the packet of each stream that is due leaves once more, and its time counts anew.
    #[tactic(auto, using(crate::proofs::Fresh::bears_none))]
    pub fn resend(&mut self, now: u64) -> Result<(), LiveFault>
        requires { IsNoted S.written self.old.host }
        ensures noted { OnOk result (IsNoted S.written self.new.host) }
        ensures life { IsSameLife self.old.host.pass self.new.host.pass self.old.host.journal self.new.host.journal }
        ensures none_put { OnOk result (PutsNone self.old.host.pass self.new.host.pass) }
        ensures streams { streams_of self.new ≡ streams_of self.old }
        ensures shown { OnOk result (ShowsMore (spelling_of self.old) self.old.host.pass self.new.host.pass (shown_by self.old) (shown_by self.new)) }
        ensures spelling { spelling_of self.new ≡ spelling_of self.old }
        ensures words { OnOk result (BearsNew W.is_drawn (words_of self.old) (words_of self.new) self.old.host.pass self.new.host.pass) }
        ensures none_got { OnOk result (GetsNone self.old.host.pass self.new.host.pass) }
        ensures due { OnOk result (SendsDue now self.old.host self.new.host) }
        ensures none_due { OnOk result (NoneDue now self.old.host self.new.host) }
    {
        if !self.has_due(now) {
            return Ok(());
        }
        let count = self.host.streams();
        'streams: for place in 0..count {
            let stream = place + 1;
            if self.host.is_due(stream, now) {
                self.send_again(stream, now)?;
            }
        }
        Ok(())
    }

    /// Sends the packet of a stream's mode again. Where it was emitted before, that is no event.
    #[tactic(auto, using(crate::proofs::Fresh::bears_none))]
    fn send_again(&mut self, stream: u32, now: u64) -> Result<(), LiveFault>
        requires { IsNoted S.written self.old.host }
        ensures noted { OnOk result (IsNoted S.written self.new.host) }
        ensures life { IsSameLife self.old.host.pass self.new.host.pass self.old.host.journal self.new.host.journal }
        ensures none_put { OnOk result (PutsNone self.old.host.pass self.new.host.pass) }
        ensures streams { streams_of self.new ≡ streams_of self.old }
        ensures shown { OnOk result (ShowsMore (spelling_of self.old) self.old.host.pass self.new.host.pass (shown_by self.old) (shown_by self.new)) }
        ensures spelling { spelling_of self.new ≡ spelling_of self.old }
        ensures words { OnOk result (BearsNew W.is_drawn (words_of self.old) (words_of self.new) self.old.host.pass self.new.host.pass) }
        ensures none_got { OnOk result (GetsNone self.old.host.pass self.new.host.pass) }
        ensures again { OnOk result (Contains (host.streams_of self.old.host.pump.host.modes) stream → SendsAgain now self.old.host self.new.host stream) }
    {
        if self.host.repeat(stream, now)? {
            return Ok(());
        }
        match self.host.resend(stream, now)? {
            Some(_) => Ok(()),
            None => Err(LiveFault::Busy),
        }
    }
}
