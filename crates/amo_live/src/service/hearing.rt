//! How a live host hears: it listens while it waits, and takes the datagrams that have come.
ghost use Rattle.std.specs.Prelude.{◌≡◌, ◌≤◌, IfSome, OnOk, Some, false, min};
ghost use Rattle.amo_live.specs.Callers.{GetsNone, IsSameLife, MovesWithin};
ghost use Rattle.amo_live.specs.Host.{IsNoted};
ghost use Rattle.amo_live.specs.Service.{Listened, PutsNone, has_come, shown_by, spelling_of, streams_of, words_of};
ghost use Rattle.amo_live.specs.Shown.{ShowsMore};
ghost use Rattle.amo_live.specs.Words.{BearsNew};

use crate::service::{MOST_DATAGRAMS, Service};
use crate::{Lineage, LiveFault};
use amo_net::{Link, MAX_DATAGRAM};
use amo_text::Sink;

/// After how many first intervals a peer that was not heard counts as away.
const INTERVALS_AWAY: u64 = 64;

impl<L: Link, S: Sink, W: Lineage> Service<L, S, W> {
    /// Takes so many of the datagrams that have come, and no more than `MOST_DATAGRAMS`; those in front for which nothing leaves, nothing is shown and no message
    /// waits do not count. So many bytes of messages may be shown in this turn, those that waited for room first. A host that comes to its end accepts no more
    /// messages.
    #[tactic(auto, using(crate::proofs::Fresh::bears_none))]
    pub fn hear(
        &mut self,
        now: u64,
        room: usize,
        datagrams: u32,
        closes: bool,
    ) -> Result<(), LiveFault>
        requires { IsNoted S.written self.old.host }
        ensures noted { OnOk result (IsNoted S.written self.new.host) }
        ensures life { IsSameLife self.old.host.pass self.new.host.pass self.old.host.journal self.new.host.journal }
        ensures none_put { OnOk result (PutsNone self.old.host.pass self.new.host.pass) }
        ensures none_got { OnOk result (room ≡ 0 → GetsNone self.old.host.pass self.new.host.pass) }
        ensures streams { streams_of self.new ≡ streams_of self.old }
        ensures shown { OnOk result (ShowsMore (spelling_of self.old) self.old.host.pass self.new.host.pass (shown_by self.old) (shown_by self.new)) }
        ensures spelling { spelling_of self.new ≡ spelling_of self.old }
        ensures words { OnOk result (BearsNew W.is_drawn (words_of self.old) (words_of self.new) self.old.host.pass self.new.host.pass) }
    {
        self.closes = closes;
        self.heard = false;
        self.get_unread(now, room)?;
        self.take_datagrams(datagrams, now, room)?;
        self.hear_peer(now);
        self.catch_up(now)
    }

    /// Takes so many of the datagrams that have come.
    fn take_datagrams(&mut self, datagrams: u32, now: u64, room: usize) -> Result<(), LiveFault>
        requires { IsNoted S.written self.old.host }
        ensures noted { OnOk result (IsNoted S.written self.new.host) }
        ensures life { IsSameLife self.old.host.pass self.new.host.pass self.old.host.journal self.new.host.journal }
        ensures moved { OnOk result (MovesWithin room self.old.host.pass self.new.host.pass) }
        ensures streams { streams_of self.new ≡ streams_of self.old }
        ensures shown { OnOk result (ShowsMore (spelling_of self.old) self.old.host.pass self.new.host.pass (shown_by self.old) (shown_by self.new)) }
        ensures spelling { spelling_of self.new ≡ spelling_of self.old }
        ensures words { OnOk result (BearsNew W.is_drawn (words_of self.old) (words_of self.new) self.old.host.pass self.new.host.pass) }
    {
        let mut buffer = match self.datagram.take() {
            Some(buffer) => buffer,
            None => match Box::new(self.host.alloc, [0; MAX_DATAGRAM]) {
                Ok(buffer) => buffer,
                Err(_) => return Err(LiveFault::NoMemory),
            },
        };
        self.take_by(&mut buffer, datagrams, now, room)?;
        self.datagram = Some(buffer);
        Ok(())
    }

    /// Takes so many of the datagrams that have come, one after another in this buffer. Up to the first for which a packet is to leave, something is to be
    /// shown or a message waits none counts: nobody waits for these, and their lines are written with the next one's.
    #[tactic(auto, using(crate::proofs::Fresh::bears_none))]
    fn take_by(
        &mut self,
        buffer: &mut [u8; MAX_DATAGRAM],
        datagrams: u32,
        now: u64,
        room: usize,
    ) -> Result<(), LiveFault>
        requires { IsNoted S.written self.old.host }
        ensures noted { OnOk result (IsNoted S.written self.new.host) }
        ensures life { IsSameLife self.old.host.pass self.new.host.pass self.old.host.journal self.new.host.journal }
        ensures moved { OnOk result (MovesWithin room self.old.host.pass self.new.host.pass) }
        ensures streams { streams_of self.new ≡ streams_of self.old }
        ensures shown { OnOk result (ShowsMore (spelling_of self.old) self.old.host.pass self.new.host.pass (shown_by self.old) (shown_by self.new)) }
        ensures spelling { spelling_of self.new ≡ spelling_of self.old }
        ensures words { OnOk result (BearsNew W.is_drawn (words_of self.old) (words_of self.new) self.old.host.pass self.new.host.pass) }
    {
        let mut left = datagrams;
        'datagrams: for _datagram in 0..MOST_DATAGRAMS {
            if left == 0 {
                break;
            }
            let Some(length) = self.next_datagram(buffer) else {
                break;
            };
            self.heard = true;
            self.deliver(&buffer[..length], now, room)?;
            if self.has_news() {
                left -= 1;
            }
        }
        self.took_most = datagrams > 0 && left == 0;
        Ok(())
    }

    /// The length of the next datagram, which stands in this buffer: the one that it heard while it listened, if one waits, or one that has come.
    fn next_datagram(&mut self, buffer: &mut [u8; MAX_DATAGRAM]) -> Option<usize>
        ensures within { IfSome result (λ n. n ≤ MAX_DATAGRAM) }
        ensures listened { Listened self.old self.new }
        ensures waited { IfSome self.old.come (λ n. (result ≡ Some (min n MAX_DATAGRAM)) × (self.new.host ≡ self.old.host)) }
        ensures none_waits { has_come self.new ≡ false }
        ensures same { self.new ≡ record self.old { host = self.new.host; come = self.new.come } }
    {
        match self.come.take() {
            Some(length) => Some(length.min(MAX_DATAGRAM)),
            None => self.host.hear(buffer),
        }
    }

    /// Looks so many times whether a datagram has come. One that has waits to be taken. Before it took one it has no room for any, and does not look.
    pub fn listen(&mut self, looks: u32) -> bool
        ensures listened { Listened self.old self.new }
        ensures come { result ≡ has_come self.new }
        ensures same { self.new ≡ record self.old { host = self.new.host; come = self.new.come; datagram = self.new.datagram } }
    {
        if self.come.is_some() {
            return true;
        }
        let Some(mut buffer) = self.datagram.take() else {
            return false;
        };
        self.come = self.heard_within(&mut buffer, looks);
        self.datagram = Some(buffer);
        self.come.is_some()
    }

    /// Whether a datagram waits to be taken that it heard while it listened.
    pub fn has_come(&self) -> bool
        ensures { result ≡ has_come self.now }
    {
        self.come.is_some()
    }

    /// The length of the datagram that has come at one of so many looks, if one has.
    fn heard_within(&mut self, buffer: &mut [u8; MAX_DATAGRAM], looks: u32) -> Option<usize>
        ensures listened { Listened self.old self.new }
        ensures same { self.new ≡ record self.old { host = self.new.host } }
    {
        'looks: for _look in 0..looks {
            if let Some(length) = self.host.hear(buffer) {
                return Some(length);
            }
        }
        None
    }

    /// Whether a packet is to leave, something is to be shown, or a message waits for somebody who takes it.
    fn has_news(&self) -> bool {
        self.host.outbox.leaving() > 0 || !self.shown.is_empty() || self.unread
    }

    /// Where the peer was heard, and was away before, what waits for it is sent again soon.
    fn hear_peer(&mut self, now: u64)
        requires { IsNoted S.written self.old.host }
        ensures noted { IsNoted S.written self.new.host }
        ensures life { IsSameLife self.old.host.pass self.new.host.pass self.old.host.journal self.new.host.journal }
        ensures pass { self.new.host.pass ≡ self.old.host.pass }
        ensures streams { streams_of self.new ≡ streams_of self.old }
        ensures shown { (shown_by self.new ≡ shown_by self.old) × (self.new.setup ≡ self.old.setup) }
        ensures words { words_of self.new ≡ words_of self.old }
    {
        if !self.heard {
            return;
        }
        let away = self.setup.pace.first.saturating_mul(INTERVALS_AWAY);
        let was_away = match self.heard_at {
            Some(at) => away <= now.saturating_sub(at),
            None => true,
        };
        self.heard_at = Some(now);
        if was_away {
            self.host.hasten(now);
        }
    }
}
