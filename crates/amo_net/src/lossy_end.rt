//! One end of a channel that two threads share.
ghost use Rattle.std.specs.Prelude.{◌≡◌, ◌≤◌, ◌⊎◌, ◌++◌, ◌∷◌, [], false, take, IfErr, IfSome, OnErr, OnOk};

use crate::burst::Burst;
use crate::kept_back::KeptBack;
use crate::{Link, LinkFault, Lossy, MAX_DATAGRAM};
use amo_object::End;
use amo_word::Words;
use std::alloc::Global;
use std::marker::Model;
use std::sync::{Mutex, Wait};

/// One end of a locked channel. It holds the permission to wait for the lock, and its device never fails.
///
/// A receive that has the lock takes out a burst of up to sixteen datagrams, one after another as [`Lossy::receive`] does, and the next
/// receives hand them out. Until the last of them is handed out, sends are kept back, up to sixteen; then they go, one after another as
/// [`Lossy::send`] does. For each change of the lock's holder takes longer than all of that. A burst has room for four of the longest
/// datagrams, so of long ones there are fewer. What goes waits for the lock. A look for what has come does not: while the other end is at
/// the channel, nothing has come.
///
/// A datagram is copied when it is sent, whether it goes or is kept back. So only a send takes memory, and one that is refused is refused for
/// its own datagram. What was taken out and not handed out when an end is dropped is lost, and so is what was kept back.
///
/// Contracts see which end it is, whether it has more to hand out, and what it keeps back. What it does to the channel [`Lossy`] says, of
/// whatever lies there once it has the lock.
#[derive(Drop)]
pub struct LossyEnd<'a, W, R: Wait> {
    rt: &'a R,
    /// Where sends go.
    out: &'a Mutex<Lossy<W>>,
    /// Where receives come from.
    into: &'a Mutex<Lossy<W>>,
    end: End,
    /// What was taken out, and is to be handed out.
    taken: Burst,
    /// What was kept back, and is to go.
    kept_back: KeptBack,
}

impl<'a, W, R: Wait> Model for LossyEnd<'a, W, R> {
    ghost use Rattle.std.specs.Prelude.{nat_lt};
    ghost use Rattle.amo_net.specs.Lossy.{EndState};

    ghost Value = { EndState };

    ghost view = { λ link. record { end = link.end; has_more = nat_lt link.taken.gone link.taken.count; kept_back = link.kept_back } };
}

impl<'a, W, R: Wait> LossyEnd<'a, W, R> {
    /// That end of the channel.
    pub fn new(
        rt: &'a R,
        alloc: Global,
        channel: &'a Mutex<Lossy<W>>,
        end: End,
    ) -> LossyEnd<'a, W, R>
        ensures { result ≡ record { end = end; has_more = false; kept_back = [] } }
    {
        LossyEnd::over(rt, alloc, channel, channel, end)
    }

    /// That end of two channels, of which it sends on one and receives from the other. The other end has them the other way round, so that
    /// neither waits for the other's sends.
    pub fn over(
        rt: &'a R,
        alloc: Global,
        out: &'a Mutex<Lossy<W>>,
        into: &'a Mutex<Lossy<W>>,
        end: End,
    ) -> LossyEnd<'a, W, R>
        ensures { result ≡ record { end = end; has_more = false; kept_back = [] } }
    {
        LossyEnd {
            rt,
            out,
            into,
            end,
            taken: Burst::new(),
            kept_back: KeptBack::new(alloc),
        }
    }
}

impl<'a, W: Words, R: Wait> LossyEnd<'a, W, R> {
    /// Sends a datagram of these bytes behind all that was kept back, or keeps it back, too. Only its own copies take memory.
    fn send_or_keep(&mut self, bytes: &[u8]) -> Result<(), LinkFault>
        ensures memory { IfErr result (λ f. f ≡ LinkFault.NoMemory) }
        ensures kept { OnOk result ((self.new.kept_back ≡ []) ⊎ (self.new.kept_back ≡ self.old.kept_back ++ take MAX_DATAGRAM bytes.now ∷ [])) }
        ensures refused { OnErr result ((self.new.kept_back ≡ []) ⊎ (self.new.kept_back ≡ self.old.kept_back)) }
        ensures end { (self.new.end ≡ self.old.end) × (self.new.has_more ≡ self.old.has_more) }
    {
        if self.taken.has_more() && !self.kept_back.is_full() {
            self.kept_back.push(bytes)?;
            return Ok(());
        }
        let mut channel = self.out.lock(self.rt);
        self.kept_back.go(&mut channel, self.end);
        channel.send(self.end, bytes)
    }

    /// The length of the next datagram that was taken out, which now stands at the front of the buffer. Where there is none, all that was
    /// kept back goes, and what has come is taken out. It takes no memory.
    fn look(&mut self, buffer: &mut [u8; MAX_DATAGRAM]) -> Option<usize>
        ensures length { IfSome result (λ n. n ≤ MAX_DATAGRAM) }
        ensures gone { self.old.has_more ≡ false → self.new.kept_back ≡ [] }
        ensures kept { (self.new.kept_back ≡ []) ⊎ (self.new.kept_back ≡ self.old.kept_back) }
        ensures end { self.new.end ≡ self.old.end }
    {
        if !self.taken.has_more() {
            if !self.kept_back.is_empty() {
                let mut channel = self.out.lock(self.rt);
                self.kept_back.go(&mut channel, self.end);
            }
            if let Some(mut channel) = self.into.try_lock() {
                self.taken.refill(&mut channel, self.end);
            }
        }
        self.taken.hand_out(buffer)
    }
}

impl<'a, W: Words, R: Wait> Link for LossyEnd<'a, W, R> {
    ghost failures = { λ _. 0 };

    fn send(&mut self, bytes: &[u8]) -> Result<(), LinkFault> {
        self.send_or_keep(bytes)
    }

    fn receive(&mut self, buffer: &mut [u8; MAX_DATAGRAM]) -> Result<Option<usize>, LinkFault> {
        Ok(self.look(buffer))
    }
}
