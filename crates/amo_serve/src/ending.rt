//! How a host with a door comes to its end, when it is asked to.
ghost use Rattle.std.specs.Prelude.{◌≡◌, ◌↔◌, Bool, None, Some, false, IsTrue, IfSome};
ghost use Rattle.amo_live.specs.Service.{IsAtRest};
ghost use Rattle.amo_object.specs.declared.step.End.TheVariants.{Sender};
ghost use Rattle.amo_serve.specs.Ending.{begun, earlier, end_of, ended_of};

use crate::client::Client;
use crate::door::{Door, push};
use crate::responder::Responder;
use amo_door::{Happening, push_event};
use amo_live::{Ended, Limits, Lineage};
use amo_net::Link;
use amo_object::End;
use amo_text::Sink;
use libc::net;
use std::alloc::AllocError;

/// How long a receiver waits at its end for what is still on its way, in microseconds, where it was not told.
const LINGER: u64 = 1_000_000;

/// How often it is tried at the end to send what clients did not take yet, and how many milliseconds it waits for them each time.
const TRIES: u32 = 100;

const PAUSE: i32 = 10;

/// Since when a host comes to its end, and how long that may take.
#[derive(Clone, Copy)]
pub(crate) struct Farewell {
    limits: Limits,
    since: Option<u64>,
}

impl Farewell {
    /// It was not asked to.
    pub(crate) fn new(limits: Limits) -> Farewell
        ensures { result ≡ record { limits = limits; since = None } }
    {
        Farewell {
            limits,
            since: None,
        }
    }

    /// It was asked to, now or before.
    fn begin(&mut self, now: u64)
        ensures { self.new ≡ begun self.old now }
    {
        self.since = Some(self.since.unwrap_or(now));
    }

    /// When it ends at the latest, if it does.
    fn end(&self) -> Option<u64>
        ensures { result ≡ end_of self.now }
    {
        let limit = match self.limits.wait {
            Some(wait) => wait,
            None if self.limits.lingers => LINGER,
            None => return None,
        };
        Some(self.since?.saturating_add(limit))
    }

    /// When it looks up at the latest.
    pub(crate) fn until(&self, due: Option<u64>) -> Option<u64>
        ensures { result ≡ earlier due (end_of self.now) }
    {
        match (due, self.end()) {
            (Some(due), Some(end)) => Some(due.min(end)),
            (due, None) => due,
            (None, end) => end,
        }
    }

    /// How the host ends, if it does now. A receiver that was not told how long it is to wait has no last packet of its own to wait for.
    fn ended(&self, is_at_rest: bool, holds: bool, now: u64) -> Option<Ended>
        ensures { result ≡ ended_of self.now is_at_rest holds now }
    {
        if self.since.is_some() && is_at_rest && !holds {
            return Some(Ended::AtRest);
        }
        if now < self.end()? {
            return None;
        }
        if holds || self.limits.wait.is_some() {
            Some(Ended::OnItsWay)
        } else {
            Some(Ended::AtRest)
        }
    }
}

impl<L: Link, S: Sink, W: Lineage> Responder<L, S, W> {
    /// How the host ends, if it does now.
    pub(crate) fn ended(&self, farewell: &mut Farewell, now: u64) -> Option<Ended>
        ensures goes_on { self.now.ends ≡ false → (result ≡ None) × (farewell.new ≡ farewell.old) }
        ensures ends { IsTrue self.now.ends → (rests holds : Bool) × (IsTrue rests ↔ IsAtRest self.now.service) × (self.now.service.host.side ≡ Sender → holds ≡ false)
            × (farewell.new ≡ begun farewell.old now) × (result ≡ ended_of farewell.new rests holds now) }
    {
        if !self.ends {
            return None;
        }
        farewell.begin(now);
        let holds = self.service.host.side() == End::Receiver && self.service.figures().held > 0;
        farewell.ended(self.service.is_at_rest(), holds, now)
    }

    /// Tells how much is open at the end, where something is.
    pub(crate) fn tell_of_open<C: Eprint>(&self, rt: &C, ended: Ended) {
        let Ended::OnItsWay = ended else {
            return;
        };
        let figures = self.service.figures();
        let (open, waiting, held) = (figures.open, figures.waiting, figures.held);
        let _ = match self.service.host.side() {
            End::Sender => eprintln!(rt;
                "amo: not finished: handshakes {open}, messages behind them {waiting}"
            ),
            End::Receiver => {
                eprintln!(rt; "amo: not finished: handshakes {open}, messages not taken {held}")
            }
        };
    }
}

impl Door {
    /// Sends clients what they did not take yet, as far as they take it in a second.
    pub(crate) fn send_rest(&mut self, now: u64) -> Result<(), AllocError> {
        for _try in 0..TRIES {
            self.waited.clear();
            for client in &self.clients {
                if client.has_unsent() {
                    push(&mut self.waited, client.interest_in_room())?;
                }
            }
            if self.waited.is_empty() {
                return Ok(());
            }
            net::poll(self.waited.as_mut_slice(), PAUSE);
            self.flush_all(now);
        }
        Ok(())
    }

    /// Tells those who follow that the host cannot go on.
    pub(crate) fn tell_of_fault(&mut self, now: u64) -> Result<(), AllocError> {
        let mut text = Vec::new(self.alloc);
        push_event(&mut text, None, &Happening::Fault)?;
        for client in self.clients.iter_mut() {
            tell_follower(client, text.as_slice());
        }
        self.flush_all(now);
        Ok(())
    }
}

/// Tells a client what happens, where it follows.
fn tell_follower(client: &mut Client, text: &[u8]) {
    if client.is_following() {
        client.tell(text);
    }
}
