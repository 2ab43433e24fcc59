//! What a receiver would reply, whether it would change, and which word it would use up: looked up, with nothing changed.
ghost use Rattle.std.specs.Prelude.{◌≡◌, ◌↔◌, ℕ, Some, IsTrue, false};
ghost use Rattle.amo_core.specs.Receiver as table;
ghost use Rattle.amo_core.specs.declared.act.Act.TheVariants as act;

use crate::receiver::{Receiver, ReceiverMode};
use crate::{Act, Reply};
use amo_packet::OwnedBody;

impl Receiver {
    /// Whether this is the reply of the act's row. It never is where the act is none of a receiver's.
    pub fn replies(&self, act: &Act, reply: &Reply) -> bool
        ensures { IsTrue result ↔ ((table.row self.now act.now).reply ≡ Some reply.now) }
    {
        match act {
            Act::Get => self.replies_get(reply),
            Act::Put(_) | Act::Ack | Act::Start(_) | Act::Batch(_) => false,
            Act::Resend | Act::Deliver(_, _) | Act::Crash | Act::Recover => matches!(
                reply,
                Reply::Done
            ),
        }
    }

    fn replies_get(&self, reply: &Reply) -> bool
        ensures { IsTrue result ↔ ((table.row self.now act.Get).reply ≡ Some reply.now) }
    {
        match (&self.mode, reply) {
            (ReceiverMode::Rcvd(_, held), Reply::Got(message)) => {
                held.first().bytes() == message.bytes()
            }
            (ReceiverMode::Rcvd(_, _), _) => false,
            (ReceiverMode::Down, Reply::Down) => true,
            (ReceiverMode::Down, _) => false,
            (_, Reply::Nothing) => true,
            _ => false,
        }
    }

    /// Whether the act would leave another state than this one.
    pub fn is_changed_by(&self, act: &Act) -> bool
        ensures { (result ≡ false) ↔ ((table.row self.now act.now).state ≡ self.now) }
    {
        match act {
            Act::Get => matches!(self.mode, ReceiverMode::Rcvd(_, _)),
            Act::Deliver(packet, _) => self.is_moved_by(&packet.body),
            Act::Crash => !matches!(self.mode, ReceiverMode::Down),
            Act::Recover => matches!(self.mode, ReceiverMode::Down),
            Act::Put(_) | Act::Ack | Act::Start(_) | Act::Batch(_) | Act::Resend => false,
        }
    }

    /// Whether a delivery would: of a needuid at rest, of what is sent under the accepted identifier, or of the cleanup of one that is
    /// accepted or acknowledged.
    fn is_moved_by(&self, body: &OwnedBody) -> bool
        ensures { (word : ℕ) → (result ≡ false) ↔ ((table.deliver self.now body.now word).state ≡ self.now) }
    {
        match (body, &self.mode) {
            (OwnedBody::NeedUid(_), ReceiverMode::Idle) => true,
            (OwnedBody::Send(id, _) | OwnedBody::Batch(id, _), ReceiverMode::Accept(_, accepted)) =>
                accepted == id,
            (OwnedBody::Cleanup(id), ReceiverMode::Accept(_, under) | ReceiverMode::Ack(under)) =>
                under == id,
            _ => false,
        }
    }

    /// The word that the act would use up: of a needuid that finds the receiver at rest.
    pub fn used_word(&self, act: &Act) -> Option<u64>
        ensures { result ≡ table.used_word self.now act.now }
    {
        match (act, &self.mode) {
            (Act::Deliver(packet, word), ReceiverMode::Idle) => match packet.body {
                OwnedBody::NeedUid(_) => Some(*word),
                _ => None,
            },
            _ => None,
        }
    }
}
