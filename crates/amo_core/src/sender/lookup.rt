//! What a sender would reply, whether it would change, and which word it would use up: looked up, with nothing changed.
ghost use Rattle.std.specs.Prelude.{◌≡◌, ◌↔◌, ℕ, List, Some, IsTrue, false};
ghost use Rattle.amo_core.specs.Sender as table;
ghost use Rattle.amo_core.specs.Sender.{is_down};
ghost use Rattle.amo_core.specs.declared.act.Act.TheVariants as act;

use crate::sender::{Sender, SenderMode};
use crate::{AckReply, Act, Reply};
use amo_packet::OwnedBody;

impl Sender {
    /// Whether this is the reply of the act's row. It never is where the act is none of a sender's.
    pub fn replies(&self, act: &Act, reply: &Reply) -> bool
        ensures { IsTrue result ↔ ((table.row self.now act.now).reply ≡ Some reply.now) }
    {
        match act {
            Act::Put(_) => self.replies_put(reply),
            Act::Ack => self.replies_ack(reply),
            Act::Get => false,
            Act::Start(_)
            | Act::Batch(_)
            | Act::Resend
            | Act::Deliver(_, _)
            | Act::Crash
            | Act::Recover => matches!(reply, Reply::Done),
        }
    }

    fn replies_put(&self, reply: &Reply) -> bool
        ensures { (m : List ℕ) → IsTrue result ↔ ((table.row self.now (act.Put m)).reply ≡ Some reply.now) }
    {
        match reply {
            Reply::Down => self.is_down(),
            Reply::Full => !self.is_down() && self.waiting.is_full(),
            Reply::Ok => !self.is_down() && !self.waiting.is_full(),
            _ => false,
        }
    }

    fn is_down(&self) -> bool
        ensures { result ≡ is_down self.now.mode }
    {
        matches!(self.mode, SenderMode::Down)
    }

    fn replies_ack(&self, reply: &Reply) -> bool
        ensures { IsTrue result ↔ ((table.row self.now act.Ack).reply ≡ Some reply.now) }
    {
        match (self.get_ack(), reply) {
            (AckReply::Yes, Reply::Yes) => true,
            (AckReply::No, Reply::No) => true,
            (AckReply::NotYet, Reply::NotYet) => true,
            (AckReply::Down, Reply::Down) => true,
            _ => false,
        }
    }

    /// Whether the act would leave another state than this one.
    pub fn is_changed_by(&self, act: &Act) -> bool
        ensures { (result ≡ false) ↔ ((table.row self.now act.now).state ≡ self.now) }
    {
        match act {
            Act::Put(_) => !self.is_down() && !self.waiting.is_full(),
            Act::Start(_) | Act::Batch(_) => self.used_word(act).is_some(),
            Act::Deliver(packet, _) => self.is_moved_by(&packet.body),
            Act::Crash => !self.is_down() || !self.waiting.is_empty(),
            Act::Recover => self.is_down(),
            Act::Get | Act::Ack | Act::Resend => false,
        }
    }

    /// Whether a delivery would: of the accept that the sender asked for, or of an ack of what it sends.
    fn is_moved_by(&self, body: &OwnedBody) -> bool
        ensures { (result ≡ false) ↔ ((table.deliver self.now body.now).state ≡ self.now) }
    {
        match (body, &self.mode) {
            (OwnedBody::Accept(jd, _), SenderMode::NeedId(asked, _)) => asked == jd,
            (OwnedBody::Ack(id, _), SenderMode::Send(under, _)) => under == id,
            _ => false,
        }
    }

    /// The word that the act would use up: of a start, of one message or of a batch, that emits a needuid.
    pub fn used_word(&self, act: &Act) -> Option<u64>
        ensures { result ≡ table.used_word self.now act.now }
    {
        match (act, &self.mode) {
            (Act::Start(word) | Act::Batch(word), SenderMode::Quiet(_))
                if !self.waiting.is_empty() => { Some(*word) }
            _ => None,
        }
    }
}
