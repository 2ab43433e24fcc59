//! What a sender keeps of its journal: the lines that tell of messages without an answer.
ghost use Rattle.std.specs.Prelude.{◌≡◌, ◌++◌, IfOk, OnOk};
ghost use Rattle.amo_live.specs.Host.{IsNoted, open_text_of};
ghost use Rattle.amo_live.specs.Service.{doubtful, is_in_doubt, unanswered_by};
ghost use Rattle.amo_live.specs.Unanswered.{text_of};

use crate::Lineage;
use crate::service::Service;
use amo_net::Link;
use amo_text::Sink;
use std::alloc::AllocError;

impl<L: Link, S: Sink, W: Lineage> Service<L, S, W> {
    /// Appends those lines of a sender's journal that tell of messages without an answer, stream after stream, each whole: the puts of these messages,
    /// how the handshake began that is open, and how its accept came, in the order in which they were written. Read from rest, they bring each stream's
    /// sender to where the whole journal does. A receiver has none.
    pub fn unanswered_lines(&self, text: &mut Vec<u8>) -> Result<(), AllocError>
        ensures text { OnOk result (text.new.items ≡ text.old.items ++ text_of (unanswered_by self.now)) }
        ensures lines { OnOk result (IsNoted S.written self.now.host → text.new.items ≡ text.old.items ++ open_text_of self.now.host) }
    {
        self.host.unanswered.push_lines(text)
    }

    /// The streams on which it is in doubt what became of a message that an earlier life sent, in their order.
    pub fn streams_in_doubt(&self) -> Result<Vec<u32>, AllocError>
        ensures { IfOk result (λ streams. streams.items ≡ doubtful self.now) }
    {
        let mut found = Vec::new(self.host.alloc);
        let count = self.setup.streams;
        'streams: for place in 0..count {
            let stream = place + 1;
            if self.is_in_doubt(stream) {
                found.push(stream)?;
            }
        }
        Ok(found)
    }

    /// Whether it is in doubt what became of a message that an earlier life sent on this stream.
    fn is_in_doubt(&self, stream: u32) -> bool
        ensures { result ≡ is_in_doubt self.now stream }
    {
        match self.lane(stream) {
            Some(lane) => lane.in_doubt,
            None => false,
        }
    }
}
