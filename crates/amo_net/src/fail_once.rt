//! A link that fails once.
ghost use Rattle.std.specs.Prelude.{◌≡◌, ◌+◌, IsTrue, Some, false};
ghost use Rattle.amo_net.specs.Link.{has_failed};

use crate::{Link, LinkFault, MAX_DATAGRAM};

/// A link, one call of which fails. The link behind it is not called then.
#[derive(Drop)]
pub struct FailOnce<L> {
    /// The link behind it.
    pub link: L,
    /// How many calls there are before the one that fails; none once it has failed.
    pub calls_left: Option<u64>,
}

impl<L> FailOnce<L> {
    /// Over this link, with so many calls before the one that fails.
    pub fn new(link: L, calls: u64) -> FailOnce<L>
        ensures link { result.link ≡ link }
        ensures calls { result.calls_left ≡ Some calls }
    {
        FailOnce {
            link,
            calls_left: Some(calls),
        }
    }

    /// Whether this call fails.
    fn fails(&mut self) -> bool
        ensures link { self.new.link ≡ self.old.link }
        ensures yes { IsTrue result → has_failed self.new.calls_left ≡ has_failed self.old.calls_left + 1 }
        ensures no { result ≡ false → has_failed self.new.calls_left ≡ has_failed self.old.calls_left }
    {
        let fails = self.calls_left == Some(0);
        self.calls_left = self.calls_left.and_then(|calls| calls.checked_sub(1));
        fails
    }
}

impl<L: Link> Link for FailOnce<L> {
    ghost failures = { λ f. L.failures f.link + has_failed f.calls_left };

    fn send(&mut self, bytes: &[u8]) -> Result<(), LinkFault> {
        if self.fails() {
            return Err(LinkFault::Device);
        }
        self.link.send(bytes)
    }

    fn receive(&mut self, buffer: &mut [u8; MAX_DATAGRAM]) -> Result<Option<usize>, LinkFault> {
        if self.fails() {
            return Err(LinkFault::Device);
        }
        self.link.receive(buffer)
    }
}
