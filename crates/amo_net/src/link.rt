//! What carries datagrams.
ghost use Rattle.std.specs.Prelude.{◌≡◌, ◌+◌, ◌≤◌, IfOk, IfErr, IfSome, OnOk};

use crate::LinkFault;
use amo_packet::MAX_PACKET;

/// The length of the buffer that a link fills: one byte more than the longest packet.
///
/// A longer datagram is cut to this length. So it is too long to be a packet still, and nobody takes a part for the whole.
pub const MAX_DATAGRAM: usize = MAX_PACKET + 1;

/// One end of a way on which datagrams go in both directions.
///
/// Some may be lost, repeated or put in another order. No call waits for a datagram.
pub trait Link {
    ghost use Rattle.std.specs.Prelude.{ℕ};

    /// How often the device has failed.
    ghost failures: { Self → ℕ };

    /// Sends a datagram of these bytes.
    ///
    /// A call that fails is counted once. Where memory is refused nothing is sent, and nothing is counted.
    fn send(&mut self, bytes: &[u8]) -> Result<(), LinkFault>
        ensures calm { OnOk result (failures self.new ≡ failures self.old) }
        ensures device { IfErr result (λ f. f ≡ LinkFault.Device → failures self.new ≡ failures self.old + 1) }
        ensures memory { IfErr result (λ f. f ≡ LinkFault.NoMemory → failures self.new ≡ failures self.old) };

    /// The length of a datagram that now stands at the front of the buffer, or none where none has come.
    ///
    /// A call that fails is counted once. It takes no memory.
    fn receive(&mut self, buffer: &mut [u8; MAX_DATAGRAM]) -> Result<Option<usize>, LinkFault>
        ensures length { IfOk result (λ r. IfSome r (λ n. n ≤ MAX_DATAGRAM)) }
        ensures calm { OnOk result (failures self.new ≡ failures self.old) }
        ensures device { IfErr result (λ f. (f ≡ LinkFault.Device) × (failures self.new ≡ failures self.old + 1)) };
}
