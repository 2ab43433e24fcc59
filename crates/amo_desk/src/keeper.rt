//! Who keeps account of a host while it is at work.
use crate::ServeFault;
use amo_live::Service;

/// Who looks at a host behind each turn, when its lines were written down and its packets have left: so each line that it has is with the system. It changes
/// nothing of the host, and a fault of it ends the host.
pub trait Keeper<L, S, W> {
    /// A turn is over.
    fn look(&mut self, service: &Service<L, S, W>) -> Result<(), ServeFault>;
}
