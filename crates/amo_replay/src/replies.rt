//! What a call on the book's sides is replied.
ghost use Rattle.std.specs.Prelude.{◌≡◌, ℕ, Some, None, IfOk, IfErr};

use crate::ToolFault;
use amo_core::Reply;

/// The reply of a call that made an event, as the book tells it. A call on a stream that there is makes one, unless its side was busy.
pub(crate) fn replied(known: Option<(Reply, u64)>) -> Result<Reply, ToolFault>
    ensures reply { IfOk result (λ reply. (position : ℕ) × (known ≡ Some (reply, position))) }
    ensures busy { IfErr result (λ fault. (fault ≡ ToolFault.Busy) × (known ≡ None)) }
{
    match known {
        Some((reply, _)) => Ok(reply),
        None => Err(ToolFault::Busy),
    }
}
