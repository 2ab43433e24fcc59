//! Calls of a file, made to their end: which status goes with what became of them.
ghost use Rattle.std.specs.Prelude.{◌≡◌, [], IfNone, IfOk, IfSome};
ghost use Rattle.amo_call.specs.Kept.{kept_text};
ghost use Rattle.amo_call.specs.Puts.{ComesTo};
ghost use Rattle.amo_client.specs.Statuses.{EndsDone, EndsPut};

use crate::fault::ClientFault;
use crate::station::Explains;
use crate::telling::{tell_nothing_taken, tell_put};
use amo_call::{Caller, Kept, Order, note_done, put};

/// Puts a message once, by the call that was found in a file, if one was, and tells what is known of it. The status is that of what answers told.
pub(crate) fn put_and_tell<R: AllocGlobal + Eprint + Print, C: Caller + Explains>(
    rt: &R,
    caller: &mut C,
    found: Option<Kept>,
    order: &Order,
    path: &str,
) -> Result<u8, ClientFault>
    requires found { IfSome found (λ kept. C.saved caller.old ≡ kept_text kept) }
    requires none { IfNone found (C.saved caller.old ≡ []) }
    ensures { IfOk result (EndsPut C.heard order.now (ComesTo C.heard order.now found) (C.is_silent caller.new) (C.saved caller.new)) }
{
    let told = put(rt.alloc(), caller, found, order);
    let why = caller.why();
    match told {
        Ok(told) => tell_put(rt, path, why, told),
        Err(fault) => Err(ClientFault::of_call(rt.alloc(), path, fault, why)),
    }
}

/// Notes in the file of a call that its message is done. The status is 0 only where the file says so.
pub(crate) fn end_and_tell<R: AllocGlobal + Eprint, C: Caller + Explains>(
    rt: &R,
    caller: &mut C,
    kept: Kept,
    path: &str,
) -> Result<u8, ClientFault>
    requires { C.saved caller.old ≡ kept_text kept }
    ensures { IfOk result (EndsDone kept (C.saved caller.new)) }
{
    let noted = note_done(caller, kept);
    let why = caller.why();
    match noted {
        Ok(true) => Ok(0),
        Ok(false) => Ok(tell_nothing_taken(rt, path)),
        Err(fault) => Err(ClientFault::of_call(rt.alloc(), path, fault, why)),
    }
}
