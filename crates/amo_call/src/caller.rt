//! Who makes calls.
ghost use Rattle.std.specs.Prelude.{◌≡◌, IfNone, IfOk, IfSome};
ghost use Rattle.amo_door.specs.declared.place.Method.TheVariants.{Get};
ghost use Rattle.amo_call.specs.Heard.{ToQuestion};

use crate::{Kept, Request, Response};
use amo_door::Word;
use amo_packet::MessageFault;
use std::alloc::AllocError;
use thiserror::Error;

/// Why a call cannot go on. Its file has what it had, or what was to be kept last.
#[derive(Clone, Copy, Debug, PartialEq, Eq, Error)]
pub enum CallFault {
    /// Memory was refused.
    #[error("out of memory")]
    NoMemory,
    /// The file of the call could not be written, or removed. The device is at fault.
    #[error("the file of the call could not be written")]
    File,
    /// The answer is not one of such a door.
    #[error("what came is no answer of a door")]
    Strange,
}

impl From<AllocError> for CallFault {
    ghost use Rattle.std.specs.Prelude.{◌≡◌};
    ghost use Rattle.amo_call.specs.declared.caller.CallFault.TheVariants.{NoMemory};

    ghost from_gives = { λ _ fault. fault ≡ NoMemory };

    fn from(_: AllocError) -> CallFault {
        CallFault::NoMemory
    }
}

impl From<MessageFault> for CallFault {
    fn from(fault: MessageFault) -> CallFault {
        match fault {
            MessageFault::NoMemory => CallFault::NoMemory,
            MessageFault::TooLong => CallFault::Strange,
        }
    }
}

/// Who keeps a call in a file and asks a door. What changes something is asked only as the file has it: so whoever finds the file makes the same call.
///
/// Contracts see what the file has, and what was answered to what: what is told of a call rests on that alone.
pub trait Caller {
    ghost use Rattle.std.specs.Prelude.{◌≡◌, ℕ, List, [], IfNone, IfOk, IfSome, OnOk};
    ghost use Rattle.amo_door.specs.declared.place.Method.TheVariants.{Get};
    ghost use Rattle.amo_call.specs.Heard.{Heard, ToCall, ToFirst, ToQuestion};
    ghost use Rattle.amo_call.specs.Kept.{kept_text};
    ghost use Rattle.amo_call.specs.Naming.{MayForget, MayName, MayNote};

    /// What the file of the call has: nothing where there is none.
    ghost saved: { Self → List ℕ };

    /// That the call which the file has was not made since it came there.
    ghost is_fresh: { Self → Type 0 };

    /// That no answer came to what was asked or made last.
    ghost is_silent: { Self → Type 0 };

    /// That this was answered.
    ghost heard: { Heard → Type 0 };

    /// Puts a new call into the file: at first, behind one that is known to have put or taken nothing, or behind one whose message is done.
    fn name(&mut self, kept: &Kept) -> Result<(), CallFault>
        requires { MayName heard (saved self.old) kept.now }
        ensures saved { OnOk result (saved self.new ≡ kept_text kept.now) }
        ensures fresh { OnOk result (is_fresh self.new) };

    /// Puts into the file what became of the call that it has: that its message was put, or which one was taken, or that this is done.
    fn note(&mut self, kept: &Kept) -> Result<(), CallFault>
        requires { MayNote heard (saved self.old) kept.now }
        ensures saved { OnOk result (saved self.new ≡ kept_text kept.now) };

    /// Takes out of the file the call that it has, which is known to have put nothing: who finds the file later cannot know that.
    fn forget(&mut self) -> Result<(), CallFault>
        requires { MayForget heard (saved self.old) }
        ensures saved { OnOk result (saved self.new ≡ []) };

    /// Makes the call that the file has. None where no answer came: then it may have been made.
    fn make(&mut self, kept: &Kept) -> Result<Option<Response>, CallFault>
        requires { saved self.old ≡ kept_text kept.now }
        ensures saved { saved self.new ≡ saved self.old }
        ensures heard { IfOk result (λ answer. IfSome answer (λ response. heard (ToCall kept.now response))) }
        ensures first { is_fresh self.old → IfOk result (λ answer. IfSome answer (λ response. heard (ToFirst kept.now response))) }
        ensures silent { IfOk result (λ answer. IfNone answer (is_silent self.new)) };

    /// Asks what changes nothing. None where no answer came.
    fn ask(&mut self, request: &Request) -> Result<Option<Response>, CallFault>
        requires { request.now.method ≡ Get }
        ensures saved { saved self.new ≡ saved self.old }
        ensures heard { IfOk result (λ answer. IfSome answer (λ response. heard (ToQuestion request.now response))) }
        ensures silent { IfOk result (λ answer. IfNone answer (is_silent self.new)) };

    /// Waits a little. Answers whether there is time to try once more.
    fn pause(&mut self) -> bool
        ensures saved { saved self.new ≡ saved self.old }
        ensures silent { is_silent self.old → is_silent self.new };
}

/// Asks what changes nothing until an answer comes, as long as there is time. None where none came.
pub(crate) fn ask_until<C: Caller>(
    caller: &mut C,
    request: &Request,
) -> Result<Option<Response>, CallFault>
    requires { request.now.method ≡ Get }
    ensures saved { C.saved caller.new ≡ C.saved caller.old }
    ensures heard { IfOk result (λ answer. IfSome answer (λ response. C.heard (ToQuestion request.now response))) }
    ensures silent { IfOk result (λ answer. IfNone answer (C.is_silent caller.new)) }
{
    'asks: for _ask in 0..u64::MAX {
        let response = caller.ask(request)?;
        if is_answer(&response) || !caller.pause() {
            return Ok(response);
        }
    }
    Err(CallFault::Strange)
}

/// Whether an answer came that is more than a wish to be asked later.
fn is_answer(response: &Option<Response>) -> bool {
    match response {
        Some(response) => response.status != 503 && response.status != 408,
        None => false,
    }
}

/// Another one of a word.
pub(crate) fn copied(word: &Word) -> Word
    ensures { result ≡ word.now }
{
    match Word::read(word.bytes()) {
        Some(copy) => copy,
        None => unreachable!(),
    }
}
