//! Why a call of a door cannot be made.
ghost use Rattle.std.specs.Prelude.{◌≡◌, ◌≢◌, IsNone, IsSome};
ghost use Rattle.std.specs.IoError.{error_kind, raw_os_error};
ghost use Rattle.amo_client.specs.Fault.{IsOfAddress, IsOfFile, IsOfInput, IsOfOutput, IsOfToken, IsOfUnknown, IsOfUntold, IsOfCall};

use amo_call::CallFault;
use amo_disk::Cause;
use std::alloc::{AllocError, Global};
use std::io;
use std::io::ErrorKind;
use thiserror::Error;

/// Why a call of a door cannot be made, or not be told of. Its text has `amo: ` in front of each line.
#[derive(Debug, Drop, Error)]
pub enum ClientFault {
    /// Memory was refused.
    #[error("amo: out of memory")]
    NoMemory,
    /// The file of a call failed, and there is no more to tell.
    #[error("amo: device")]
    Device,
    /// The file of this name failed, for this cause.
    #[error("amo: {0}: {1}")]
    File(String, Cause),
    /// Standard input failed, for this cause.
    #[error("amo: device\namo: standard input: {0}")]
    Input(Cause),
    /// Standard output failed, for this cause.
    #[error("amo: device\namo: standard output: {0}")]
    Output(Cause),
    /// A text is the address of no socket, or has a name that is not known.
    #[error("amo: no address: {0}: {1}")]
    NoAddress(String, io::Error),
    /// A call of the system failed while the name of an address was looked up.
    #[error("amo: cannot look up {0}: {1}")]
    Lookup(String, Cause),
    /// What stands in this file is no token.
    #[error("amo: {0}: it has no token: one line of 16 to 256 letters, digits and -._~+/=")]
    Token(String),
    /// Another call has the file of this name in use.
    #[error("amo: {0}: another call has it in use")]
    InUse(String),
    /// The system tells no time.
    #[error("amo: the system tells no time: {0}")]
    Clock(Cause),
    /// What came from a door is no answer of one.
    #[error("amo: what came is no answer of a door")]
    Strange,
    /// The system gives no random bytes.
    #[error("amo: the system gives no random bytes: {0}")]
    Random(Cause),
}

impl ClientFault {
    /// The addresses that this text stands for were not found, or were not looked up to the end.
    pub(crate) fn of_address(alloc: Global, address: &str, error: io::Error) -> ClientFault
        ensures memory { error_kind error ≡ ErrorKind.OutOfMemory → result ≡ ClientFault.NoMemory }
        ensures failed { error_kind error ≢ ErrorKind.OutOfMemory → IsSome (raw_os_error error) → IsOfUntold address.now result }
        ensures none { error_kind error ≢ ErrorKind.OutOfMemory → IsNone (raw_os_error error) → IsOfUnknown address.now result }
        ensures named { IsOfAddress address.now result }
    {
        if error.kind() == ErrorKind::OutOfMemory {
            return ClientFault::NoMemory;
        }
        let Ok(address) = String::from_str(alloc, address) else {
            return ClientFault::NoMemory;
        };
        match error.raw_os_error() {
            Some(_code) => ClientFault::Lookup(address, Cause::from(error)),
            None => ClientFault::NoAddress(address, error),
        }
    }

    /// The file of this name failed, for this cause.
    pub(crate) fn of_file(alloc: Global, path: &str, cause: Cause) -> ClientFault
        ensures { IsOfFile path.now cause result }
    {
        match String::from_str(alloc, path) {
            Ok(path) => ClientFault::File(path, cause),
            Err(_) => ClientFault::NoMemory,
        }
    }

    /// Standard input failed so.
    pub(crate) fn of_input(error: io::Error) -> ClientFault
        ensures memory { error_kind error ≡ ErrorKind.OutOfMemory → result ≡ ClientFault.NoMemory }
        ensures other { error_kind error ≢ ErrorKind.OutOfMemory → IsOfInput result }
    {
        match error.kind() {
            ErrorKind::OutOfMemory => ClientFault::NoMemory,
            _ => ClientFault::Input(Cause::from(error)),
        }
    }

    /// Standard output failed so.
    pub(crate) fn of_output(error: io::Error) -> ClientFault
        ensures memory { error_kind error ≡ ErrorKind.OutOfMemory → result ≡ ClientFault.NoMemory }
        ensures other { error_kind error ≢ ErrorKind.OutOfMemory → IsOfOutput result }
    {
        match error.kind() {
            ErrorKind::OutOfMemory => ClientFault::NoMemory,
            _ => ClientFault::Output(Cause::from(error)),
        }
    }

    /// What stands in this file is no token.
    pub(crate) fn of_token(alloc: Global, file: &str) -> ClientFault
        ensures { IsOfToken file.now result }
    {
        match String::from_str(alloc, file) {
            Ok(file) => ClientFault::Token(file),
            Err(_) => ClientFault::NoMemory,
        }
    }

    /// A call that the file of this name keeps cannot go on. If a call of the system failed, this is why.
    pub(crate) fn of_call(
        alloc: Global,
        path: &str,
        fault: CallFault,
        cause: Option<Cause>,
    ) -> ClientFault
        ensures { IsOfCall path.now fault cause result }
    {
        match (fault, cause) {
            (CallFault::NoMemory, _) => ClientFault::NoMemory,
            (CallFault::File, Some(cause)) => ClientFault::of_file(alloc, path, cause),
            (CallFault::File, None) => ClientFault::Device,
            (CallFault::Strange, _) => ClientFault::Strange,
        }
    }
}

impl From<AllocError> for ClientFault {
    ghost use Rattle.std.specs.Prelude.{◌≡◌};
    ghost use Rattle.amo_client.specs.declared.fault.ClientFault.TheVariants.{NoMemory};

    ghost from_gives = { λ _ fault. fault ≡ NoMemory };

    fn from(_: AllocError) -> ClientFault {
        ClientFault::NoMemory
    }
}
