//! Why a pump was not made, and why a turn failed.
ghost use Rattle.std.specs.Prelude.{◌≡◌};
ghost use Rattle.amo_host.specs.Fault.{pump_code, new_pump_code, divide_code};

use amo_book::{Charge, DriveFault};
use thiserror::Error;

/// Why a turn made no event. Permits, timers and the pass are as before; the datagram is gone, and so is a word that was
/// drawn. After a start that was Busy its charge comes last in the rotation.
#[derive(Clone, Copy, Debug, PartialEq, Eq, Error)]
pub enum PumpFault {
    /// Another call was at work at the side. The caller may try again.
    #[error("the side is busy")]
    Busy,
    /// Memory was refused for the message of a packet. The caller may try again later.
    #[error("out of memory")]
    NoMemory,
    /// The words that were handed in are used up. The caller may hand in more.
    #[error("there is no word left")]
    NoWord,
}

impl PumpFault {
    /// The number of this fault.
    pub fn code(&self) -> u8
        ensures { result ≡ pump_code self.now }
    {
        match self {
            PumpFault::NoMemory => 9,
            PumpFault::Busy => 43,
            PumpFault::NoWord => 51,
        }
    }
}

impl From<DriveFault> for PumpFault {
    ghost use Rattle.amo_book.specs.declared.fault.DriveFault.TheVariants as drive_fault;
    ghost use Rattle.amo_host.specs.declared.fault.PumpFault.TheVariants as pump_fault;

    ghost from_gives = { λ from fault. (from ≡ drive_fault.Busy → fault ≡ pump_fault.Busy) × (from ≡ drive_fault.NoMemory → fault ≡ pump_fault.NoMemory) };

    fn from(fault: DriveFault) -> PumpFault {
        match fault {
            DriveFault::Busy => PumpFault::Busy,
            DriveFault::NoMemory => PumpFault::NoMemory,
        }
    }
}

/// Why no pump was made, with the charges and words that were handed in.
#[derive(Drop)]
pub enum NewPumpFault<W> {
    /// There is no charge, or they are of both sides, or do not rise by stream, or the window is not of 1 to 64.
    Limits(Vec<Charge>, W),
    /// Memory was refused. The caller may try again later.
    NoMemory(Vec<Charge>, W),
}

impl<W> NewPumpFault<W> {
    /// The number of this fault.
    pub fn code(&self) -> u8
        ensures { result ≡ new_pump_code self.now }
    {
        match self {
            NewPumpFault::NoMemory(_, _) => 9,
            NewPumpFault::Limits(_, _) => 31,
        }
    }
}

/// Why charges were not divided, with the charges and words that were handed in, in their order.
#[derive(Drop)]
pub enum DivideFault<W> {
    /// The pumps are not 1 to 4, or the words are not as many, or there is no charge or no handshake for each, or a pump could not have
    /// the charges.
    Limits(Vec<Charge>, Vec<W>),
    /// Memory was refused. The caller may try again later.
    NoMemory(Vec<Charge>, Vec<W>),
}

impl<W> DivideFault<W> {
    /// The number of this fault.
    pub fn code(&self) -> u8
        ensures { result ≡ divide_code self.now }
    {
        match self {
            DivideFault::NoMemory(_, _) => 9,
            DivideFault::Limits(_, _) => 31,
        }
    }
}
