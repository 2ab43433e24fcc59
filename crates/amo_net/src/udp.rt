//! Links over UDP sockets.
ghost use Rattle.std.specs.Prelude.{◌≡◌, ◌+◌, ◌<◌, IfOk};

use crate::{Link, LinkFault, MAX_DATAGRAM};
use amo_text::Failures;
use std::io;
use std::io::ErrorKind;
use std::marker::Model;
use std::net::{Net, SocketAddr, UdpSocket};
use std::sync::ledger::{Blank, Ledger};

/// A socket at an address of this machine, with no peer yet. No call of it waits.
#[derive(Drop)]
pub struct UdpPort {
    socket: UdpSocket,
}

impl UdpPort {
    /// A socket at this address. With port 0 the system picks one.
    pub fn open<R: Net>(rt: &R, local: SocketAddr) -> Result<UdpPort, LinkFault> {
        let socket = UdpSocket::bind(rt, local).map_err(fault_of)?;
        socket.set_nonblocking(true).map_err(fault_of)?;
        Ok(UdpPort { socket })
    }

    /// Where it is, with the port that the system picked.
    pub fn address(&self) -> Result<SocketAddr, LinkFault> {
        self.socket.local_addr().map_err(fault_of)
    }

    /// A link to the peer at this address, no call of which has failed. From now on the system drops what others send.
    ///
    /// The blank becomes the ledger in which contracts count failures. It takes no bytes.
    pub fn connect<L: Ledger>(self, peer: SocketAddr, blank: Blank) -> Result<UdpLink<L>, LinkFault>
        requires name { blank.name ≡ L.name }
        requires parts { blank.parts ≡ L.parts }
        requires some { 0 < L.parts }
        ensures calm { IfOk result (λ link. link ≡ 0) }
    {
        self.socket.connect(peer).map_err(fault_of)?;
        Ok(UdpLink {
            socket: self.socket,
            failures: Failures::new(blank),
        })
    }
}

/// What a failed call of the system means.
fn fault_of(error: io::Error) -> LinkFault {
    match error.kind() {
        ErrorKind::OutOfMemory => LinkFault::NoMemory,
        _ => LinkFault::Device,
    }
}

/// A socket that is connected to its peer. Contracts see how many of its calls have failed.
#[derive(Drop)]
pub struct UdpLink<L: Ledger> {
    socket: UdpSocket,
    failures: Failures<L>,
}

impl<L: Ledger> Model for UdpLink<L> {
    ghost use Rattle.std.specs.Prelude.{ℕ};

    ghost Value = { ℕ };

    ghost view = { λ link. link.failures };
}

impl<L: Ledger> UdpLink<L> {
    /// Counts a call that failed.
    fn failed(&mut self) -> LinkFault
        ensures counted { self.new ≡ self.old + 1 }
        ensures fault { result ≡ LinkFault.Device }
    {
        self.failures.count();
        LinkFault::Device
    }
}

impl<L: Ledger> Link for UdpLink<L> {
    ghost failures = { λ link. link };

    fn send(&mut self, bytes: &[u8]) -> Result<(), LinkFault> {
        match self.socket.send(bytes) {
            Ok(count) if count == bytes.len() => Ok(()),
            Err(error) if error.kind() == ErrorKind::OutOfMemory => Err(LinkFault::NoMemory),
            _ => Err(self.failed()),
        }
    }

    fn receive(&mut self, buffer: &mut [u8; MAX_DATAGRAM]) -> Result<Option<usize>, LinkFault> {
        match self.socket.recv(buffer.as_mut_slice()) {
            Ok(length) => Ok(Some(length)),
            Err(error) if error.kind() == ErrorKind::WouldBlock => Ok(None),
            Err(_) => Err(self.failed()),
        }
    }
}
