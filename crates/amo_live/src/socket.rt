//! The socket of a live host. Whatever it says, the host goes on.
ghost use Rattle.std.specs.Prelude.{◌≡◌, ◌+◌, ◌<◌, ◌≤◌, IfOk, IfSome};

use crate::{Cause, SocketFault};
use amo_net::{Link, LinkFault, MAX_DATAGRAM};
use amo_text::Failures;
use std::io;
use std::io::ErrorKind;
use std::marker::Model;
use std::net::{Net, SocketAddr, UdpSocket};
use std::os::fd::AsRawFd;
use std::sync::ledger::{Blank, Ledger};

/// A socket that is connected to its peer, and that can be waited for. It hands out what the peer sent, and nothing else. Contracts see how many
/// of its calls have failed.
#[derive(Drop)]
pub struct Socket<L: Ledger> {
    socket: UdpSocket,
    peer: SocketAddr,
    /// What others sent before it was connected may wait in it.
    has_others: bool,
    failures: Failures<L>,
}

impl<L: Ledger> Model for Socket<L> {
    ghost use Rattle.std.specs.Prelude.{ℕ};

    ghost Value = { ℕ };

    ghost view = { λ socket. socket.failures };
}

impl<L: Ledger> Socket<L> {
    /// A socket at one address, connected to the peer at another, no call of which waits or has failed. From now on the system drops what
    /// others send. What they sent before waits in it, and is not handed out.
    ///
    /// The blank becomes the ledger in which contracts count failures. It takes no bytes.
    pub fn open<R: Net>(
        rt: &R,
        listen: &str,
        peer: &str,
        blank: Blank,
    ) -> Result<Socket<L>, SocketFault>
        requires name { blank.name ≡ L.name }
        requires parts { blank.parts ≡ L.parts }
        requires some { 0 < L.parts }
        ensures calm { IfOk result (λ socket. socket ≡ 0) }
    {
        let socket = match bound(rt, listen) {
            Ok(socket) => socket,
            Err(error) => return Err(SocketFault::Listen(Cause::from(error))),
        };
        let peer = match connected(&socket, peer) {
            Ok(peer) => peer,
            Err(error) => return Err(SocketFault::Peer(Cause::from(error))),
        };
        Ok(Socket {
            socket,
            peer,
            has_others: true,
            failures: Failures::new(blank),
        })
    }

    /// The length of the datagram that has come, if it is the peer's. Until none was left once, what others sent may stand in front: there are as many at
    /// most as the system keeps for a socket.
    fn take(&mut self, buffer: &mut [u8; MAX_DATAGRAM]) -> io::Result<Option<usize>>
        ensures length { IfOk result (λ taken. IfSome taken (λ n. n ≤ MAX_DATAGRAM)) }
        ensures same { self.new ≡ self.old }
    {
        if !self.has_others {
            return Ok(Some(self.socket.recv(buffer.as_mut_slice())?));
        }
        let (length, sender) = self.socket.recv_from(buffer.as_mut_slice())?;
        Ok(is_same(sender, self.peer).then_some(length))
    }

    /// Counts a call that failed.
    fn failed(&mut self) -> LinkFault
        ensures counted { self.new ≡ self.old + 1 }
        ensures fault { result ≡ LinkFault.Device }
    {
        self.failures.count();
        LinkFault::Device
    }

    /// Where it listens. The port is the one that the system chose, where it was left to choose.
    pub fn address(&self) -> Result<SocketAddr, SocketFault> {
        match self.socket.local_addr() {
            Ok(address) => Ok(address),
            Err(error) => Err(SocketFault::Listen(Cause::from(error))),
        }
    }

    /// The number by which the system waits for it.
    pub fn number(&self) -> i32 {
        self.socket.as_raw_fd()
    }
}

impl<L: Ledger> Link for Socket<L> {
    ghost failures = { λ socket. socket };

    fn send(&mut self, bytes: &[u8]) -> Result<(), LinkFault> {
        match self.socket.send(bytes) {
            Ok(count) if count == bytes.len() => Ok(()),
            Err(error) if error.kind() == ErrorKind::OutOfMemory => Err(LinkFault::NoMemory),
            _ => Err(self.failed()),
        }
    }

    fn receive(&mut self, buffer: &mut [u8; MAX_DATAGRAM]) -> Result<Option<usize>, LinkFault> {
        match self.take(buffer) {
            Ok(length) => Ok(length),
            Err(error) if error.kind() == ErrorKind::WouldBlock => {
                self.has_others = false;
                Ok(None)
            }
            Err(_) => Err(self.failed()),
        }
    }
}

/// A socket at this address, no call of which waits.
fn bound<R: Net>(rt: &R, listen: &str) -> io::Result<UdpSocket> {
    // Where a standard stream is closed, the socket has its number, and sends what is shown there. A clone has a number of its own.
    let socket = UdpSocket::bind(rt, listen)?.try_clone()?;
    socket.set_nonblocking(true)?;
    Ok(socket)
}

/// Connects a socket to the peer at this address, and answers which that is.
fn connected(socket: &UdpSocket, peer: &str) -> io::Result<SocketAddr> {
    socket.connect(peer)?;
    socket.peer_addr()
}

/// Whether two addresses are of one socket. Of an address of IPv6 the system tells more at some calls than at others.
fn is_same(one: SocketAddr, other: SocketAddr) -> bool {
    one.ip() == other.ip() && one.port() == other.port()
}
