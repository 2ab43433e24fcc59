//! How a pump comes by its link.
ghost use Rattle.std.specs.Prelude.{◌≡◌, ◌<◌};
ghost use Rattle.amo_run.specs.Crew.{Returned};
ghost use Rattle.amo_run.specs.Engine.{Works};
ghost use Rattle.amo_run.specs.Versions.{version_of};

use crate::work::{Pumped, Task, cut_off, drive};
use crate::workplace::Workplace;
use amo_book::Pass;
use amo_net::{Lossy, LossyEnd, UdpPort};
use amo_word::ChaChaWords;
use std::alloc::Global;
use std::marker::Brand;
use std::net::SocketAddr;
use std::sync::Wait;
use std::sync::ledger::{Blank, Ledger};

/// What becomes a link on the thread of the pump that uses it.
pub trait Wire {
    ghost use Rattle.amo_run.specs.Crew.{Returned};
    ghost use Rattle.amo_run.specs.Engine.{Works};
    ghost use Rattle.amo_run.specs.Versions.{version_of};

    /// Drives a pump over the link. Its events have lines in a journal of this version.
    fn drive<R: Wait>(
        self,
        rt: &R,
        alloc: Global,
        place: Workplace<'_>,
        pass: Pass,
        task: Task,
    ) -> Pumped
        requires works { Works place.book.now pass task.pump }
        requires version { place.version ≡ version_of task.pump }
        ensures { Returned place.entry.book.now pass task.pump result };
}

impl<'a, W: Wait> Wire for LossyEnd<'a, ChaChaWords, W> {
    fn drive<R: Wait>(
        self,
        rt: &R,
        alloc: Global,
        place: Workplace<'_>,
        pass: Pass,
        task: Task,
    ) -> Pumped {
        drive(rt, alloc, place, pass, task, self)
    }
}

/// A socket, and where its peer is.
#[derive(Drop)]
pub struct Socket {
    pub port: UdpPort,
    pub peer: SocketAddr,
}

impl Wire for Socket {
    fn drive<R: Wait>(
        self,
        rt: &R,
        alloc: Global,
        place: Workplace<'_>,
        pass: Pass,
        task: Task,
    ) -> Pumped {
        drive_socket::<R, Brand>(rt, alloc, place, pass, task, self, Blank::new(1))
    }
}

/// Connects the socket, and drives a pump over it. The blank becomes the ledger in which contracts count its failures.
fn drive_socket<R: Wait, L: Ledger>(
    rt: &R,
    alloc: Global,
    place: Workplace<'_>,
    pass: Pass,
    task: Task,
    socket: Socket,
    blank: Blank,
) -> Pumped
    requires name { blank.name ≡ L.name }
    requires parts { blank.parts ≡ L.parts }
    requires some { 0 < L.parts }
    requires together { Works place.book.now pass task.pump }
    requires version { place.version ≡ version_of task.pump }
    ensures { Returned place.entry.book.now pass task.pump result }
{
    let Socket { port, peer } = socket;
    match port.connect::<L>(peer, blank) {
        Ok(link) => drive(rt, alloc, place, pass, task, link),
        Err(fault) => cut_off(alloc, place.book, pass, task, fault),
    }
}
