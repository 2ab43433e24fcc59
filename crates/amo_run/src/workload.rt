//! The calls of the clients of a run.
ghost use Rattle.std.specs.Prelude.{◌≡◌, ◌≤◌, length, IfOk};
ghost use Rattle.amo_run.specs.Parts.{clients_of};

use crate::part::Part;
use crate::{ClientCall, ClientReply, RunSettings, Script};
use amo_packet::{Message, MessageFault};
use amo_world::NoMemory;
use std::alloc::{AllocError, Global};
use std::sync::Wait;
use std::thread::Parker;
use std::time::Duration;

/// How many calls a client makes.
const CALLS: u32 = 1_000;

/// How long a client pauses where a call found nothing to do: long enough for a handshake where a processor is free.
const PAUSE_MILLISECONDS: u64 = 2;

/// How many times a client pauses, so that a run whose packets do not come through ends soon all the same.
const PAUSES: u32 = 200;

/// The calls of one client, on one stream: an even one puts and asks for the last put by turns, an odd one gets. It pauses between two
/// calls where the first found nothing to do, as often as it may.
#[derive(Drop)]
pub struct Workload<'a, R> {
    rt: &'a R,
    alloc: Global,
    /// The number of the client, from 0.
    client: u32,
    stream: u32,
    calls: u32,
    puts: u32,
    /// Whether the last call found nothing to do.
    is_early: bool,
    pauses_left: u32,
    /// Where the client pauses.
    parker: Parker,
}

impl<'a, R: Wait> Workload<'a, R> {
    /// The calls of the client of this number, where there are so many streams. There is one at least.
    pub fn new(rt: &'a R, alloc: Global, client: u32, streams: u32) -> Workload<'a, R>
        requires { 1 ≤ streams }
    {
        Workload {
            rt,
            alloc,
            client,
            stream: (client / 2) % streams + 1,
            calls: 0,
            puts: 0,
            is_early: false,
            pauses_left: PAUSES,
            parker: Parker::new(),
        }
    }

    /// The next put's message: the numbers of the client and of the put.
    fn message(&mut self) -> Result<Message, NoMemory> {
        let mut bytes = [0; 8];
        bytes[..4].copy_from_slice(&self.client.to_be_bytes());
        bytes[4..].copy_from_slice(&self.puts.to_be_bytes());
        self.puts = self.puts.saturating_add(1);
        match Message::copy(self.alloc, &bytes) {
            Ok(message) => Ok(message),
            Err(MessageFault::NoMemory) => Err(NoMemory),
            Err(MessageFault::TooLong) => unreachable!(),
        }
    }
}

impl<R: Wait> Script for Workload<'_, R> {
    fn next(&mut self) -> Result<Option<ClientCall>, NoMemory> {
        if self.calls >= CALLS {
            return Ok(None);
        }
        if self.is_early && self.pauses_left > 0 {
            self.pauses_left -= 1;
            self.parker
                .park_timeout(self.rt, Duration::from_millis(PAUSE_MILLISECONDS));
        }
        let asks = self.calls % 2 == 1;
        self.calls += 1;
        if self.client % 2 == 1 {
            return Ok(Some(ClientCall::Get(self.stream)));
        }
        if asks {
            return Ok(Some(ClientCall::Ack(self.stream)));
        }
        Ok(Some(ClientCall::Put(self.stream, self.message()?)))
    }

    fn told(&mut self, reply: &ClientReply) {
        self.is_early = match reply {
            ClientReply::Put(answered) => answered.is_err(),
            ClientReply::Get(answered) => answered.is_err(),
            ClientReply::Ack(answered) => answered.is_err(),
        };
    }
}

/// The calls of the clients of these hosts.
pub fn workloads<'a, R: Wait>(
    rt: &'a R,
    alloc: Global,
    part: Part,
    settings: &RunSettings,
) -> Result<Vec<Workload<'a, R>>, AllocError>
    requires streams { 1 ≤ settings.now.streams }
    requires clients { settings.now.clients ≤ 56 }
    ensures { IfOk result (λ scripts. length scripts.items ≡ clients_of part settings.now.clients) }
{
    let mut scripts = Vec::new(alloc);
    'clients: for place in 0..part.clients(settings.clients) {
        let client = part.client(place);
        scripts.push(Workload::new(rt, alloc, client, settings.streams))?;
    }
    Ok(scripts)
}
