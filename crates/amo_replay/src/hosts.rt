//! Both hosts: the sides of every stream, with a world beside them that judges each event.
ghost use Rattle.std.specs.Prelude.{◌≡◌, ℕ, List, length, Option, Some, [], ◌∷◌, Ok, IfOk, IfErr, OnOk};
ghost use Rattle.std.specs.Option.{option_copied, option_map};
ghost use Rattle.amo_packet.specs.declared.packet.OwnedPacket.{OwnedPacket};
ghost use Rattle.amo_packet.specs.Grammar.{spelling};
ghost use Rattle.amo_core.specs.Automaton.{Writes};
ghost use Rattle.amo_world.specs.declared.event.Event.{Event};
ghost use Rattle.amo_core.specs.declared.reply.Reply.TheVariants as reply;
ghost use Rattle.amo_world.specs.Stream.{IsStream};
ghost use Rattle.amo_world.specs.History.{emissions};
ghost use Rattle.amo_schedule.specs.Schedule.{InRange};
ghost use Rattle.amo_schedule.specs.declared.line.ScheduleLine.TheVariants as line;
ghost use Rattle.amo_replay.specs.Sides.{IsOwn, IsActOf};
ghost use Rattle.amo_replay.specs.Hosts.{Agree};
ghost use Rattle.amo_replay.specs.Transcript.{event_at, event_text, checked, applied, line_text};
ghost use Rattle.amo_replay.specs.Stop.{StopsAs};
ghost use Rattle.amo_replay.specs.declared.endings.Ending.TheVariants as ending;
ghost use Rattle.amo_replay.specs.declared.stop.Stop.TheVariants as stop;

use crate::sides::BookSides;
use crate::stop::Stop;
use crate::transcript::push_event;
use crate::{Ending, ToolFault};
use amo_core::{Act, Reply};
use amo_object::End;
use amo_packet::MAX_PACKET;
use amo_schedule::ScheduleLine;
use amo_world::{Event, World, WorldFault};
use std::alloc::{AllocError, Global};
use std::marker::Model;

/// Both hosts. Contracts see the history that the world accepted, and the one that pass 0 has seen of the book. They are the same
/// where no other pass made an event, and that is known once the hosts are closed.
#[derive(Drop)]
pub(crate) struct BothHosts {
    alloc: Global,
    sides: BookSides,
    world: World,
}

impl Model for BothHosts {
    ghost use Rattle.amo_replay.specs.Hosts.{HostsState};

    ghost Value = { HostsState };

    ghost view = { λ h. record { history = h.world; seen = h.sides } };
}

/// Room for the packet and the line of one event, used again for the next.
#[derive(Drop)]
pub(crate) struct Page {
    packet: [u8; MAX_PACKET],
    pub(crate) text: Vec<u8>,
}

impl Page {
    /// Room in which nothing stands.
    pub(crate) fn new(alloc: Global) -> Page {
        Page {
            packet: [0; MAX_PACKET],
            text: Vec::new(alloc),
        }
    }
}

impl BothHosts {
    /// Both hosts, with nothing done yet.
    pub(crate) fn new(alloc: Global) -> Result<BothHosts, AllocError>
        ensures { IfOk result (λ hosts. (hosts.history ≡ []) × (hosts.seen ≡ [])) }
    {
        let sides = BookSides::new(alloc)?;
        let Ok(world) = World::new(alloc) else {
            return Err(AllocError);
        };
        Ok(BothHosts {
            alloc,
            sides,
            world,
        })
    }

    /// Applies a line, and puts its text into the page. After a stop the hosts can only be closed.
    pub(crate) fn apply(&mut self, line: ScheduleLine, page: &mut Page) -> Result<(), Stop>
        requires range { InRange line }
        requires agree { Agree self.old }
        ensures agree { OnOk result (Agree self.new) }
        ensures own { IsOwn self.new.seen → IsOwn self.old.seen }
        ensures applied { OnOk result (IsOwn self.new.seen → (e : Event) × (applied self.old.history line ≡ Ok e)
            × (self.new.history ≡ e ∷ self.old.history) × (page.new.text.items ≡ line_text self.old.history e)) }
        ensures stopped { IfErr result (λ stop. IsOwn self.new.seen → StopsAs (applied self.old.history line) stop) }
    {
        let (side, stream, act) = match line {
            ScheduleLine::Put(stream, message) => (End::Sender, stream, Act::Put(message)),
            ScheduleLine::Get(stream) => (End::Receiver, stream, Act::Get),
            ScheduleLine::Ack(stream) => (End::Sender, stream, Act::Ack),
            ScheduleLine::Start(stream, word) => (End::Sender, stream, Act::Start(word)),
            ScheduleLine::Batch(stream, word) => (End::Sender, stream, Act::Batch(word)),
            ScheduleLine::Resend(side, stream) => (side, stream, Act::Resend),
            ScheduleLine::Deliver(number, word) => return self.deliver(number, word, page),
            ScheduleLine::Crash(side, stream) => (side, stream, Act::Crash),
            ScheduleLine::Recover(side, stream) => (side, stream, Act::Recover),
        };
        self.act(side, stream, act, page)
    }

    /// Makes an act that is no delivery at the book, and hands its event to the world.
    fn act(&mut self, side: End, stream: u32, act: Act, page: &mut Page) -> Result<(), Stop>
        requires stream { IsStream stream }
        requires act { IsActOf side act }
        requires agree { Agree self.old }
        ensures agree { OnOk result (Agree self.new) }
        ensures own { IsOwn self.new.seen → IsOwn self.old.seen }
        ensures applied { OnOk result (IsOwn self.new.seen → (e : Event) × (checked self.old.history (Some (event_at side stream act reply.Done)) ≡ Ok e)
            × (self.new.history ≡ e ∷ self.old.history) × (page.new.text.items ≡ line_text self.old.history e)) }
        ensures stopped { IfErr result (λ stop. IsOwn self.new.seen → StopsAs (checked self.old.history (Some (event_at side stream act reply.Done))) stop) }
    {
        let number = self.world.event_count() + 1;
        let copy = act.clone()?;
        let (reply, length) = self.sides.act(side, stream, copy, &mut page.packet)?;
        write_line(&self.world, &reply, length, page)?;
        let event = Event {
            pass: 0,
            side,
            stream,
            act,
            reply,
        };
        match self.world.apply(event) {
            Ok(()) => Ok(()),
            Err(fault) => Err(refusal(fault, number)),
        }
    }

    /// Delivers the packet of this number to the other side of its stream. The world is given the number too, and so does not look
    /// for the packet.
    fn deliver(&mut self, number: u64, word: u64, page: &mut Page) -> Result<(), Stop>
        requires agree { Agree self.old }
        ensures agree { OnOk result (Agree self.new) }
        ensures own { IsOwn self.new.seen → IsOwn self.old.seen }
        ensures applied { OnOk result (IsOwn self.new.seen → (e : Event) × (applied self.old.history (line.Deliver number word) ≡ Ok e)
            × (self.new.history ≡ e ∷ self.old.history) × (page.new.text.items ≡ line_text self.old.history e)) }
        ensures stopped { IfErr result (λ stop. IsOwn self.new.seen → StopsAs (applied self.old.history (line.Deliver number word)) stop) }
    {
        let place = self.world.event_count() + 1;
        let Some((from, packet)) = self.world.emitted(number as usize) else {
            return Err(Stop::Ended(Ending::Unsent(place)));
        };
        let length = self
            .sides
            .deliver(self.alloc, from.other(), &packet, word, &mut page.packet)?;
        write_line(&self.world, &Reply::Done, length, page)?;
        match self.world.apply_emitted(0, number as usize, word) {
            Ok(()) => Ok(()),
            Err(fault) => Err(refusal(fault, place)),
        }
    }

    /// Closes the book. It has no events but those of pass 0.
    pub(crate) fn close(self)
        ensures { IsOwn self.seen }
    {
        self.sides.close();
    }
}

/// Why an event is not accepted whose reply is the row's, and that delivers what was emitted.
fn refusal(fault: WorldFault, number: usize) -> Stop
    ensures memory { fault ≡ WorldFault.NoMemory → result ≡ stop.Failed ToolFault.NoMemory }
    ensures repeat { fault ≡ WorldFault.Repeat → result ≡ stop.Ended (ending.Repeat number) }
{
    match fault {
        WorldFault::NoMemory => Stop::Failed(ToolFault::NoMemory),
        WorldFault::Repeat | WorldFault::WrongReply | WorldFault::Unsent => {
            Stop::Ended(Ending::Repeat(number))
        }
    }
}

/// Puts the line of the event that comes next into the page's text: its number, this reply, and the packet of this length at the
/// front of the page's buffer, if there is one.
fn write_line(
    world: &World,
    reply: &Reply,
    emitted: Option<usize>,
    page: &mut Page,
) -> Result<(), AllocError>
    requires { (packet : Option OwnedPacket) × (old : List ℕ) × Writes packet old page.old.packet emitted }
    ensures text { OnOk result ((packet : Option OwnedPacket) (old : List ℕ) → Writes packet old page.old.packet emitted
        → page.new.text.items ≡ event_text (length world.now) reply.now (length (emissions world.now)) (option_map spelling packet)) }
{
    page.text.clear();
    push_event(
        &mut page.text,
        world.event_count(),
        reply,
        world.emission_count(),
        written(&page.packet, emitted),
    )
}

/// What was written at the front of the buffer, if anything was.
fn written(buffer: &[u8; MAX_PACKET], length: Option<usize>) -> Option<&[u8]>
    requires { (emitted : Option OwnedPacket) × (old : List ℕ) × Writes emitted old buffer.now length }
    ensures { (emitted : Option OwnedPacket) (old : List ℕ) → Writes emitted old buffer.now length → option_copied result ≡ option_map spelling emitted }
{
    match length {
        Some(length) => Some(&buffer[..length]),
        None => None,
    }
}
