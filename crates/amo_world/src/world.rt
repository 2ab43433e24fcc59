//! A world: a history that grows event by event, and is right, honest and fresh at every moment.
ghost use Rattle.std.specs.Prelude.{ℕ, ◌≡◌, ◌↔◌, ◌<◌, ◌^◌, None, [], ◌∷◌, length, IfOk, IfErr, IfSome, OnOk, OnErr, IsErrOf, slice_get};
ghost use Rattle.std.specs.Option.{option_map, option_to_list, ForSome};
ghost use Rattle.amo_packet.specs.Packet.{packet_of, body_of};
ghost use Rattle.amo_packet.specs.Grammar.{CanBeWritten, CarriesNoBytes};
ghost use Rattle.amo_world.specs.History.{stream_after, stream_before, emissions, HasRightReply, DeliversEmitted, UsesNewWord, IsRight, IsHonest, IsFresh};
ghost use Rattle.amo_world.specs.Stream.{IsStream};
ghost use Rattle.amo_world.specs.Served.{call_of, IsServed};
ghost use Rattle.amo_world.specs.Doubt.{Moves};
ghost use Rattle.amo_world.specs.View.{view};
ghost use Rattle.amo_world.specs.World.{Refuses, delivery_of, IsRepeat};

use crate::emission::Emission;
use crate::kept_stream::KeptStream;
use crate::log::Log;
use crate::{Act, Event, NoMemory, Reply, WorldFault};
use amo_object::End;
use amo_packet::{Packet, STREAMS};
use std::alloc::Global;
use std::marker::Model;

/// Both hosts, with all that happened at them. Contracts see the history of the events that it accepted, the newest first.
#[derive(Drop)]
pub struct World {
    alloc: Global,
    streams: Vec<KeptStream>,
    log: Log,
}

impl Model for World {
    ghost use Rattle.std.specs.Prelude.{List};
    ghost use Rattle.amo_world.specs.declared.event.Event.{Event};
    ghost use Rattle.amo_world.specs.World.{Represents};

    ghost Value = { List Event };

    ghost view = { λ w. w.log.history };

    ghost invariant = { λ w. Represents w.streams.items w.log w.log.history };
}

impl World {
    /// Both sides of each stream, with nothing done yet.
    pub fn new(alloc: Global) -> Result<World, NoMemory>
        ensures { IfOk result (λ world. world ≡ []) }
    {
        let mut streams = Vec::with_capacity(alloc, STREAMS as usize)?;
        for number in 1..=STREAMS {
            streams.push_reserved(KeptStream::new(alloc, number));
        }
        Ok(World {
            alloc,
            streams,
            log: Log::new(alloc),
        })
    }

    /// Accepts an event of a stream of 1 to [`STREAMS`], if the history stays right, honest and fresh with it. Otherwise
    /// the first fault is the answer: a wrong reply, an unsent packet, a repeated word. An event without a fault may still
    /// find no memory, and is accepted if it is handed in again when there is some.
    pub fn apply(&mut self, event: Event) -> Result<(), WorldFault>
        requires { IsStream event.stream }
        ensures accepted { OnOk result (self.new ≡ event ∷ self.old) }
        ensures sound { OnOk result (IsRight self.new × IsHonest self.new × IsFresh self.new) }
        // The stream, as a queue in doubt, has moved by the event's visible step, if it has one, and no other; and every stream is
        // served.
        ensures moved { OnOk result (Moves (view (stream_before self.old event)) (option_to_list (call_of event.side event.act event.reply))
            (view (stream_after event.stream self.new))) }
        ensures served { OnOk result ((number : ℕ) → IsServed number self.new) }
        ensures wrong_reply { IsErrOf result WorldFault.WrongReply ↔ (¬ (HasRightReply self.old event)) }
        ensures unsent { IsErrOf result WorldFault.Unsent ↔ (HasRightReply self.old event × (¬ (DeliversEmitted self.old event))) }
        ensures repeat { IsErrOf result WorldFault.Repeat
            ↔ (HasRightReply self.old event × DeliversEmitted self.old event × (¬ (UsesNewWord self.old event))) }
        ensures memory { IsErrOf result WorldFault.NoMemory
            → HasRightReply self.old event × DeliversEmitted self.old event × UsesNewWord self.old event }
        ensures unchanged { OnErr result (self.new ≡ self.old) }
    {
        self.judge(&event)?;
        self.commit(event)
    }

    /// Accepts the delivery, under a pass and a word, of the packet emitted that has this number: exactly as [`World::apply`]
    /// does with that event. The number says that the packet was emitted, so it is not looked for; where none has this
    /// number the answer is unsent.
    pub fn apply_emitted(&mut self, pass: usize, number: usize, word: u64) -> Result<(), WorldFault>
        ensures accepted { OnOk result (IfSome (slice_get (emissions self.old) number) (λ x. self.new ≡ delivery_of pass x word ∷ self.old)) }
        ensures sound { OnOk result (IsRight self.new × IsHonest self.new × IsFresh self.new) }
        // A delivery is no client's call: the stream, as a queue in doubt, has moved by no visible step.
        ensures moved { OnOk result (IfSome (slice_get (emissions self.old) number)
            (λ x. Moves (view (stream_after x.packet.stream self.old)) [] (view (stream_after x.packet.stream self.new)))) }
        ensures served { OnOk result ((number : ℕ) → IsServed number self.new) }
        ensures wrong_reply { ¬ (IsErrOf result WorldFault.WrongReply) }
        ensures unsent { IsErrOf result WorldFault.Unsent ↔ (slice_get (emissions self.old) number ≡ None) }
        ensures repeat { IsErrOf result WorldFault.Repeat ↔ IsRepeat self.old pass word (slice_get (emissions self.old) number) }
        ensures memory { IsErrOf result WorldFault.NoMemory → (¬ (IsRepeat self.old pass word (slice_get (emissions self.old) number))) }
        ensures unchanged { OnErr result (self.new ≡ self.old) }
    {
        let Some(emission) = self.log.emitted(number) else {
            return Err(WorldFault::Unsent);
        };
        let event = delivery(self.alloc, pass, emission, word)?;
        self.commit(event)
    }

    /// Looks for a wrong reply, or for an unsent packet.
    fn judge(&self, event: &Event) -> Result<(), WorldFault>
        requires { IsStream event.now.stream }
        ensures sound { OnOk result (HasRightReply self.now event.now × DeliversEmitted self.now event.now) }
        ensures fault { IfErr result (λ fault. Refuses self.now event.now fault) }
    {
        let stream = &self.streams[event.stream as usize - 1];
        if !stream.has_right_reply(event) {
            Err(WorldFault::WrongReply)
        } else if !stream.delivers_emitted(event, &self.log) {
            Err(WorldFault::Unsent)
        } else {
            Ok(())
        }
    }

    /// Adds an event with a right reply that delivers nothing unsent, unless it uses up a word again. All memory is taken
    /// before the act is made; where it runs out, what was noted for the act is taken back.
    // Inlined, an event that is made just before is not copied, and an act that is known is not tested.
    #[inline(always)]
    fn commit(&mut self, event: Event) -> Result<(), WorldFault>
        requires stream { IsStream event.stream }
        requires sound { HasRightReply self.old event × DeliversEmitted self.old event }
        ensures accepted { OnOk result (self.new ≡ event ∷ self.old) }
        ensures sound { OnOk result (IsRight self.new × IsHonest self.new × IsFresh self.new) }
        ensures fault { IfErr result (λ fault. Refuses self.old event fault) }
        ensures unchanged { OnErr result (self.new ≡ self.old) }
    {
        let stream = &mut self.streams[event.stream as usize - 1];
        let emitted = stream.note(self.alloc, event.side, &event.act, &mut self.log)?;
        self.log.push(&event, emitted);
        stream.advance(event.side, event.act);
        Ok(())
    }

    /// How many events were accepted.
    pub fn event_count(&self) -> usize
        ensures value { result ≡ length self.now }
        ensures small { result < 2 ^ 63 }
    {
        self.log.event_count()
    }

    /// How many packets were emitted, over all streams.
    pub fn emission_count(&self) -> usize
        ensures { result ≡ length (emissions self.now) }
    {
        self.log.emission_count()
    }

    /// The packet emitted that has this number, counted from 0 over all streams, and the side that emitted it.
    pub fn emitted(&self, number: usize) -> Option<(End, Packet<'_>)>
        ensures value { option_map (λ e. record { side = e.0; packet = packet_of e.1 }) result ≡ slice_get (emissions self.now) number }
        ensures fits { ForSome result (λ e. CanBeWritten (body_of e.1.body)) }
        ensures stream { IfSome result (λ e. IsStream e.1.stream) }
    {
        let emission = self.log.emitted(number)?;
        Some((emission.side, emission.packet.as_packet()))
    }
}

/// The delivery of an emitted packet to the other side of its stream.
fn delivery(alloc: Global, pass: usize, emission: &Emission, word: u64) -> Result<Event, WorldFault>
    ensures event { IfOk result (λ event. event ≡ delivery_of pass emission.now word) }
    ensures memory { IfErr result (λ fault. (fault ≡ WorldFault.NoMemory) × (¬ (CarriesNoBytes emission.now.packet.body))) }
{
    let packet = emission.packet.as_packet().copied(alloc)?;
    Ok(Event {
        pass,
        side: emission.side.other(),
        stream: packet.stream,
        act: Act::Deliver(packet, word),
        reply: Reply::Done,
    })
}
