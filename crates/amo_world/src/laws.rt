//! Laws of histories. Each is the contract of a function that does nothing.
ghost use Rattle.std.specs.Prelude.{◌≡◌, ◌≢◌, ◌≤◌, ◌⊎◌, ℕ, ◌+◌, true, false, Some, List, [], ◌∷◌, ◌++◌, length, reverse, take, slice_get, IfSome, IsSome};
ghost use Rattle.std.specs.List.{Contains};
ghost use Rattle.std.specs.Option.{option_to_list};
ghost use Rattle.amo_object.specs.declared.step.Step.{Step};
ghost use Rattle.amo_object.specs.declared.step.Step.TheVariants as step;
ghost use Rattle.amo_object.specs.declared.step.End.{End};
ghost use Rattle.amo_object.specs.declared.step.End.TheVariants.{Sender, Receiver};
ghost use Rattle.amo_object.specs.Queue as queue;
ghost use Rattle.amo_object.specs.Run.{IsCrashFree};
ghost use Rattle.amo_object.specs.Delivery.{messages_put, messages_got, IsSubsequence};
ghost use Rattle.amo_packet.specs.declared.packet.OwnedPacket.{OwnedPacket};
ghost use Rattle.amo_core.specs.declared.act.Act.{Act};
ghost use Rattle.amo_core.specs.declared.act.Act.TheVariants.{Put, Get, Ack, Start, Batch, Resend, Deliver, Crash, Recover};
ghost use Rattle.amo_core.specs.declared.mode.Mode.TheVariants as mode;
ghost use Rattle.amo_core.specs.declared.reply.Reply.TheVariants as reply;
ghost use Rattle.amo_core.specs.declared.reply.Reply.TheVariants.{Done};
ghost use Rattle.amo_core.specs.declared.sender.SenderMode.TheVariants as sending;
ghost use Rattle.amo_core.specs.Automaton.{row, used_word};
ghost use Rattle.amo_core.specs.Sender as sender;
ghost use Rattle.amo_core.specs.Receiver as receiver;
ghost use Rattle.amo_world.specs.declared.emission.Emission.{Emission};
ghost use Rattle.amo_world.specs.declared.event.Event.{Event};
ghost use Rattle.amo_world.specs.Stream.{Stream, initial, after, automaton_of, reply_of, emission_of, word_of, emitted_by, side_of};
ghost use Rattle.amo_world.specs.History.{stream_after, stream_before, emissions, event_emission, IsRight, IsHonest, IsFresh, Extends, events_of, events_at, side_after};
ghost use Rattle.amo_world.specs.Served.{call_of, calls, IsServed};
ghost use Rattle.amo_world.specs.Held.{MayChangeSender, MayChangeReceiver};
ghost use Rattle.amo_world.specs.Doubt as doubt;
ghost use Rattle.amo_world.specs.Doubt.{set_down, Moves, MovesUnmarking};
ghost use Rattle.amo_world.specs.Resolution.{Resolves, Runs, Leads};
ghost use Rattle.amo_world.specs.View.{view};

/// What one event more changes: its own stream, by the row of its act, and no other.
pub fn one_event_more()
    ensures here { (past : List Event) (e : Event) → stream_after e.stream (e ∷ past) ≡ after (stream_before past e) e.side e.act }
    ensures elsewhere { (past : List Event) (e : Event) (number : ℕ) → number ≢ e.stream → stream_after number (e ∷ past) ≡ stream_after number past }
    ensures called { (past : List Event) (e : Event) → calls e.stream (e ∷ past) ≡ calls e.stream past ++ option_to_list (call_of e.side e.act e.reply) }
    ensures not_called { (past : List Event) (e : Event) (number : ℕ) → number ≢ e.stream → calls number (e ∷ past) ≡ calls number past }
    ensures emitted { (past : List Event) (e : Event) → emissions (e ∷ past) ≡ emissions past ++ option_to_list (event_emission past e) }
{}

/// How events in the order of time meet a history: one more at the end, and the first ones of a list.
pub fn in_order_of_time()
    ensures pushed { (events : List Event) (e : Event) → reverse (events ++ e ∷ []) ≡ e ∷ reverse events }
    ensures first { (events : List Event) (e : Event) (place : ℕ) → slice_get events place ≡ Some e
        → reverse (take (place + 1) events) ≡ e ∷ reverse (take place events) }
{}

/// What a client may rely on where its stream is served: what is got was put, in that order and each message at most
/// once; while no host crashes, what was put is got or still waits; and after the reply yes, the last message put was
/// got.
pub fn served_streams()
    ensures order { (number : ℕ) (events : List Event) → IsServed number events →
        IsSubsequence (messages_got (calls number events)) (messages_put (calls number events)) }
    ensures nothing_lost { (number : ℕ) (events : List Event) → IsServed number events → IsCrashFree (calls number events) →
        (waiting : List (List ℕ)) × (messages_put (calls number events) ≡ messages_got (calls number events) ++ waiting) }
    ensures yes { (number : ℕ) (events : List Event) (before later : List Step) (m : List ℕ) → IsServed number events →
        calls number events ≡ before ++ step.Put m ∷ later ++ step.Ack true ∷ [] → messages_put later ≡ [] →
        (earlier : List (List ℕ)) × (messages_got later ≡ earlier ++ m ∷ []) }
{}

/// As a queue in doubt, a stream of no events is empty, with the status Yes and both sides up. In a right, honest and fresh
/// history each event moves the queue in doubt that its stream is by its own visible step, if it has one, and no other.
pub fn events_move_the_queue_in_doubt()
    ensures first { (number : ℕ) → view (initial number) ≡ doubt.start }
    ensures events { (past : List Event) (e : Event) → IsRight (e ∷ past) → IsHonest (e ∷ past) → IsFresh (e ∷ past)
        → Moves (view (stream_before past e)) (option_to_list (call_of e.side e.act e.reply)) (view (stream_after e.stream (e ∷ past))) }
{}

/// Each queue in doubt may stand for some queue, and an empty one at the start for the empty queue alone. Whatever it may stand
/// for after it has moved comes, by steps of the queue with the same visible ones, from what it may have stood for before; so
/// it is with each event of a right, honest and fresh history.
pub fn doubts_resolve()
    ensures exists { (s : doubt.DoubtState) → (r : queue.QueueState) × Resolves r s }
    ensures first { (r : queue.QueueState) → Resolves r doubt.start → r ≡ queue.start }
    ensures moves { (s t : doubt.DoubtState) (steps : List Step) → Moves s steps t → (after : queue.QueueState) → Resolves after t
        → (before : queue.QueueState) × Resolves before s × Runs before steps after }
    ensures events { (past : List Event) (e : Event) → IsRight (e ∷ past) → IsHonest (e ∷ past) → IsFresh (e ∷ past)
        → (after : queue.QueueState) → Resolves after (view (stream_after e.stream (e ∷ past)))
        → (before : queue.QueueState) × Resolves before (view (stream_before past e)) × Runs before (option_to_list (call_of e.side e.act e.reply)) after }
{}

/// In a right, honest and fresh history only a crash sets marks, and only after a crash does the queue lose anything. At any
/// other event each queue that may stand after it is led to, by the event's call alone, from one that may have stood before it;
/// at a crash, by the crash and then by losses.
pub fn only_crashes_set_marks()
    ensures calm { (past : List Event) (e : Event) → IsRight (e ∷ past) → IsHonest (e ∷ past) → IsFresh (e ∷ past) → e.act ≢ Crash
        → MovesUnmarking (view (stream_before past e)) (option_to_list (call_of e.side e.act e.reply)) (view (stream_after e.stream (e ∷ past))) }
    ensures led { (past : List Event) (e : Event) → IsRight (e ∷ past) → IsHonest (e ∷ past) → IsFresh (e ∷ past) → e.act ≢ Crash
        → (after : queue.QueueState) → Resolves after (view (stream_after e.stream (e ∷ past)))
        → (before : queue.QueueState) × Resolves before (view (stream_before past e)) × Leads before (option_to_list (call_of e.side e.act e.reply)) after }
    ensures crash { (past : List Event) (e : Event) → IsRight (e ∷ past) → IsHonest (e ∷ past) → IsFresh (e ∷ past) → e.act ≡ Crash
        → Moves (set_down (view (stream_before past e)) e.side true) [] (view (stream_after e.stream (e ∷ past))) }
    ensures lost { (past : List Event) (e : Event) → IsRight (e ∷ past) → IsHonest (e ∷ past) → IsFresh (e ∷ past) → e.act ≡ Crash
        → (after : queue.QueueState) → Resolves after (view (stream_after e.stream (e ∷ past)))
        → (before : queue.QueueState) × Resolves before (view (stream_before past e)) × Runs (queue.after before (step.Crash e.side)) [] after }
{}

/// Each right, honest and fresh history serves each of its streams.
pub fn histories_serve()
    ensures { (number : ℕ) (events : List Event) → IsRight events → IsHonest events → IsFresh events → IsServed number events }
{}

/// A packet that was emitted bears the number of the stream of whose side it was, and that side emitted it.
pub fn emitted_packets()
    ensures bears { (past : List Event) (e : Event) → IfSome (event_emission past e) (λ x. x.packet.stream ≡ e.stream) }
    ensures emitted { (past : List Event) (number : ℕ) → IfSome (slice_get (emissions past) number)
        (λ x. Contains (emitted_by (stream_after x.packet.stream past) x.side) x.packet) }
{}

/// A history that goes on from an earlier one: where it is right, honest or fresh, so is the earlier one; and what was called
/// and emitted in the earlier one comes first in it.
pub fn longer_histories()
    ensures itself { (past : List Event) → Extends past past }
    ensures one_event { (past : List Event) (e : Event) → Extends (e ∷ past) past }
    ensures further { (latest later earlier : List Event) → Extends latest later → Extends later earlier → Extends latest earlier }
    ensures right { (later earlier : List Event) → Extends later earlier → IsRight later → IsRight earlier }
    ensures honest { (later earlier : List Event) → Extends later earlier → IsHonest later → IsHonest earlier }
    ensures fresh { (later earlier : List Event) → Extends later earlier → IsFresh later → IsFresh earlier }
    ensures called { (number : ℕ) (later earlier : List Event) → Extends later earlier
        → (more : List Step) × (calls number later ≡ calls number earlier ++ more) }
    ensures emitted { (later earlier : List Event) → Extends later earlier
        → (more : List Emission) × (emissions later ≡ emissions earlier ++ more) }
{}

/// Two histories from which one history goes on: one of them goes on from the other, and the one that is not the shorter does.
/// Two that go on from one another, or of which one goes on from the other with no event more, are the same.
pub fn comparable_histories()
    ensures comparable { (latest one other : List Event) → Extends latest one → Extends latest other → Extends one other ⊎ Extends other one }
    ensures longer { (latest one other : List Event) → Extends latest one → Extends latest other → length other ≤ length one → Extends one other }
    ensures antisymmetric { (one other : List Event) → Extends one other → Extends other one → one ≡ other }
    ensures same_length { (later earlier : List Event) → Extends later earlier → length later ≡ length earlier → later ≡ earlier }
{}

/// The events that bear a pass's number, one event more at a time, of two histories joined, and of one that goes on.
pub fn events_of_a_pass()
    ensures own { (past : List Event) (e : Event) → events_of e.pass (e ∷ past) ≡ e ∷ events_of e.pass past }
    ensures others { (past : List Event) (e : Event) (pass : ℕ) → pass ≢ e.pass → events_of pass (e ∷ past) ≡ events_of pass past }
    ensures joined { (pass : ℕ) (newer past : List Event) → events_of pass (newer ++ past) ≡ events_of pass newer ++ events_of pass past }
    ensures further { (pass : ℕ) (later earlier : List Event) → Extends later earlier → Extends (events_of pass later) (events_of pass earlier) }
{}

/// What a side of a stream is, with what it emitted and which words it used up, its own events alone leave of it: each acts by its
/// row, and what an act replies, emits and uses up depends on the automaton of its side alone.
pub fn sides_by_themselves()
    ensures replay { (number : ℕ) (side : End) (events : List Event) →
        side_of (stream_after number events) side ≡ side_after (side_of (initial number) side) (events_at number side events) }
    ensures reply { (s : Stream) (side : End) (act : Act) → reply_of s side act ≡ (row (automaton_of s side) act).reply }
    ensures emission { (s : Stream) (side : End) (act : Act) → emission_of s side act ≡ (row (automaton_of s side) act).emitted }
    ensures word { (s : Stream) (side : End) (act : Act) → word_of s side act ≡ used_word (automaton_of s side) act }
{}

/// At its side each act has a reply: a client's call one of its own, any other act that it is done.
pub fn acts_have_replies()
    ensures put { (s : Stream) (message : List ℕ) → IsSome (reply_of s Sender (Put message)) }
    ensures ack { (s : Stream) → IsSome (reply_of s Sender Ack) }
    ensures get { (s : Stream) → IsSome (reply_of s Receiver Get) }
    ensures start { (s : Stream) (word : ℕ) → reply_of s Sender (Start word) ≡ Some Done }
    ensures batch { (s : Stream) (word : ℕ) → reply_of s Sender (Batch word) ≡ Some Done }
    ensures resend { (s : Stream) (side : End) → reply_of s side Resend ≡ Some Done }
    ensures deliver { (s : Stream) (side : End) (packet : OwnedPacket) (word : ℕ) → reply_of s side (Deliver packet word) ≡ Some Done }
    ensures crash { (s : Stream) (side : End) → reply_of s side Crash ≡ Some Done }
    ensures recover { (s : Stream) (side : End) → reply_of s side Recover ≡ Some Done }
{}

/// What a client's call replies, by the mode of its side, the message that the side holds, and the messages that wait.
pub fn calls_reply_by_mode()
    ensures put_while_down { (s : Stream) (m : List ℕ) → sender.kind s.sender.state.mode ≡ mode.Down → reply_of s Sender (Put m) ≡ Some reply.Down }
    ensures put_while_full { (s : Stream) (m : List ℕ) → sender.kind s.sender.state.mode ≢ mode.Down
        → length s.sender.state.waiting ≡ sender.max_waiting → reply_of s Sender (Put m) ≡ Some reply.Full }
    ensures put_with_room { (s : Stream) (m : List ℕ) → sender.kind s.sender.state.mode ≢ mode.Down
        → length s.sender.state.waiting ≢ sender.max_waiting → reply_of s Sender (Put m) ≡ Some reply.Ok }
    ensures ack_while_down { (s : Stream) → sender.kind s.sender.state.mode ≡ mode.Down → reply_of s Sender Ack ≡ Some reply.Down }
    ensures ack_while_waiting { (s : Stream) → sender.kind s.sender.state.mode ≢ mode.Down
        → s.sender.state.waiting ≢ [] → reply_of s Sender Ack ≡ Some reply.NotYet }
    ensures ack_while_held { (s : Stream) → sender.held_by s.sender.state.mode ≢ [] → reply_of s Sender Ack ≡ Some reply.NotYet }
    ensures ack_once_got { (s : Stream) → s.sender.state.mode ≡ sending.Quiet true
        → s.sender.state.waiting ≡ [] → reply_of s Sender Ack ≡ Some reply.Yes }
    ensures ack_once_lost { (s : Stream) → s.sender.state.mode ≡ sending.Quiet false
        → s.sender.state.waiting ≡ [] → reply_of s Sender Ack ≡ Some reply.No }
    ensures get_while_down { (s : Stream) → receiver.kind s.receiver.state.mode ≡ mode.Down → reply_of s Receiver Get ≡ Some reply.Down }
    ensures get_while_held { (s : Stream) (m : List ℕ) (rest : List (List ℕ)) → receiver.held_by s.receiver.state.mode ≡ m ∷ rest → reply_of s Receiver Get ≡ Some (reply.Got m) }
    ensures get_while_empty { (s : Stream) → receiver.kind s.receiver.state.mode ≢ mode.Down
        → receiver.held_by s.receiver.state.mode ≡ [] → reply_of s Receiver Get ≡ Some reply.Nothing }
{}

/// What a sender holds of a handshake changes by a start, of one message or of a batch, by a crash, or by an ack under the identifier that it
/// sends under, and what a receiver holds by a get, a crash, or a send or a batch under the identifier that it accepted. No other act changes
/// either.
pub fn few_acts_change_what_is_held()
    ensures sender { (s : Stream) (a : Act) → (¬ (MayChangeSender s.sender.state.mode a))
        → sender.held_by (after s Sender a).sender.state.mode ≡ sender.held_by s.sender.state.mode }
    ensures receiver { (s : Stream) (a : Act) → (¬ (MayChangeReceiver s.receiver.state.mode a))
        → receiver.held_by (after s Receiver a).receiver.state.mode ≡ receiver.held_by s.receiver.state.mode }
{}
