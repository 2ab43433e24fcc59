//! Laws of outcomes. Each is the contract of a function that does nothing.
ghost use Rattle.std.specs.Prelude.{◌≡◌, ◌↔◌, ◌<◌, ◌+◌, ◌-◌, ◌++◌, true, false, ℕ, List, [], ◌∷◌, length};
ghost use Rattle.std.specs.List.{Contains};
ghost use Rattle.amo_object.specs.declared.step.End.{End};
ghost use Rattle.amo_object.specs.declared.step.End.TheVariants.{Sender};
ghost use Rattle.amo_object.specs.Delivery.{messages_put, messages_got};
ghost use Rattle.amo_packet.specs.declared.packet.OwnedPacket.{OwnedPacket};
ghost use Rattle.amo_packet.specs.declared.packet.OwnedBody.TheVariants as packet;
ghost use Rattle.amo_packet.specs.Batch.{Batch, messages};
ghost use Rattle.amo_core.specs.Receiver as receiver;
ghost use Rattle.amo_world.specs.declared.event.Event.{Event};
ghost use Rattle.amo_world.specs.Stream.{emitted_by};
ghost use Rattle.amo_world.specs.History.{stream_after, events_at, IsRight, IsHonest, IsFresh, Extends};
ghost use Rattle.amo_world.specs.Served.{calls};
ghost use Rattle.amo_outcomes.specs.declared.outcome.Outcome.{Outcome};
ghost use Rattle.amo_outcomes.specs.declared.outcome.Outcome.TheVariants.{Got, Gone, Open};
ghost use Rattle.amo_outcomes.specs.Puts.{puts_after, sent_under};
ghost use Rattle.amo_core.specs.Sender.{is_down};
ghost use Rattle.amo_outcomes.specs.OpenEvents.{open_events};
ghost use Rattle.amo_outcomes.specs.Outcome.{HasOutcome, AreOf};
ghost use Rattle.amo_outcomes.specs.RightPuts.{ArePutsRight, ArePutsRightOn};
ghost use Rattle.amo_outcomes.specs.declared.sender_outcome.SenderOutcome.{SenderOutcome};
ghost use Rattle.amo_outcomes.specs.declared.sender_outcome.SenderOutcome.TheVariants as told;
ghost use Rattle.amo_outcomes.specs.SenderOutcome.{HasSenderOutcome, GoesOnAtSender};
ghost use Rattle.amo_outcomes.specs.StandsFor.{BringsTo, GoesOnFrom, StandsFor, more_puts};

/// Each put of a right, honest and fresh history has exactly one outcome, and nothing else has one.
pub fn each_put_has_one_outcome()
    ensures one { (number : ℕ) (events : List Event) (put : ℕ) → IsRight events → IsHonest events → IsFresh events
        → put < (puts_after number events).count → (outcome : Outcome) × HasOutcome number events put outcome }
    ensures no_other { (number : ℕ) (events : List Event) (put : ℕ) (one other : Outcome) → IsRight events → IsHonest events → IsFresh events
        → HasOutcome number events put one → HasOutcome number events put other → one ≡ other }
    ensures of_puts { (number : ℕ) (events : List Event) (put : ℕ) (outcome : Outcome) → IsRight events → IsHonest events → IsFresh events
        → HasOutcome number events put outcome → put < (puts_after number events).count }
{}

/// What is got stays got, and what is gone stays gone, in each right, honest and fresh history that goes on from this one; so what is gone is
/// never got.
pub fn got_and_gone_are_final()
    ensures got { (number : ℕ) (later earlier : List Event) (put : ℕ) → Extends later earlier → IsRight later → IsHonest later → IsFresh later
        → HasOutcome number earlier put Got → HasOutcome number later put Got }
    ensures gone { (number : ℕ) (later earlier : List Event) (put : ℕ) → Extends later earlier → IsRight later → IsHonest later → IsFresh later
        → HasOutcome number earlier put Gone → HasOutcome number later put Gone }
    ensures never_got { (number : ℕ) (later earlier : List Event) (put : ℕ) → Extends later earlier → IsRight later → IsHonest later → IsFresh later
        → HasOutcome number earlier put Gone → ¬ (HasOutcome number later put Got) }
{}

/// Once a later put of a stream was got, no earlier one is open: it was got before, or is gone.
pub fn later_gets_settle_earlier_puts()
    ensures { (number : ℕ) (events : List Event) (earlier later : ℕ) → IsRight events → IsHonest events → IsFresh events
        → earlier < later → HasOutcome number events later Got → ¬ (HasOutcome number events earlier Open) }
{}

/// The puts are those of the stream's calls, and each gets, waits, travels and is held with its own message: the puts that were got have, one
/// by one, the messages that the gets answered, and the packets under an identifier bring those of the puts that travel under it.
pub fn puts_have_their_messages()
    ensures count { (number : ℕ) (events : List Event) → IsRight events → IsHonest events → IsFresh events
        → (puts_after number events).count ≡ length (messages_put (calls number events)) }
    ensures got { (number : ℕ) (events : List Event) → IsRight events → IsHonest events → IsFresh events
        → AreOf (messages_put (calls number events)) (puts_after number events).got (messages_got (calls number events)) }
    ensures waiting { (number : ℕ) (events : List Event) → IsRight events → IsHonest events → IsFresh events
        → AreOf (messages_put (calls number events)) (puts_after number events).waiting (stream_after number events).sender.state.waiting }
    ensures held { (number : ℕ) (events : List Event) → IsRight events → IsHonest events → IsFresh events
        → AreOf (messages_put (calls number events)) (puts_after number events).held (receiver.held_by (stream_after number events).receiver.state.mode) }
    ensures sent { (number : ℕ) (events : List Event) (p : OwnedPacket) (id : ℕ) (m : List ℕ) → IsRight events → IsHonest events → IsFresh events
        → Contains (emitted_by (stream_after number events) Sender) p → p.body ≡ packet.Send id m
        → AreOf (messages_put (calls number events)) (sent_under (puts_after number events).sent id) (m ∷ []) }
    ensures sent_together { (number : ℕ) (events : List Event) (p : OwnedPacket) (id : ℕ) (b : Batch) → IsRight events → IsHonest events → IsFresh events
        → Contains (emitted_by (stream_after number events) Sender) p → p.body ≡ packet.Batch id b
        → AreOf (messages_put (calls number events)) (sent_under (puts_after number events).sent id) (messages b) }
{}

/// Each put has exactly one outcome by its sender's own events, and nothing else has one.
pub fn each_put_has_one_outcome_of_the_sender()
    ensures one { (number : ℕ) (events : List Event) (put : ℕ) → put < (puts_after number events).count
        → (outcome : SenderOutcome) × HasSenderOutcome number events put outcome }
    ensures no_other { (number : ℕ) (events : List Event) (put : ℕ) (one other : SenderOutcome) → HasSenderOutcome number events put one
        → HasSenderOutcome number events put other → one ≡ other }
    ensures of_puts { (number : ℕ) (events : List Event) (put : ℕ) (outcome : SenderOutcome) → HasSenderOutcome number events put outcome
        → put < (puts_after number events).count }
{}

/// What a sender's own events tell is true and final, in each right, honest and fresh history in which the sender's events are these, or go on
/// from these. There what is told to be got was got, and what is told to be gone is gone. What is told to be settled is got or gone, and
/// stays so in all that goes on from there. What is told to be open is open as long as nothing more happens at the sender.
pub fn what_a_sender_tells_is_final()
    ensures got { (number : ℕ) (journal whole : List Event) (put : ℕ) → GoesOnAtSender number whole journal
        → IsRight whole → IsHonest whole → IsFresh whole → HasSenderOutcome number journal put told.Got → HasOutcome number whole put Got }
    ensures gone { (number : ℕ) (journal whole : List Event) (put : ℕ) → GoesOnAtSender number whole journal
        → IsRight whole → IsHonest whole → IsFresh whole → HasSenderOutcome number journal put told.Gone → HasOutcome number whole put Gone }
    ensures settled { (number : ℕ) (journal whole : List Event) (put : ℕ) → GoesOnAtSender number whole journal
        → IsRight whole → IsHonest whole → IsFresh whole → HasSenderOutcome number journal put (told.Unknown true)
        → (outcome : Outcome) × (¬ (outcome ≡ Open)) × ((later : List Event) → Extends later whole
        → IsRight later → IsHonest later → IsFresh later → HasOutcome number later put outcome) }
    ensures open { (number : ℕ) (journal whole : List Event) (put : ℕ) → events_at number Sender whole ≡ events_at number Sender journal
        → HasSenderOutcome number journal put told.Open → HasOutcome number whole put Open }
{}

/// What a sender's own events tell of a put does not depend on what else happened.
pub fn a_sender_tells_by_its_own_events()
    ensures { (number : ℕ) (one other : List Event) (put : ℕ) (outcome : SenderOutcome)
        → events_at number Sender one ≡ events_at number Sender other → HasSenderOutcome number one put outcome
        → HasSenderOutcome number other put outcome }
{}

/// What became of a put does not depend on how the events of both sides are interleaved: in all honest and fresh histories that have the same
/// events at each side of a stream, in the same order, each put of the stream has the same outcome. So two merges of the same two journals tell
/// the same.
pub fn outcomes_are_the_same_in_each_interleaving()
    ensures { (number : ℕ) (one other : List Event) (put : ℕ) (outcome : Outcome) → IsHonest one → IsFresh one → IsHonest other → IsFresh other
        → ((side : End) → events_at number side one ≡ events_at number side other) → HasOutcome number one put outcome
        → HasOutcome number other put outcome }
{}

/// What a sender's own events tell of a put does not depend on the puts before it that nothing more can come of: where a history stands for another one, which
/// has so many puts before its own, it does behind more events, and what it tells of a put the other one tells of the put so many behind. So does a history of
/// the puts without an answer alone, that brings the sender to where the other one does, but for what it knows of the last message: one of nothing, where the
/// sender is at rest.
pub fn later_puts_are_told_without_earlier_ones()
    ensures on { (number many : ℕ) (newer part whole : List Event) → StandsFor number many part whole → StandsFor number many (newer ++ part) (newer ++ whole) }
    ensures told { (number many : ℕ) (part whole : List Event) (put : ℕ) (outcome : SenderOutcome) → StandsFor number many part whole
        → HasSenderOutcome number part put outcome ↔ HasSenderOutcome number whole (many + put) outcome }
    ensures open { (number : ℕ) (part whole : List Event) → BringsTo number part whole → StandsFor number (more_puts number part whole) part whole }
    ensures unanswered { (number : ℕ) (part whole : List Event) (put : ℕ) → BringsTo number part whole
        → (¬ (HasSenderOutcome number part put told.Got)) × (¬ (HasSenderOutcome number part put (told.Unknown true))) }
{}

/// A sender's events that go on from a list of earlier ones tell of their puts, and of those of the list, what they tell behind all earlier ones: of each put by
/// its number from the newest one on. And their puts have the replies of their rows behind the list, where all replies are right behind all earlier ones.
pub fn a_list_of_open_puts_tells_what_all_events_do()
    ensures told { (number : ℕ) (newer listed all : List Event) (put : ℕ) (outcome : SenderOutcome) → GoesOnFrom number newer listed all
        → HasSenderOutcome number (newer ++ listed) put outcome
        → HasSenderOutcome number (newer ++ all) (more_puts number (newer ++ listed) (newer ++ all) + put) outcome }
    ensures right { (number : ℕ) (newer listed all : List Event) → GoesOnFrom number newer listed all → IsRight (newer ++ all)
        → ArePutsRightOn number listed → ArePutsRightOn number (newer ++ listed) }
{}

/// The events that tell of a sender's messages without an answer are such a list: of each stream the puts of these messages, how the open handshake began and how
/// its accept came, in their order.
pub fn open_events_bring_a_sender_back()
    ensures brings { (number : ℕ) (events : List Event) → ArePutsRight events → is_down (stream_after number events).sender.state.mode ≡ false
        → BringsTo number (open_events number events) events }
    ensures right { (number : ℕ) (events : List Event) → ArePutsRight events → is_down (stream_after number events).sender.state.mode ≡ false
        → ArePutsRight (open_events number events) }
{}
