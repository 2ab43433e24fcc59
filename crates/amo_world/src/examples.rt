//! Worked examples of histories, as laws: the definitions say of each what they should.
ghost use Rattle.std.specs.Prelude.{◌≡◌, ℕ};
ghost use Rattle.amo_object.specs.declared.step.End.{End};
ghost use Rattle.amo_packet.specs.declared.packet.OwnedPacket.{OwnedPacket};
ghost use Rattle.amo_world.specs.Example as example;
ghost use Rattle.amo_world.specs.Example.{history_of, IsExample, IsServedExample, IsRepeatExample};
ghost use Rattle.amo_world.specs.InDoubt as in_doubt;
ghost use Rattle.amo_world.specs.InDoubt.{doubts_of};
ghost use Rattle.amo_world.specs.History.{IsRight, IsHonest, IsFresh};
ghost use Rattle.amo_world.specs.Served.{IsServed};

/// Stories without a crash: the first needuid, a whole handshake, and packets and words that come again.
pub fn handshakes()
    ensures first_needuid { IsServedExample example.first_needuid example.first_needuid_run }
    ensures handshake { IsServedExample example.handshake example.handshake_run }
    ensures send_repeated { IsServedExample example.send_repeated example.send_repeated_run }
    ensures needuid_repeated { IsServedExample example.needuid_repeated example.needuid_repeated_run }
    ensures words_said_again { IsServedExample example.words_said_again example.words_said_again_run }
    ensures good_journal { IsServedExample example.good_journal example.good_journal_run }
{}

/// Stories in which a host crashes.
pub fn crashes()
    ensures receiver_before_send { IsServedExample example.receiver_crash_before_send example.receiver_crash_before_send_run }
    ensures sender_after_send { IsServedExample example.sender_crash_after_send example.sender_crash_after_send_run }
    ensures receiver_after_get { IsServedExample example.receiver_crash_after_get example.receiver_crash_after_get_run }
    ensures calls_while_down { IsServedExample example.calls_while_down example.calls_while_down_run }
    ensures get_while_down { IsServedExample example.get_while_down example.get_while_down_run }
    ensures message_held { IsServedExample example.message_held_through_a_crash example.message_held_through_a_crash_run }
    ensures both_sides_down { IsServedExample example.both_sides_down example.both_sides_down_run }
{}

/// What stream 1 is as a queue in doubt, after each line of a story.
pub fn doubts()
    ensures handshake { doubts_of example.handshake ≡ in_doubt.handshake_doubts }
    ensures send_repeated { doubts_of example.send_repeated ≡ in_doubt.send_repeated_doubts }
    ensures receiver_before_send { doubts_of example.receiver_crash_before_send ≡ in_doubt.receiver_crash_before_send_doubts }
    ensures sender_after_send { doubts_of example.sender_crash_after_send ≡ in_doubt.sender_crash_after_send_doubts }
    ensures receiver_after_get { doubts_of example.receiver_crash_after_get ≡ in_doubt.receiver_crash_after_get_doubts }
    ensures calls_while_down { doubts_of example.calls_while_down ≡ in_doubt.calls_while_down_doubts }
    ensures get_while_down { doubts_of example.get_while_down ≡ in_doubt.get_while_down_doubts }
    ensures message_held { doubts_of example.message_held_through_a_crash ≡ in_doubt.message_held_through_a_crash_doubts }
    ensures both_sides_down { doubts_of example.both_sides_down ≡ in_doubt.both_sides_down_doubts }
{}

/// Stories that are not fresh: a side uses a word twice.
pub fn repeated_words()
    ensures of_a_start { IsRepeatExample example.start_word_repeated }
    ensures of_an_accept { IsRepeatExample example.accept_word_repeated }
{}

/// Stories that are not honest: a packet that nobody emitted, one that comes back, and one that strays.
pub fn unsent_packets()
    ensures at_first { (side : End) (stream : ℕ) (packet : OwnedPacket) (word : ℕ) →
        ¬ (IsHonest (history_of (example.unsent_delivery side stream packet word))) }
    ensures returned { ¬ (IsHonest (history_of example.returned_packet)) }
    ensures stray { ¬ (IsHonest (history_of example.stray_packet)) }
{}

/// What each premise of serving is for. Each story lacks one of them alone, and no run of the queue serves its stream: a
/// forged reply, a message that was never sent, and a word used twice, of an accept and of a start.
pub fn needed_premises()
    ensures reply_forged { (¬ (IsRight (history_of example.forged_journal)))
        × IsHonest (history_of example.forged_journal) × IsFresh (history_of example.forged_journal) }
    ensures message_invented { IsRight (history_of example.message_invented)
        × (¬ (IsHonest (history_of example.message_invented))) × IsFresh (history_of example.message_invented) }
    ensures message_got_twice { IsExample example.message_got_twice
        × (¬ (IsFresh (history_of example.message_got_twice))) }
    ensures old_message_acknowledged { IsExample example.old_message_acknowledged
        × (¬ (IsFresh (history_of example.old_message_acknowledged))) }
    ensures unserved { (¬ (IsServed 1 (history_of example.forged_journal)))
        × (¬ (IsServed 1 (history_of example.message_invented)))
        × (¬ (IsServed 1 (history_of example.message_got_twice)))
        × (¬ (IsServed 1 (history_of example.old_message_acknowledged))) }
{}
