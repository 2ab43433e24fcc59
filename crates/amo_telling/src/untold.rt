//! What a sender that starts again tells of the messages of its earlier lives.
ghost use Rattle.std.specs.Prelude.{◌≡◌, IfOk, length};

use crate::put::Put;
use crate::shown::{push_settled, push_told};
use crate::tally::Tally;
use crate::unanswered::{Progress, is_ack, is_answer, is_open, stopped, told_of};
use amo_journal::{Lines, Numbered, line_in_front};
use amo_lives::Span;
use amo_object::End;
use amo_outcomes::{SenderFollowers, SenderOutcome};
use amo_world::{Act, Event, Reply, STREAMS};
use std::alloc::{AllocError, Global};
use std::collections::BTreeMap;

/// A reader of a sender's journal that knows which puts were not answered. It begins where a life does: its crash leaves each stream without a
/// message. Or it begins behind lines of which those are recalled that matter for puts without an answer. Of what it has read it keeps the puts that
/// were not answered, and of the others a mark of one byte.
#[derive(Drop)]
pub struct Untold {
    alloc: Global,
    followers: SenderFollowers,
    /// How many puts each stream took, that of stream 1 first.
    counts: [usize; STREAMS as usize],
    /// Of each stream, whether an ack answered a put of it.
    answered: [bool; STREAMS as usize],
    /// Those that no ack answered, by the numbers of their lines.
    puts: BTreeMap<u64, Put>,
    /// The numbers of those of each stream that a crash has not forgotten, that of stream 1 first.
    pending: Vec<Vec<u64>>,
    /// The number of the next line.
    next: u64,
    ghost all: { length pending.items ≡ 256 },
}

impl Untold {
    ghost use Rattle.std.specs.Prelude.{◌+◌, ◌++◌, ◌<◌, ◌≤◌, ◌≢◌, ◌⊎◌, ◌^◌, ◌-◌, ◌∷◌, ℕ, List, [], Some, false, true, get_or, IfSome, IsTrue, OnOk};
    ghost use Rattle.std.specs.List.{Contains};
    ghost use Rattle.std.specs.Bool.{Decides};
    ghost use Rattle.std.specs.Option.{is_some};
    ghost use Rattle.amo_lives.specs.declared.doubt.Span.{Span};
    ghost use Rattle.std.specs.Ordering.{nat_cmp};
    ghost use Rattle.std.specs.BTreeMap.{get};
    ghost use Rattle.amo_outcomes.specs.SenderFollowers.{HaveFollowedSenders};
    ghost use Rattle.amo_outcomes.specs.SenderOutcome.{HasSenderOutcome};
    ghost use Rattle.amo_journal.specs.declared.numbered.Numbered.{Numbered};
    ghost use Rattle.amo_world.specs.declared.event.Event.{Event};
    ghost use Rattle.amo_outcomes.specs.RightPuts.{ArePutsRight};
    ghost use Rattle.amo_world.specs.Stream.{IsStream};
    ghost use Rattle.amo_telling.specs.declared.put.Put.{Put};
    ghost use Rattle.amo_core.specs.declared.act.Act.TheVariants as act;
    ghost use Rattle.amo_core.specs.declared.reply.Reply.TheVariants as reply;
    ghost use Rattle.amo_telling.specs.Outcomes.{is_put};
    ghost use Rattle.amo_telling.specs.Untold.{AreTallies, AreThose, Drops, GoesOn, HasRead, IsAnsweredBehind, IsInDoubt, IsKnownAs, IsKnownByAll, IsSent, IsSentHere, IsSettledByNow, KeepsAllOf, KeepsPut, Recalls, Resumes, Takes, TellsAll, TellsBy, TellsPut, TellsPuts, WasSentOn, events_of};
    ghost use Rattle.amo_telling.specs.Unanswered.{settled_line};
    ghost use Rattle.std.specs.List.{flat_map, range_with_len};

    /// Nothing was read. The first line is to be of this number.
    pub fn new(alloc: Global, first: u64) -> Result<Untold, AllocError>
        ensures { IfOk result (λ untold. HasRead untold first []) }
    {
        Ok(Untold {
            alloc,
            followers: SenderFollowers::new(alloc)?,
            counts: [0; STREAMS as usize],
            answered: [false; STREAMS as usize],
            puts: BTreeMap::new(alloc),
            pending: no_numbers(alloc)?,
            next: first,
        })
    }

    /// The number of the next line.
    pub fn next(&self) -> u64
        ensures { (next : ℕ) (past : List Numbered) → HasRead self.now next past → result ≡ next }
    {
        self.next
    }

    /// Reads lines that go on where it stopped. Answers what is left behind the lines that were read, and why.
    ///
    /// Where memory is refused, the reader is of no use any more.
    pub fn read_on<'a>(&mut self, lines: Lines<'a>) -> Result<(Lines<'a>, Progress), AllocError>
        ensures version { IfOk result (λ read. read.0.version ≡ lines.entry.version) }
        ensures read { IfOk result (λ read. (next : ℕ) (past : List Numbered) → HasRead self.old next past
            → GoesOn self.new next past lines.entry read.0.text.now read.1) }
    {
        let mut rest = lines;
        while !rest.text.is_empty() {
            let Some((line, more)) = line_in_front(self.alloc, rest)? else {
                let progress = stopped(rest.text);
                return Ok((rest, progress));
            };
            if !self.goes_on(line.number) {
                return Ok((rest, Progress::Gap));
            }
            self.take(&line)?;
            self.next += 1;
            rest = more;
        }
        Ok((rest, Progress::Whole))
    }

    /// Reads lines that stand somewhere in front of the next one, each with its own number: those that matter for puts without an answer. Reading goes
    /// on at the same next line. Answers what is left behind the lines that were read, and why.
    ///
    /// Where memory is refused, the reader is of no use any more.
    pub fn recall<'a>(&mut self, lines: Lines<'a>) -> Result<(Lines<'a>, Progress), AllocError>
        ensures version { IfOk result (λ read. read.0.version ≡ lines.entry.version) }
        ensures read { IfOk result (λ read. (next : ℕ) (past : List Numbered) → HasRead self.old next past
            → Recalls self.new next past lines.entry read.0.text.now read.1) }
    {
        let mut rest = lines;
        while !rest.text.is_empty() {
            let Some((line, more)) = line_in_front(self.alloc, rest)? else {
                let progress = stopped(rest.text);
                return Ok((rest, progress));
            };
            if !self.is_before(&line) {
                return Ok((rest, Progress::Gap));
            }
            self.take(&line)?;
            rest = more;
        }
        Ok((rest, Progress::Whole))
    }

    /// Whether the line of this number comes next, and another one can come behind it.
    fn goes_on(&self, number: u64) -> bool
        ensures yes { IsTrue result → (number ≡ self.now.next) × (self.now.next + 1 < 2 ^ 64) }
        ensures no { result ≡ false → (number ≢ self.now.next) ⊎ (2 ^ 64 ≤ self.now.next + 1) }
    {
        number == self.next && self.next < u64::MAX
    }

    /// Whether a line can be one of those in front of the next one that were not read yet: its number is smaller, no put is kept of it, and its stream
    /// took fewer puts than there are such numbers.
    fn is_before(&self, line: &Numbered) -> bool
        requires { IsStream line.now.event.stream }
        ensures yes { IsTrue result → (line.now.number < self.now.next) × (is_some (get nat_cmp self.now.puts line.now.number) ≡ false) × (get_or self.now.counts (line.now.event.stream - 1) 0 < self.now.next) × (get_or self.now.counts (line.now.event.stream - 1) 0 + 1 < 2 ^ 64) }
        ensures no { result ≡ false → (self.now.next ≤ line.now.number) ⊎ ((is_some (get nat_cmp self.now.puts line.now.number) ≡ true) ⊎ (self.now.next ≤ get_or self.now.counts (line.now.event.stream - 1) 0)) }
    {
        if line.number >= self.next {
            return false;
        }
        if self.puts.contains_key(&line.number) {
            return false;
        }
        let taken = self.counts[line.event.stream as usize - 1] as u64;
        taken < self.next
    }

    /// One line more.
    fn take(&mut self, line: &Numbered) -> Result<(), AllocError>
        requires { IsStream line.now.event.stream }
        ensures next { OnOk result (self.new.next ≡ self.old.next) }
        ensures taken { OnOk result (Takes self.old self.new line.now) }
    {
        let event = &line.event;
        let sent = self.sent_before(event)?;
        self.followers.follow(event)?;
        self.drop_answered(event.stream as usize - 1, sent.as_slice())?;
        self.note(line.number, event)
    }

    /// Of the stream of an ack that comes, the puts that were sent, and of which it is not settled what became of them.
    fn sent_before(&self, event: &Event) -> Result<Vec<u64>, AllocError>
        requires { IsStream event.now.stream }
        ensures { IfOk result (λ sent. (number : ℕ) → Contains sent.items number → IsSentHere self.now event.now.act number) }
    {
        let mut sent = Vec::new(self.alloc);
        if !is_ack(&event.act) {
            return Ok(sent);
        }
        for number in &self.pending[event.stream as usize - 1] {
            if self.is_sent(*number) {
                sent.push(*number)?;
            }
        }
        Ok(sent)
    }

    /// Whether the put on the line of this number was sent, and it is not settled what became of it.
    fn is_sent(&self, number: u64) -> bool
        ensures { IsTrue result → IsSent self.now number }
    {
        match self.outcome(number) {
            Some(outcome) => is_open(outcome),
            None => false,
        }
    }

    /// What became of the put on the line of this number, if it is kept.
    fn outcome(&self, number: u64) -> Option<SenderOutcome>
        ensures { IfSome result (λ outcome. (put : Put) × (get nat_cmp self.now.puts number ≡ Some put)
            × ((past : List Event) → HaveFollowedSenders self.now.followers past → HasSenderOutcome put.stream past put.place outcome)) }
    {
        let put = self.puts.get(&number)?;
        self.followers.outcome(put.stream, put.place)
    }

    /// Those of these puts of a stream that an ack has answered are kept no more.
    fn drop_answered(&mut self, place: usize, sent: &[u64]) -> Result<(), AllocError>
        requires { place < 256 }
        ensures same { (self.new.followers ≡ self.old.followers) × (self.new.counts ≡ self.old.counts) × (self.new.next ≡ self.old.next) }
        ensures dropped { Drops self.old self.new sent.now }
    {
        if sent.is_empty() {
            return Ok(());
        }
        for number in sent {
            self.drop_if_answered(*number);
        }
        self.close_dropped(place)
    }

    /// The put on the line of this number is kept no more, if an ack has answered it.
    fn drop_if_answered(&mut self, number: u64)
        ensures same { (self.new.followers ≡ self.old.followers) × (self.new.counts ≡ self.old.counts) × (self.new.next ≡ self.old.next) }
        ensures dropped { Drops self.old self.new (number ∷ []) }
    {
        if !self.is_answered(number) {
            return;
        }
        if let Some(put) = self.puts.remove(&number) {
            self.answered[put.stream as usize - 1] = true;
        }
    }

    /// Whether an ack has answered the put on the line of this number.
    fn is_answered(&self, number: u64) -> bool
        ensures { IsTrue result → IsAnsweredBehind self.now self.now.followers number }
    {
        match self.outcome(number) {
            Some(outcome) => is_answer(outcome),
            None => false,
        }
    }

    /// The puts of a stream that are kept no more are not open.
    fn close_dropped(&mut self, place: usize) -> Result<(), AllocError>
        requires { place < 256 }
        ensures { self.new ≡ record self.old { pending = self.new.pending; all = self.new.all } }
    {
        let mut pending = Vec::new(self.alloc);
        for number in &self.pending[place] {
            if self.puts.contains_key(number) {
                pending.push(*number)?;
            }
        }
        self.pending[place] = pending;
        Ok(())
    }

    /// A put that was taken on the line of this number is kept, and is open; a crash forgets those that are.
    fn note(&mut self, number: u64, event: &Event) -> Result<(), AllocError>
        requires { IsStream event.now.stream }
        ensures same { (self.new.followers ≡ self.old.followers) × (self.new.answered ≡ self.old.answered) × (self.new.next ≡ self.old.next) }
        ensures kept { OnOk result ((m : List ℕ) → event.now.act ≡ act.Put m → event.now.reply ≡ reply.Ok → KeepsPut self.old self.new number event.now.stream m) }
        ensures none { is_put event.now.act event.now.reply ≡ false → (self.new.counts ≡ self.old.counts) × (self.new.puts ≡ self.old.puts) }
    {
        match (&event.act, &event.reply) {
            (Act::Put(message), Reply::Ok) => self.keep(number, event.stream, message.bytes()),
            (Act::Crash, _) if event.side == End::Sender => {
                self.pending[event.stream as usize - 1].clear();
                Ok(())
            }
            _ => Ok(()),
        }
    }

    /// A put that was taken on the line of this number is kept, and is open.
    fn keep(&mut self, number: u64, stream: u32, message: &[u8]) -> Result<(), AllocError>
        requires { IsStream stream }
        ensures same { (self.new.followers ≡ self.old.followers) × (self.new.answered ≡ self.old.answered) × (self.new.next ≡ self.old.next) }
        ensures kept { OnOk result (KeepsPut self.old self.new number stream message.now) }
    {
        let place = stream as usize - 1;
        let taken = self.counts[place];
        let put = Put {
            stream,
            place: taken,
            message: Vec::from_slice(self.alloc, message)?,
        };
        self.counts[place] = taken.saturating_add(1);
        self.puts.insert(number, put)?;
        self.pending[place].push(number)?;
        Ok(())
    }

    /// What a start tells, where it was told of messages on the streams in doubt before that they are unknown: `STREAM settled` for each of these on
    /// which one was sent since. Then a line for each put that no ack answered, in the order of their lines: `STREAM gone MESSAGE` where it was not
    /// sent, so that the crash at hand or an earlier one forgot it for good, and `STREAM unknown MESSAGE` where it was, or where a loss of power may
    /// have taken the line that tells so; these lines are doubtful. In JSON it has the number of the put's line. Last, `STREAM settled` for each stream
    /// of which one is told as unknown, and nothing is in doubt.
    ///
    /// Where the lines that were read go on from a list of those in front of them, of each put is told what all lines tell.
    pub fn tell(&self, doubts: &[Span], in_doubt: &[u32], json: bool) -> Result<Vec<u8>, AllocError>
        ensures told { IfOk result (λ text. (next : ℕ) (past : List Numbered) → HasRead self.now next past → ArePutsRight (events_of past) → TellsAll self.now (events_of past) doubts.now in_doubt.now json text.items) }
        ensures all { IfOk result (λ text. (next : ℕ) (past : List Numbered) (newer listed earlier : List Event) → HasRead self.now next past → events_of past ≡ newer ++ listed → Resumes newer listed earlier
            → TellsBy (IsKnownByAll (newer ++ listed) (newer ++ earlier)) self.now (newer ++ listed) doubts.now in_doubt.now json text.items) }
        ensures kept { OnOk result ((next : ℕ) (past : List Numbered) (newer listed earlier : List Event) → HasRead self.now next past → events_of past ≡ newer ++ listed → Resumes newer listed earlier
            → KeepsAllOf self.now past (newer ++ listed) (newer ++ earlier)) }
    {
        let mut text = Vec::new(self.alloc);
        self.tell_settled(doubts, in_doubt, json, &mut text)?;
        self.tell_puts(doubts, json, &mut text)?;
        self.tell_settled_by_now(doubts, json, &mut text)?;
        Ok(text)
    }

    /// The streams on which it is in doubt what became of a message: one is told as unknown, and that is not settled; or one was so before, on a stream
    /// of these, and none was sent there since. In their order.
    pub fn in_doubt(&self, doubts: &[Span], before: &[u32]) -> Result<Vec<u32>, AllocError>
        ensures { IfOk result (λ streams. (next : ℕ) (past : List Numbered) → HasRead self.now next past → ArePutsRight (events_of past)
            → AreThose (IsInDoubt self.now (events_of past) doubts.now before.now) (range_with_len 1 256) streams.items) }
    {
        let tallies = self.tallies(doubts)?;
        let mut streams = Vec::new(self.alloc);
        'streams: for place in 0..STREAMS {
            if self.is_in_doubt(place + 1, before, tallies.as_slice()) {
                streams.push(place + 1)?;
            }
        }
        Ok(streams)
    }

    /// Whether it is in doubt what became of a message on a stream, where this is known of the puts of each.
    fn is_in_doubt(&self, stream: u32, before: &[u32], tallies: &[Tally]) -> bool
        requires stream { IsStream stream }
        requires all { length tallies.now ≡ 256 }
        ensures { (doubts : List Span) → AreTallies self.now doubts tallies.now → (next : ℕ) (past : List Numbered) → HasRead self.now next past → ArePutsRight (events_of past)
            → Decides result (IsInDoubt self.now (events_of past) doubts before.now stream) }
    {
        if tallies[stream as usize - 1].is_unsettled {
            return true;
        }
        before.contains(&stream) && !self.has_sent(stream, tallies)
    }

    /// A line for each stream in doubt on which a message was sent.
    fn tell_settled(
        &self,
        doubts: &[Span],
        in_doubt: &[u32],
        json: bool,
        text: &mut Vec<u8>,
    ) -> Result<(), AllocError>
        ensures { OnOk result ((streams : List ℕ) × ((next : ℕ) (past : List Numbered) → HasRead self.now next past → ArePutsRight (events_of past) → AreThose (WasSentOn (events_of past)) in_doubt.now streams)
            × (text.new.items ≡ text.old.items ++ flat_map (settled_line json) streams)) }
    {
        let tallies = self.tallies(doubts)?;
        for stream in in_doubt {
            if self.has_sent(*stream, tallies.as_slice()) {
                push_settled(text, *stream, json)?;
            }
        }
        Ok(())
    }

    /// A line for each stream on which nothing is in doubt, of which a put is told as unknown.
    fn tell_settled_by_now(
        &self,
        doubts: &[Span],
        json: bool,
        text: &mut Vec<u8>,
    ) -> Result<(), AllocError>
        ensures { OnOk result ((streams : List ℕ) × ((past : List Event) → HaveFollowedSenders self.now.followers past → AreThose (IsSettledByNow self.now past doubts.now) (range_with_len 1 256) streams)
            × (text.new.items ≡ text.old.items ++ flat_map (settled_line json) streams)) }
    {
        let tallies = self.tallies(doubts)?;
        'streams: for place in 0..STREAMS {
            if self.is_settled_by_now(place + 1, tallies.as_slice()) {
                push_settled(text, place + 1, json)?;
            }
        }
        Ok(())
    }

    /// Whether nothing is in doubt on a stream of which a put is told as unknown, where this is known of the puts of each.
    fn is_settled_by_now(&self, stream: u32, tallies: &[Tally]) -> bool
        requires stream { IsStream stream }
        requires all { length tallies.now ≡ 256 }
        ensures { (doubts : List Span) → AreTallies self.now doubts tallies.now → (past : List Event) → HaveFollowedSenders self.now.followers past
            → Decides result (IsSettledByNow self.now past doubts stream) }
    {
        if tallies[stream as usize - 1].is_unsettled {
            return false;
        }
        tallies[stream as usize - 1].is_settled
    }

    /// Whether a message was sent on a stream, where this is known of the puts of each: one that was answered, or another.
    fn has_sent(&self, stream: u32, tallies: &[Tally]) -> bool
        requires { length tallies.now ≡ 256 }
        ensures { (doubts : List Span) → AreTallies self.now doubts tallies.now → (next : ℕ) (past : List Numbered) → HasRead self.now next past → ArePutsRight (events_of past)
            → Decides result (WasSentOn (events_of past) stream) }
    {
        if stream == 0 || stream > STREAMS {
            return false;
        }
        let place = stream as usize - 1;
        tallies[place].is_sent || self.answered[place]
    }

    /// What is known of the puts of each stream, that of stream 1 first.
    fn tallies(&self, doubts: &[Span]) -> Result<Vec<Tally>, AllocError>
        ensures all { IfOk result (λ tallies. length tallies.items ≡ 256) }
        ensures known { IfOk result (λ tallies. AreTallies self.now doubts.now tallies.items) }
    {
        let mut tallies = vec![in self.alloc; Tally::new(); STREAMS as usize]?;
        for (number, put) in self.puts.iter() {
            let outcome = self.followers.outcome(put.stream, put.place);
            let told = told_of(outcome, *number, doubts);
            tallies[put.stream as usize - 1].note(outcome, told);
        }
        Ok(tallies)
    }

    /// A line for each put that no ack answered.
    fn tell_puts(&self, doubts: &[Span], json: bool, text: &mut Vec<u8>) -> Result<(), AllocError>
        ensures { OnOk result ((past : List Event) → HaveFollowedSenders self.now.followers past → TellsPuts (IsKnownAs past) doubts.now json self.now.puts.entries text.old.items text.new.items) }
    {
        for (number, put) in self.puts.iter() {
            self.tell_put(*number, put, doubts, json, text)?;
        }
        Ok(())
    }

    /// The line of a put, if it was not got.
    fn tell_put(
        &self,
        number: u64,
        put: &Put,
        doubts: &[Span],
        json: bool,
        text: &mut Vec<u8>,
    ) -> Result<(), AllocError>
        ensures { OnOk result ((past : List Event) → HaveFollowedSenders self.now.followers past → TellsPut (IsKnownAs past) doubts.now json (number, put.now) text.old.items text.new.items) }
    {
        let outcome = self.followers.outcome(put.stream, put.place);
        match told_of(outcome, number, doubts) {
            Some(told) => push_told(text, number, put.stream, told, put.message.as_slice(), json),
            None => Ok(()),
        }
    }
}

/// No numbers on any stream.
fn no_numbers(alloc: Global) -> Result<Vec<Vec<u64>>, AllocError>
    ensures { IfOk result (λ numbers. length numbers.items ≡ 256) }
{
    let mut numbers = Vec::with_capacity(alloc, STREAMS as usize)?;
    for _stream in 0..STREAMS {
        numbers.push(Vec::new(alloc))?;
    }
    Ok(numbers)
}
