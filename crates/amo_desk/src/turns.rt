//! A live host's turns: it waits for its socket and its clients' lines, and does what has come.
ghost use Rattle.std.specs.Prelude.{◌≡◌, ◌≢◌, ◌≤◌, ◌↔◌, ℕ, List, [], None, true, false, IfOk, OnOk, length, take};
ghost use Rattle.std.specs.Io.KnownBytes.{Appends, Consumes};
ghost use Rattle.amo_lines.specs.Backlog.{kept_on};
ghost use Rattle.amo_lines.specs.Input.{Waits, is_torn};
ghost use Rattle.amo_desk.specs.Serving.{Serves, moment};
ghost use Rattle.amo_live.specs.Host.{IsNoted};
ghost use Rattle.amo_live.specs.Service.{Listened, shown_by, spelling_of, streams_of, words_of};
ghost use Rattle.amo_live.specs.Shown.{IsShown, behind};
ghost use Rattle.amo_live.specs.Words.{BearsNew};
ghost use Rattle.amo_live.specs.declared.limits.Ended.TheVariants.{AtRest};
ghost use Rattle.amo_object.specs.declared.step.End.TheVariants.{Sender};

use crate::ahead::{Ahead, read_byte};
use crate::clock::{microseconds, milliseconds, started};
use crate::ending::{end_of, ending_now, until};
use crate::putting::{Giving, take_lines};
use crate::ready::{Ready, Waited, takes_more, wait, wait_alone};
use crate::stats::Stats;
use crate::{Keeper, ServeFault};
use amo_lines::{Backlog, Input, LineFault, Spelling};
use amo_live::{
    Bell, Durable, Ended, Figures, Limits, Lineage, MOST_DATAGRAMS, Notices, Service, Setup,
};
use amo_net::Link;
use amo_object::End;
use amo_text::Sink;
use std::alloc::{AllocError, Global};
use std::io::{Read, Write};
use std::os::fd::AsRawFd;
use std::rt::Clock;
use std::time::Instant;

/// How many bytes of messages are shown in a turn at most: what a pipe that says that it takes more takes without a wait.
const ROOM: usize = 4096;

/// How many datagrams a sender's turn takes at most where its lines are not put on the disk. Its packets leave at its end, and with more of them the peer, which
/// waits for those, would have nothing to do meanwhile.
const SENDER_DATAGRAMS: u32 = 40;

/// How many a receiver's takes. It has less to do for each, and what it sends early is there when the sender's next turn begins.
const RECEIVER_DATAGRAMS: u32 = 16;

/// How many of a sender's turns in a row begin with a look at its socket alone, where the last one took as many datagrams as it might and may have left lines.
/// To ask the system what else has come costs it as much as a datagram.
const MOST_UNASKED: u32 = 8;

/// How many milliseconds a host waits at most for a datagram where a turn may have left lines that it would have taken without one.
const LONGEST_LEFT: i32 = 10;

/// The number of what is not waited for.
const NOTHING: i32 = -1;

/// Where a host's clients are.
#[derive(Drop)]
pub struct Desk<I, O> {
    /// Where lines come from.
    pub reader: I,
    /// The number by which the system waits for them.
    pub reader_number: i32,
    /// Where answers go.
    pub output: O,
    /// The number by which the system tells that nobody reads them any more.
    pub output_number: i32,
    /// How many bytes the output takes without a wait: the system told that it takes more, and so much was not shown since.
    pub room: usize,
    /// The number by which the system waits for the host's socket.
    pub socket_number: i32,
    /// The lines that have come.
    pub input: Input,
    /// What is known of those that come behind them.
    pub ahead: Ahead,
    /// How lines are spelt.
    pub spelling: Spelling,
    /// Lines are messages to be put. Otherwise none is read.
    pub puts: bool,
    /// The messages that were not put yet.
    pub kept: Backlog,
    /// Lines may have come that no turn has taken yet. None is read before they are.
    pub has_more: bool,
    /// Where the host is asked to come to its end.
    pub bell: Bell,
    /// How many turns more may begin with a look at the host's socket alone.
    pub unasked: u32,
}

impl<I: Read + AsRawFd + Drop, O: Write + AsRawFd + Drop> Desk<I, O> {
    /// The clients of a host of this set-up, of whom nothing was read and to whom nothing was shown: a host that sends takes lines from the reader, and one that
    /// receives leaves it alone; answers and messages go to the output. The system waits for the host's socket by this number. Who rings the bell asks the
    /// host to come to its end.
    pub fn new(
        alloc: Global,
        setup: &Setup,
        reader: I,
        output: O,
        number: i32,
        bell: Bell,
    ) -> Result<Desk<I, O>, AllocError>
        ensures streams { IfOk result (λ desk. (desk.reader ≡ reader) × (desk.output ≡ output)) }
        ensures spelling { IfOk result (λ desk. desk.spelling ≡ setup.now.spelling) }
        ensures puts { IfOk result (λ desk. (desk.puts ≡ true) ↔ (setup.now.side ≡ Sender)) }
        ensures input { IfOk result (λ desk. desk.input ≡ record { rest = []; skips = false; taken = 0; is_open = true }) }
        ensures kept { IfOk result (λ desk. (stream : ℕ) → kept_on stream desk.kept ≡ []) }
    {
        Ok(Desk {
            reader_number: reader.as_raw_fd(),
            reader,
            output_number: output.as_raw_fd(),
            room: 0,
            output,
            socket_number: number,
            input: Input::new(alloc)?,
            ahead: Ahead::Unseen,
            spelling: setup.spelling,
            puts: setup.side == End::Sender,
            kept: Backlog::new(alloc, setup.streams)?,
            has_more: false,
            bell,
            unasked: 0,
        })
    }
}

/// Makes one turn after another until the clients are done. The keeper looks at the host behind each.
pub fn serve<
    C: Clock + Eprint,
    L: Link,
    S: Durable,
    W: Lineage,
    I: Read,
    O: Write,
    K: Keeper<L, S, W>,
>(
    rt: &C,
    service: &mut Service<L, S, W>,
    desk: &mut Desk<I, O>,
    limits: Limits,
    keeper: &mut K,
) -> Result<Ended, ServeFault>
    requires { IsNoted S.written service.old.host }
    ensures noted { OnOk result (IsNoted S.written service.new.host) }
    // Each line was taken once, and its message put once or kept; a message that was refused was the next to be put on its stream.
    ensures serves { OnOk result ((bytes : List ℕ) × Consumes (I.remaining desk.old.reader) (I.remaining desk.new.reader) bytes
        × Serves desk.old.spelling desk.old.puts (streams_of service.old) bytes
        (moment desk.old.input desk.old.kept service.old.host.pass) (moment desk.new.input desk.new.kept service.new.host.pass)) }
    // What clients are shown are the replies of the host's events, in the order in which they happened.
    ensures shown { OnOk result (IsShown (spelling_of service.old) service.old.host.pass service.new.host.pass (shown_by service.old) (shown_by service.new)
        (O.contents desk.old.output) (O.contents desk.new.output)) }
    // Each word that an event bears was drawn meanwhile, and none is borne twice.
    ensures words { OnOk result (BearsNew W.is_drawn (words_of service.old) (words_of service.new) service.old.host.pass service.new.host.pass) }
    // It does not end at rest where the last line was not taken, as it had no end.
    ensures whole { IfOk result (λ ended. is_torn desk.new.input ≡ true → ended ≢ AtRest) }
    ensures unread { OnOk result (desk.old.puts ≡ false → desk.new.reader ≡ desk.old.reader) }
{
    let start = started(rt)?;
    let mut since: Option<u64> = None;
    let mut notices = Notices::new();
    let mut stats = Stats::each(limits.stats);
    let mut told_torn = false;
    'turns: for _turn in 0..u64::MAX {
        let now = microseconds(rt, &start)?;
        notices.tell(rt, service, now);
        stats.tell(rt, service, now);
        let has_answers = !service.shown().is_empty();
        let is_over = limits.count.is_some_and(|count| count <= service.got());
        since = (is_over || desk.takes_none(has_answers)).then_some(since.unwrap_or(now));
        let end = end_of(limits, has_answers, since);
        if let Some(ended) = ending_now(service, desk, limits, since.is_some(), end, now) {
            tell_end(rt, service, desk, ended);
            stats.tell_last(rt, service, now);
            return Ok(desk.ended(ended));
        }
        let until = stats.until(until(service.next_due(), end));
        let limit = milliseconds(until, now);
        let shown = turn(rt, service, desk, &start, limits.sync, limit)?;
        // Somebody reads answers that waited, and is given as long again.
        if has_answers && shown > 0 && !desk.bell.was_rung() {
            since = None;
        }
        keeper.look(service)?;
        told_torn = told_torn || desk.tell_of_torn(rt);
    }
    Ok(Ended::OnItsWay)
}

/// Tells the operator how a host ends.
fn tell_end<C: Eprint, L: Link, S: Durable, W: Lineage, I: Read, O: Write>(
    rt: &C,
    service: &Service<L, S, W>,
    desk: &Desk<I, O>,
    ended: Ended,
) {
    desk.tell_of_rest(rt);
    desk.tell_of_open(rt, ended, service.figures());
    desk.tell_of_unread(rt, service.shown().len());
}

/// One turn, which waits at most so many milliseconds. Answers how many bytes were shown.
fn turn<C: Clock + Eprint, L: Link, S: Durable, W: Lineage, I: Read, O: Write>(
    rt: &C,
    service: &mut Service<L, S, W>,
    desk: &mut Desk<I, O>,
    start: &Instant,
    sync: bool,
    limit: i32,
) -> Result<usize, ServeFault>
    requires { IsNoted S.written service.old.host }
    ensures noted { OnOk result (IsNoted S.written service.new.host) }
    ensures serves { OnOk result ((bytes : List ℕ) × Consumes (I.remaining desk.old.reader) (I.remaining desk.new.reader) bytes
        × Serves desk.old.spelling desk.old.puts (streams_of service.old) bytes
        (moment desk.old.input desk.old.kept service.old.host.pass) (moment desk.new.input desk.new.kept service.new.host.pass)) }
    ensures streams { streams_of service.new ≡ streams_of service.old }
    ensures shown { OnOk result (IsShown (spelling_of service.old) service.old.host.pass service.new.host.pass (shown_by service.old) (shown_by service.new)
        (O.contents desk.old.output) (O.contents desk.new.output)) }
    ensures words { OnOk result (BearsNew W.is_drawn (words_of service.old) (words_of service.new) service.old.host.pass service.new.host.pass) }
    ensures spells { spelling_of service.new ≡ spelling_of service.old }
    ensures spelling { desk.new.spelling ≡ desk.old.spelling }
    ensures puts { desk.new.puts ≡ desk.old.puts }
    ensures unread { OnOk result (desk.old.puts ≡ false → desk.new.reader ≡ desk.old.reader) }
{
    let ready = desk.wait(rt, service, limit)?;
    let datagrams = datagrams_in(&ready, sync, desk.puts);
    let now = microseconds(rt, start)?;
    let room = desk.room();
    let line = service.host.next_line();
    service.hear(now, room, datagrams, desk.bell.was_rung())?;
    let has_moved = service.host.next_line() != line;
    desk.expect_more(ready.at_once && service.took_most());
    service.resend(now)?;
    let text_first = !desk.puts || !service.shown().is_empty();
    // After the datagrams: what they made room for is put before the host waits again.
    let giving = Giving {
        now,
        flows: has_moved && service.has_waiting_on_each(),
    };
    take_lines(rt, service, desk, giving)?;
    service.host.write_down(sync)?;
    let count = hand_out(service, desk, text_first)?;
    Ok(count)
}

/// Shows what is to be shown, and hands the packets that are to leave to the link. Text goes first where it has messages or what became of them: no ack
/// leaves before its message was shown. That lines were taken is shown behind their packets, which others wait for. Answers that a sender's output does not
/// take without a wait stay for a later turn. Answers how many bytes were shown.
fn hand_out<L: Link, S: Durable, W: Lineage, I: Read, O: Write>(
    service: &mut Service<L, S, W>,
    desk: &mut Desk<I, O>,
    text_first: bool,
) -> Result<usize, ServeFault>
    requires noted { IsNoted S.written service.old.host }
    requires flushed { S.flushed service.old.host.journal.sink ≡ S.written service.old.host.journal.sink }
    ensures noted { IsNoted S.written service.new.host }
    ensures pass { service.new.host.pass ≡ service.old.host.pass }
    ensures streams { streams_of service.new ≡ streams_of service.old }
    ensures words { words_of service.new ≡ words_of service.old }
    ensures spells { spelling_of service.new ≡ spelling_of service.old }
    // Of what was to be shown the front was, and the rest is to be shown.
    ensures shown { OnOk result ((written : List ℕ) × Appends (O.contents desk.old.output) (O.contents desk.new.output) written × (shown_by service.old ≡ behind written (shown_by service.new))) }
    // A receiver shows all.
    ensures received { OnOk result (desk.old.puts ≡ false → Appends (O.contents desk.old.output) (O.contents desk.new.output) (shown_by service.old).text) }
    ensures same { desk.new ≡ record desk.old { output = desk.new.output; room = desk.new.room } }
{
    if !text_first {
        service.host.send();
    }
    let count = desk.show(service.shown())?;
    service.pass_shown(count);
    if text_first {
        service.host.send();
    }
    // Whether the output takes more is asked while the peer is at work, and not while it waits.
    desk.room();
    Ok(count)
}

impl<I: Read, O: Write> Desk<I, O> {
    /// Whether no line is taken any more; or none before who reads has answers that wait, and nobody writes more of them.
    pub(crate) fn takes_none(&self, has_answers: bool) -> bool {
        self.bell.was_rung()
            || !self.input.is_open()
            || (has_answers && self.ahead == Ahead::Last && !self.kept.is_full())
    }

    /// Whether no message waits to be put, or the host comes to its end before.
    pub(crate) fn keeps_none(&self) -> bool {
        self.bell.was_rung() || self.kept.is_empty()
    }

    /// Tells which lines were not put, where the host was asked to come to its end, or nobody read its output.
    pub(crate) fn tell_of_rest<C: Eprint>(&self, rt: &C) {
        let why = if self.bell.was_rung() {
            "was asked to come to its end"
        } else if self.puts && self.input.is_open() {
            "nobody reads its output"
        } else {
            return;
        };
        let (kept, lines) = (self.kept.len(), self.input.lines());
        let _ = if !self.puts {
            eprintln!(rt; "amo: {why}")
        } else if kept == 0 {
            eprintln!(rt; "amo: {why}: no line behind line {lines} was put")
        } else {
            eprintln!(rt;
                "amo: {why}: {kept} of the lines up to line {lines} were not put, and none behind it"
            )
        };
    }

    /// Tells how much is open at the end, where something is.
    fn tell_of_open<C: Eprint>(&self, rt: &C, ended: Ended, figures: Figures) {
        let Ended::OnItsWay = ended else {
            return;
        };
        let Figures {
            waiting,
            held,
            open,
            ..
        } = figures;
        let kept = self.kept.len();
        let _ = if self.puts {
            eprintln!(rt;
                "amo: not finished: handshakes {open}, messages behind them {waiting}, lines not put {kept}"
            )
        } else {
            eprintln!(rt; "amo: not finished: handshakes {open}, messages not got {held}")
        };
    }

    /// Tells how much of the answers nobody has read, at the end.
    fn tell_of_unread<C: Eprint>(&self, rt: &C, bytes: usize) {
        if bytes > 0 {
            let _ = eprintln!(rt;
                "amo: {bytes} bytes of answers could not be shown: `amo outcomes` tells what became of each message"
            );
        }
    }

    /// Waits, and answers what there was. Where the last turn took as many datagrams as it might and may have left lines, it looks for more datagrams alone.
    fn wait<C: Clock, L: Link, S: Sink, W: Lineage>(
        &mut self,
        rt: &C,
        service: &mut Service<L, S, W>,
        limit: i32,
    ) -> Result<Ready, ServeFault>
        ensures listened { Listened service.old service.new }
        ensures unread { OnOk result (self.old.puts ≡ false → self.new.reader ≡ self.old.reader) }
        ensures waits { OnOk result ((bytes : List ℕ) × Consumes (I.remaining self.old.reader) (I.remaining self.new.reader) bytes × Waits self.old.input self.new.input bytes) }
        ensures same { self.new ≡ record self.old { reader = self.new.reader; input = self.new.input; ahead = self.new.ahead; bell = self.new.bell; unasked = self.new.unasked } }
    {
        let has_answers = self.puts && !service.shown().is_empty();
        if self.looks_alone(service, has_answers) {
            return Ok(Ready::OF_DATAGRAMS);
        }
        self.ask(rt, service, has_answers, limit)
    }

    /// Waits, also until what waits to be shown can be, and reads lines once where some have come, unless those before them are to be taken first. Where answers
    /// wait to be shown it looks for the end of lines alone, under the same condition. A host that puts none reads nothing, and ends where nobody reads its
    /// messages any more. Answers what there was.
    fn ask<C: Clock, L: Link, S: Sink, W: Lineage>(
        &mut self,
        rt: &C,
        service: &mut Service<L, S, W>,
        has_answers: bool,
        limit: i32,
    ) -> Result<Ready, ServeFault>
        ensures listened { Listened service.old service.new }
        ensures unread { OnOk result (self.old.puts ≡ false → self.new.reader ≡ self.old.reader) }
        ensures waits { OnOk result ((bytes : List ℕ) × Consumes (I.remaining self.old.reader) (I.remaining self.new.reader) bytes × Waits self.old.input self.new.input bytes) }
        ensures same { self.new ≡ record self.old { reader = self.new.reader; input = self.new.input; ahead = self.new.ahead; bell = self.new.bell } }
    {
        let limit = self.limit(has_answers, limit);
        let reads = self.reads();
        let what = self.waited(reads, has_answers, service.has_unread());
        let ready = wait(rt, service, what, limit);
        if ready.is_gone && !self.puts {
            return Err(ServeFault::Gone);
        }
        if ready.bell {
            self.bell.hear()?;
        }
        if ready.lines && reads {
            self.read(has_answers, ready.is_last)?;
        }
        Ok(ready)
    }

    /// Looks for a datagram alone, where a turn may begin so: lines may be left, so that none is read, and no answers wait to be shown. Answers whether one has
    /// come. Otherwise the system is to be asked.
    fn looks_alone<L: Link, S: Sink, W: Lineage>(
        &mut self,
        service: &mut Service<L, S, W>,
        has_answers: bool,
    ) -> bool
        ensures listened { Listened service.old service.new }
        ensures same { self.new ≡ record self.old { unasked = self.new.unasked } }
    {
        if self.has_more && !has_answers && self.unasked > 0 && service.listen(1) {
            self.unasked -= 1;
            return true;
        }
        self.unasked = MOST_UNASKED;
        false
    }

    /// More datagrams may have come than a turn took, or they may not: then the next turn asks the system for all that may have come.
    fn expect_more(&mut self, more: bool)
        ensures { self.new ≡ record self.old { unasked = self.new.unasked } }
    {
        if !more {
            self.unasked = 0;
        }
    }

    /// How many milliseconds it waits, where it would so many: not at all where a byte was read as answers waited, which wait no longer. It may be the end of a
    /// line, and nothing more come. And not long where a turn with datagrams may have left lines: if no more come, these are to be taken all the same.
    fn limit(&mut self, has_answers: bool, limit: i32) -> i32
        ensures { self.new ≡ record self.old { ahead = self.new.ahead } }
    {
        if !has_answers && self.ahead != Ahead::Unseen {
            self.ahead = Ahead::Unseen;
            return 0;
        }
        if self.leaves_lines() && !(0..LONGEST_LEFT).contains(&limit) {
            return LONGEST_LEFT;
        }
        limit
    }

    /// Whether the last turn may have left lines for which there is room.
    fn leaves_lines(&self) -> bool {
        self.has_more && !self.kept.is_full() && !self.bell.was_rung()
    }

    /// Waits until the output takes more of what a start tells, or for so many milliseconds. Meanwhile it is heard that the host is asked to come to its end,
    /// and looked for the end of lines.
    pub(crate) fn wait_to_tell(&mut self, limit: i32) -> Result<(), ServeFault>
        ensures { self.new ≡ record self.old { reader = self.new.reader; input = self.new.input; ahead = self.new.ahead; bell = self.new.bell } }
    {
        let reads = self.reads();
        let mut what = self.waited(reads, true, false);
        what.socket = NOTHING;
        let ready = wait_alone(what, limit);
        if ready.bell {
            self.bell.hear()?;
        }
        if ready.lines && reads {
            self.read(true, ready.is_last)?;
        }
        Ok(())
    }

    /// Reads lines once, as some have come, or their end. Where answers wait to be shown a byte is read, once, and then it is looked whether anybody writes more:
    /// so the end of lines is seen, and no more of them kept.
    fn read(&mut self, has_answers: bool, is_last: bool) -> Result<(), ServeFault>
        requires { self.old.input.is_open ≡ true }
        ensures waits { OnOk result ((bytes : List ℕ) × Consumes (I.remaining self.old.reader) (I.remaining self.new.reader) bytes × Waits self.old.input self.new.input bytes) }
        ensures same { self.new ≡ record self.old { reader = self.new.reader; input = self.new.input; ahead = self.new.ahead } }
    {
        if !has_answers {
            self.input.fill(&mut self.reader)?;
            return Ok(());
        }
        let is_unseen = self.ahead == Ahead::Unseen;
        self.ahead = if is_last { Ahead::Last } else { Ahead::More };
        if is_unseen {
            read_byte(&mut self.input, &mut self.reader)?;
        }
        Ok(())
    }

    /// Whether lines are read now.
    fn reads(&self) -> bool
        ensures puts { result ≡ true → self.now.puts ≡ true }
        ensures opened { result ≡ true → self.now.input.is_open ≡ true }
    {
        self.puts && self.input.is_open() && !self.has_more && !self.bell.was_rung()
    }

    /// What is waited for, where lines are read or not, answers wait to be shown or not, and messages do.
    fn waited(&self, reads: bool, has_answers: bool, has_messages: bool) -> Waited {
        let is_seen = has_answers && self.ahead == Ahead::Last;
        Waited {
            lines: if reads && !is_seen {
                self.reader_number
            } else {
                NOTHING
            },
            reads: !has_answers || self.ahead == Ahead::Unseen,
            socket: self.socket_number,
            output: if self.puts && !has_answers {
                NOTHING
            } else {
                self.output_number
            },
            takes: has_answers || has_messages,
            bell: self.bell.number(),
        }
    }

    /// How many bytes of messages can be shown now without a wait. The system is asked only where something was shown since it was asked last. A sender shows
    /// none, and asks where it has answers.
    fn room(&mut self) -> usize
        ensures { self.new ≡ record self.old { room = self.new.room } }
    {
        if !self.puts {
            self.ask_room(1);
        }
        self.room
    }

    /// Asks the system whether the output takes more, where less room is known than for so many bytes.
    fn ask_room(&mut self, wanted: usize)
        ensures { self.new ≡ record self.old { room = self.new.room } }
    {
        if self.room < wanted && takes_more(self.output_number) {
            self.room = ROOM;
        }
    }

    /// How a host ended that ended so, by its last line too.
    fn ended(&self, ended: Ended) -> Ended
        ensures { is_torn self.now.input ≡ true → result ≢ AtRest }
    {
        if !self.input.is_torn() {
            return ended;
        }
        match ended {
            Ended::OnItsWay => Ended::OnItsWay,
            Ended::AtRest | Ended::Torn => Ended::Torn,
        }
    }

    /// Tells that the last line has no end, if it has none and each line before it was taken. Answers whether it did.
    fn tell_of_torn<C: Eprint>(&self, rt: &C) -> bool {
        let is_torn = self.kept.is_empty() && self.input.is_torn();
        if is_torn {
            let line = self.input.lines().saturating_add(1);
            let _ = eprintln!(rt; "amo: line {line} has no end");
        }
        is_torn
    }

    /// Shows these lines to the clients: a receiver's all, for which room was asked before, and a sender's as far as the output takes them without a wait.
    /// Answers how many bytes were shown.
    fn show(&mut self, shown: &[u8]) -> Result<usize, ServeFault>
        ensures same { self.new ≡ record self.old { output = self.new.output; room = self.new.room } }
        ensures count { IfOk result (λ count. count ≤ length shown.now) }
        ensures shown { IfOk result (λ count. Appends (O.contents self.old.output) (O.contents self.new.output) (take count shown.now)) }
        ensures received { OnOk result (self.old.puts ≡ false → Appends (O.contents self.old.output) (O.contents self.new.output) shown.now) }
    {
        if shown.is_empty() {
            return Ok(0);
        }
        let count = self.shown_now(shown);
        match self.output.write_all(&shown[..count]) {
            Ok(()) => (),
            Err(error) => return Err(ServeFault::output(error)),
        }
        match self.output.flush() {
            Ok(()) => Ok(count),
            Err(error) => Err(ServeFault::output(error)),
        }
    }

    /// How many of these bytes are shown now: at a sender whole lines, as far as there is room for them. So much less room is known then, and at a receiver
    /// none.
    pub(crate) fn shown_now(&mut self, shown: &[u8]) -> usize
        ensures same { self.new ≡ record self.old { room = self.new.room } }
        ensures most { result ≤ length shown.now }
        ensures received { self.old.puts ≡ false → result ≡ length shown.now }
    {
        if !self.puts {
            self.room = 0;
            return shown.len();
        }
        self.ask_room(shown.len());
        let most = shown.len().min(self.room);
        let count = match end_of_lines(&shown[..most]) {
            // A line that is longer than that is shown in parts.
            0 if self.room == ROOM => most,
            end => end,
        };
        self.room -= count;
        count
    }

    /// Tells why the line that was taken last is none, at a host of so many streams.
    pub(crate) fn tell_refused<C: Eprint>(&self, rt: &C, fault: LineFault, streams: usize) {
        let line = self.input.lines();
        let _ = match fault {
            LineFault::Stream(stream) => {
                eprintln!(rt; "amo: line {line}: stream {stream} of {streams}")
            }
            _ => eprintln!(rt; "amo: line {line}: {fault}"),
        };
    }
}

/// How long the whole lines are that these bytes begin with.
fn end_of_lines(bytes: &[u8]) -> usize
    ensures { result ≤ length bytes.now }
{
    match bytes.iter().rposition(|byte| *byte == b'\n') {
        Some(last) => last + 1,
        None => 0,
    }
}

/// How many datagrams a turn takes that began so, at a sender or a receiver. The first one that a host waited for is mostly alone, and to ask for another costs
/// a call of the system: one that came all the same begins the next turn. A turn that ends on the disk takes as many as there are: what it waits for there costs
/// more than they do.
fn datagrams_in(ready: &Ready, sync: bool, sends: bool) -> u32 {
    match (ready.socket, ready.at_once) {
        (false, _) => 0,
        (true, false) => 1,
        (true, true) if sync => MOST_DATAGRAMS,
        (true, true) if sends => SENDER_DATAGRAMS,
        (true, true) => RECEIVER_DATAGRAMS,
    }
}
