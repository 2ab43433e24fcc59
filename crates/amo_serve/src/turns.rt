//! The turns of a host with a door.
ghost use Rattle.std.specs.Prelude.{◌≡◌, OnOk, true};
ghost use Rattle.amo_live.specs.Callers.{IsSameLife};
ghost use Rattle.amo_live.specs.Host.{IsNoted};
ghost use Rattle.amo_live.specs.Service.{words_of};
ghost use Rattle.amo_live.specs.Words.{BearsNew};
ghost use Rattle.amo_serve.specs.Serving.{MovesAs, Serves};

use crate::DoorFault;
use crate::client::Client;
use crate::door::Door;
use crate::ending::Farewell;
use crate::news::News;
use crate::responder::{Reply, Responder};
use amo_archive::Archive;
use amo_door::Happening;
use amo_live::{Aside, Bell, Durable, Ended, Limits, Lineage, LiveFault, Notices};
use amo_net::Link;
use std::fs::File;
use std::rt::{Clock, Files};
use std::time::Instant;

/// How many bytes of messages are shown of the host's own accord: none, so that a message stays where it came until it is taken.
const NO_ROOM: usize = 0;

/// After how many microseconds in which it was not heard those who follow are told that the other host is heard.
const SILENCE: u64 = 10_000_000;

/// Makes one turn after another, until the host was asked to come to its end and nothing is on its way any more, or for as long as it waits for that; or
/// until it cannot go on, which those who follow are told. The system waits for its socket by this number.
pub fn serve_door<C: Clock + Eprint + Files<File = File>, L: Link, S: Durable, W: Lineage>(
    rt: &C,
    responder: &mut Responder<L, S, W>,
    door: &mut Door,
    archive: &mut Archive,
    bell: &mut Bell,
    socket: i32,
    limits: Limits,
) -> Result<Ended, DoorFault>
    requires { IsNoted S.written responder.old.service.host }
    ensures noted { OnOk result (IsNoted S.written responder.new.service.host) }
    // Each message that was put or got was put or got by a turn of a caller, once and with its bytes; and each turn is right behind those before it.
    ensures serves { OnOk result (Serves responder.old.numbers responder.new.numbers responder.old.service.host.pass responder.new.service.host.pass responder.old.service.host.journal responder.new.service.host.journal) }
    // Each word that an event bears was drawn meanwhile, and none is borne twice.
    ensures words { OnOk result (BearsNew W.is_drawn (words_of responder.old.service) (words_of responder.new.service) responder.old.service.host.pass responder.new.service.host.pass) }
    ensures side { responder.new.side ≡ responder.old.side }
    // At a sender's host no message was got meanwhile, and at a receiver's none was put.
    ensures alone { OnOk result (MovesAs responder.old.side responder.old.service.host.pass responder.new.service.host.pass) }
{
    let start = started(rt)?;
    let errors = Aside::new(rt);
    let mut notices = Notices::new();
    let mut farewell = Farewell::new(limits);
    'turns: for _turn in 0..u64::MAX {
        let now = microseconds(rt, &start)?;
        notices.tell(&errors, &responder.service, now);
        if let Some(ended) = responder.ended(&mut farewell, now) {
            responder.tell_of_open(&errors, ended);
            door.send_rest(now)?;
            return Ok(ended);
        }
        let due = farewell.until(responder.service.next_due());
        door.wait(rt, &mut responder.service, socket, bell.number(), due, now)?;
        let now = microseconds(rt, &start)?;
        responder.ends = hear_bell(&errors, door, bell, responder.ends)?;
        turn_or_tell(rt, responder, door, archive, limits.sync, now)?;
    }
    Ok(Ended::OnItsWay)
}

/// Hears who rings. Answers whether somebody has, by now.
fn hear_bell<C: Eprint>(
    rt: &C,
    door: &Door,
    bell: &mut Bell,
    was_rung: bool,
) -> Result<bool, DoorFault> {
    if !door.hears_bell() {
        return Ok(was_rung);
    }
    bell.hear()?;
    if bell.was_rung() && !was_rung {
        let _ = eprintln!(rt; "amo: was asked to come to its end");
    }
    Ok(bell.was_rung())
}

/// One turn, behind a wait. Those who follow are told where the host cannot go on.
fn turn_or_tell<C: Files<File = File>, L: Link, S: Durable, W: Lineage>(
    rt: &C,
    responder: &mut Responder<L, S, W>,
    door: &mut Door,
    archive: &mut Archive,
    sync: bool,
    now: u64,
) -> Result<(), DoorFault>
    requires { IsNoted S.written responder.old.service.host }
    ensures noted { OnOk result (IsNoted S.written responder.new.service.host) }
    ensures serves { OnOk result (Serves responder.old.numbers responder.new.numbers responder.old.service.host.pass responder.new.service.host.pass responder.old.service.host.journal responder.new.service.host.journal) }
    ensures words { OnOk result (BearsNew W.is_drawn (words_of responder.old.service) (words_of responder.new.service) responder.old.service.host.pass responder.new.service.host.pass) }
    ensures side { responder.new.side ≡ responder.old.side }
    ensures alone { OnOk result (MovesAs responder.old.side responder.old.service.host.pass responder.new.service.host.pass) }
{
    match turn(rt, responder, door, archive, sync, now) {
        Ok(()) => Ok(()),
        Err(fault) => {
            door.tell_of_fault(now)?;
            Err(fault)
        }
    }
}

/// One turn.
fn turn<C: Files<File = File>, L: Link, S: Durable, W: Lineage>(
    rt: &C,
    responder: &mut Responder<L, S, W>,
    door: &mut Door,
    archive: &mut Archive,
    sync: bool,
    now: u64,
) -> Result<(), DoorFault>
    requires { IsNoted S.written responder.old.service.host }
    ensures noted { OnOk result (IsNoted S.written responder.new.service.host) }
    ensures serves { OnOk result (Serves responder.old.numbers responder.new.numbers responder.old.service.host.pass responder.new.service.host.pass responder.old.service.host.journal responder.new.service.host.journal) }
    ensures words { OnOk result (BearsNew W.is_drawn (words_of responder.old.service) (words_of responder.new.service) responder.old.service.host.pass responder.new.service.host.pass) }
    ensures side { responder.new.side ≡ responder.old.side }
    ensures alone { OnOk result (MovesAs responder.old.side responder.old.service.host.pass responder.new.service.host.pass) }
{
    let datagrams = door.datagrams(responder.service.has_come());
    responder.hear(datagrams, now)?;
    door.hear(now)?;
    responder.serve_waiters(door, now)?;
    responder.ask_clients(door, now)?;
    responder.write_down(sync)?;
    let_go(rt, responder, door, archive, sync, now)
}

/// Answers clients and lets packets leave, those first for which the other host waits.
fn let_go<C: Files<File = File>, L: Link, S: Durable, W: Lineage>(
    rt: &C,
    responder: &mut Responder<L, S, W>,
    door: &mut Door,
    archive: &mut Archive,
    sync: bool,
    now: u64,
) -> Result<(), DoorFault>
    requires noted { IsNoted S.written responder.old.service.host }
    requires flushed { S.flushed responder.old.service.host.journal.sink ≡ S.written responder.old.service.host.journal.sink }
    requires on_disk { sync ≡ true → S.on_disk responder.old.service.host.journal.sink ≡ S.written responder.old.service.host.journal.sink }
    ensures noted { OnOk result (IsNoted S.written responder.new.service.host) }
    ensures pass { responder.new.service.host.pass ≡ responder.old.service.host.pass }
    ensures journal { responder.new.service.host.journal ≡ responder.old.service.host.journal }
    ensures numbers { responder.new.numbers ≡ responder.old.numbers }
    ensures words { words_of responder.new.service ≡ words_of responder.old.service }
    ensures side { responder.new.side ≡ responder.old.side }
{
    if responder.is_waited_for() {
        responder.leave();
        return answer_all(rt, responder, door, archive, sync, now);
    }
    answer_all(rt, responder, door, archive, sync, now)?;
    responder.leave();
    Ok(())
}

/// Answers the clients that are awake, as far as they take it, and reads the journal for one who asks of it.
fn answer_all<C: Files<File = File>, L: Link, S: Durable, W: Lineage>(
    rt: &C,
    responder: &Responder<L, S, W>,
    door: &mut Door,
    archive: &mut Archive,
    sync: bool,
    now: u64,
) -> Result<(), DoorFault>
    requires noted { IsNoted S.written responder.now.service.host }
    requires flushed { S.flushed responder.now.service.host.journal.sink ≡ S.written responder.now.service.host.journal.sink }
    requires on_disk { sync ≡ true → S.on_disk responder.now.service.host.journal.sink ≡ S.written responder.now.service.host.journal.sink }
{
    if door.has_seekers() {
        door.consult(rt, archive, responder.service.host.next_line())?;
    }
    door.wake_followers(responder.news.next())?;
    hand_out(responder, door, sync, now);
    door.flush(now)?;
    Ok(())
}

/// Hands each client that is awake what its request is answered, and tells those who follow what happened. Of all that the host did by then the system has the
/// journal's lines, and has them on the disk where that is asked for: so each answer tells of events whose lines are there.
fn hand_out<L: Link, S: Durable, W: Lineage>(
    responder: &Responder<L, S, W>,
    door: &mut Door,
    sync: bool,
    now: u64,
)
    requires noted { IsNoted S.written responder.now.service.host }
    requires flushed { S.flushed responder.now.service.host.journal.sink ≡ S.written responder.now.service.host.journal.sink }
    requires on_disk { sync ≡ true → S.on_disk responder.now.service.host.journal.sink ≡ S.written responder.now.service.host.journal.sink }
{
    let _ = sync;
    let next = responder.news.next();
    for place in &door.awake {
        if let Some(client) = door.clients.get_mut(*place) {
            if !client.seeks() {
                hand(&responder.news, client, next, now);
            }
            tell_news(&responder.news, client, next);
        }
    }
}

/// Hands a client what its request is answered.
fn hand(news: &News, client: &mut Client, next: u64, now: u64) {
    match client.reply.take() {
        Some(Reply::Answer(answer)) => client.answer(&answer, now),
        Some(Reply::Follow { after: Some(line) }) => client.follow(news.behind(line), now),
        Some(Reply::Follow { after: None }) => client.follow(next, now),
        Some(_) | None => {}
    }
}

/// Tells a client that follows what happened since it was told last, up to what happens next, as far as there is room for it: a later turn goes on. Where
/// some of that is not kept any more the client is let go, since it would take the rest for all.
fn tell_news(news: &News, client: &mut Client, next: u64) {
    if !client.is_following() {
        return;
    }
    if !news.keeps(client.told) {
        client.let_go();
        return;
    }
    for number in client.told..next {
        if !client.takes_news() {
            break;
        }
        if let Some(text) = news.text(number) {
            client.tell(text);
        }
        client.told = number.saturating_add(1);
    }
    client.is_behind = client.told < next;
}

impl<L: Link, S: Durable, W: Lineage> Responder<L, S, W> {
    /// Takes so many datagrams of the other host, and sends it again what is due.
    fn hear(&mut self, datagrams: u32, now: u64) -> Result<(), LiveFault>
        requires { IsNoted S.written self.old.service.host }
        ensures noted { OnOk result (IsNoted S.written self.new.service.host) }
        ensures serves { OnOk result (Serves self.old.numbers self.new.numbers self.old.service.host.pass self.new.service.host.pass self.old.service.host.journal self.new.service.host.journal) }
        ensures words { OnOk result (BearsNew W.is_drawn (words_of self.old.service) (words_of self.new.service) self.old.service.host.pass self.new.service.host.pass) }
        ensures side { self.new.side ≡ self.old.side }
        ensures alone { OnOk result (MovesAs self.old.side self.old.service.host.pass self.new.service.host.pass) }
    {
        self.service.hear(now, NO_ROOM, datagrams, self.ends)?;
        self.service.resend(now)?;
        self.tell_peer(now)?;
        self.tell_settled()?;
        Ok(())
    }

    /// Tells those who follow that the other host is heard, where it was not for ten seconds before.
    fn tell_peer(&mut self, now: u64) -> Result<(), LiveFault>
        ensures service { self.new.service ≡ self.old.service }
        ensures numbers { self.new.numbers ≡ self.old.numbers }
        ensures side { self.new.side ≡ self.old.side }
    {
        if !self.service.has_heard() {
            return Ok(());
        }
        let was_silent = match self.heard_at {
            Some(at) => SILENCE <= now.saturating_sub(at),
            None => true,
        };
        self.heard_at = Some(now);
        if was_silent {
            self.news.add(None, &Happening::Peer)?;
        }
        Ok(())
    }

    /// Notes how handshakes ended, and tells those who follow which streams' last messages have settled.
    fn tell_settled(&mut self) -> Result<(), LiveFault>
        ensures service { self.new.service ≡ self.old.service }
        ensures numbers { self.new.numbers ≡ self.old.numbers }
        ensures side { self.new.side ≡ self.old.side }
    {
        for settled in self.service.settled() {
            self.handshakes
                .end(settled.stream, settled.messages, settled.was_got)?;
            if !settled.is_last {
                continue;
            }
            let happening = if settled.was_got {
                Happening::Yes(settled.stream)
            } else {
                Happening::No(settled.stream)
            };
            self.news.add(Some(settled.line), &happening)?;
        }
        Ok(())
    }

    /// Hands the journal's lines to the system, and puts them on the disk where that is asked for.
    fn write_down(&mut self, sync: bool) -> Result<(), LiveFault>
        requires { IsNoted S.written self.old.service.host }
        ensures noted { OnOk result (IsNoted S.written self.new.service.host) }
        ensures flushed { OnOk result (S.flushed self.new.service.host.journal.sink ≡ S.written self.new.service.host.journal.sink) }
        ensures on_disk { OnOk result (sync ≡ true → S.on_disk self.new.service.host.journal.sink ≡ S.written self.new.service.host.journal.sink) }
        ensures pass { OnOk result (self.new.service.host.pass ≡ self.old.service.host.pass) }
        ensures life { IsSameLife self.old.service.host.pass self.new.service.host.pass self.old.service.host.journal self.new.service.host.journal }
        ensures numbers { self.new.numbers ≡ self.old.numbers }
        ensures words { words_of self.new.service ≡ words_of self.old.service }
        ensures side { self.new.side ≡ self.old.side }
    {
        self.service.host.write_down(sync)
    }

    /// Whether the other host may wait for a packet that is to leave. It does not for the last one of a handshake that has ended, one for each.
    fn is_waited_for(&self) -> bool {
        self.service.settled().len() < self.service.leaving()
    }

    /// What is to leave leaves: packets to the link. What was to be shown is not: callers are answered.
    fn leave(&mut self)
        requires noted { IsNoted S.written self.old.service.host }
        requires flushed { S.flushed self.old.service.host.journal.sink ≡ S.written self.old.service.host.journal.sink }
        ensures noted { IsNoted S.written self.new.service.host }
        ensures journal { self.new.service.host.journal ≡ self.old.service.host.journal }
        ensures pass { self.new.service.host.pass ≡ self.old.service.host.pass }
        ensures numbers { self.new.numbers ≡ self.old.numbers }
        ensures words { words_of self.new.service ≡ words_of self.old.service }
        ensures side { self.new.side ≡ self.old.side }
    {
        self.service.clear_shown();
        self.service.host.send();
    }
}

/// When the turns began.
fn started<C: Clock>(rt: &C) -> Result<Instant, DoorFault> {
    match Instant::now(rt) {
        Ok(start) => Ok(start),
        Err(_) => Err(DoorFault::Clock),
    }
}

/// How many microseconds have passed.
fn microseconds<C: Clock>(rt: &C, start: &Instant) -> Result<u64, DoorFault> {
    match start.elapsed(rt) {
        Ok(passed) => Ok(u64::try_from(passed.as_micros()).unwrap_or(u64::MAX)),
        Err(_) => Err(DoorFault::Clock),
    }
}
