//! How messages come to streams: those of lines, and those that wait.
ghost use Rattle.std.specs.Prelude.{◌≡◌, [], ◌∷◌, OnOk};
ghost use Rattle.amo_desk.specs.Serving.{Moves, Serves, message_of, moment};
ghost use Rattle.amo_live.specs.Host.{IsNoted};
ghost use Rattle.amo_live.specs.Service.{shown_by, spelling_of, streams_of, words_of};
ghost use Rattle.amo_live.specs.Shown.{IsRefusing, ShowsMore};
ghost use Rattle.amo_live.specs.Words.{BearsNew};

use crate::{Desk, ServeFault};
use amo_lines::{Backlog, Id, Line, LineFault, NamedMessage};
use amo_live::{Durable, Lineage, Service};
use amo_net::Link;
use amo_text::Sink;
use std::alloc::{AllocError, Global};
use std::io::{Read, Write};

/// How messages are given to streams in a turn.
#[derive(Clone, Copy)]
pub(crate) struct Giving {
    /// When it is, in microseconds.
    pub(crate) now: u64,
    /// A datagram brought a handshake on, and messages wait on each stream: none needs what stands further behind.
    pub(crate) flows: bool,
}

impl Giving {
    /// Whether a stream is given a message. Where messages flow it is given as many as may travel together, and the next when these do: each that waits there
    /// has its line kept, and all of that is no longer in the processor's cache by the time that it is sent. Otherwise it is given what it takes.
    fn allows<L: Link, S: Sink, W: Lineage>(self, service: &Service<L, S, W>, stream: u32) -> bool {
        if self.flows {
            service.lacks(stream)
        } else {
            service.takes(stream)
        }
    }

    /// How many lines are taken at most: where messages flow as many as streams lack, and one at least. Those behind them would only wait here. Otherwise as
    /// many as there is room for, so that a stream without messages finds its own behind those of others.
    fn most_lines<L: Link, S: Sink, W: Lineage>(self, service: &Service<L, S, W>) -> u64 {
        if self.flows {
            service.lacking().max(1)
        } else {
            u64::MAX
        }
    }
}

/// Puts what came: first what waits, stream after stream, and then each line, until as many messages wait as may, or as many lines were taken as this
/// turn takes.
pub(crate) fn take_lines<C: Eprint, L: Link, S: Durable, W: Lineage, I: Read, O: Write>(
    rt: &C,
    service: &mut Service<L, S, W>,
    desk: &mut Desk<I, O>,
    giving: Giving,
) -> Result<(), ServeFault>
    requires { IsNoted S.written service.old.host }
    ensures noted { OnOk result (IsNoted S.written service.new.host) }
    ensures serves { OnOk result (Serves desk.old.spelling desk.old.puts (streams_of service.old) []
        (moment desk.old.input desk.old.kept service.old.host.pass) (moment desk.new.input desk.new.kept service.new.host.pass)) }
    ensures streams { streams_of service.new ≡ streams_of service.old }
    ensures shown { OnOk result (ShowsMore (spelling_of service.old) service.old.host.pass service.new.host.pass (shown_by service.old) (shown_by service.new)) }
    ensures words { OnOk result (BearsNew W.is_drawn (words_of service.old) (words_of service.new) service.old.host.pass service.new.host.pass) }
    ensures spells { spelling_of service.new ≡ spelling_of service.old }
    ensures same { desk.new ≡ record desk.old { input = desk.new.input; kept = desk.new.kept; has_more = desk.new.has_more } }
{
    if desk.bell.was_rung() {
        return Ok(());
    }
    put_kept(service, &mut desk.kept, giving)?;
    desk.has_more = true;
    'lines: for _line in 0..giving.most_lines(service) {
        if desk.kept.is_full() {
            break;
        }
        let Some(line) = desk.input.next(desk.spelling)? else {
            desk.has_more = false;
            break;
        };
        put_line(rt, service, desk, line, giving)?;
    }
    Ok(())
}

/// Puts the messages that wait, stream after stream, each until it is given no more.
fn put_kept<L: Link, S: Durable, W: Lineage>(
    service: &mut Service<L, S, W>,
    kept: &mut Backlog,
    giving: Giving,
) -> Result<(), ServeFault>
    requires { IsNoted S.written service.old.host }
    ensures noted { OnOk result (IsNoted S.written service.new.host) }
    ensures moves { OnOk result (Moves [] kept.old kept.new service.old.host.pass service.new.host.pass) }
    ensures streams { streams_of service.new ≡ streams_of service.old }
    ensures shown { OnOk result (ShowsMore (spelling_of service.old) service.old.host.pass service.new.host.pass (shown_by service.old) (shown_by service.new)) }
    ensures words { OnOk result (BearsNew W.is_drawn (words_of service.old) (words_of service.new) service.old.host.pass service.new.host.pass) }
    ensures spells { spelling_of service.new ≡ spelling_of service.old }
{
    if kept.is_empty() {
        return Ok(());
    }
    let streams = kept.streams();
    'streams: for place in 0..streams {
        put_kept_on(service, kept, place.saturating_add(1), giving)?;
    }
    Ok(())
}

/// Puts the messages that wait on a stream, until it is given no more.
fn put_kept_on<L: Link, S: Durable, W: Lineage>(
    service: &mut Service<L, S, W>,
    kept: &mut Backlog,
    stream: u32,
    giving: Giving,
) -> Result<(), ServeFault>
    requires { IsNoted S.written service.old.host }
    ensures noted { OnOk result (IsNoted S.written service.new.host) }
    ensures moves { OnOk result (Moves [] kept.old kept.new service.old.host.pass service.new.host.pass) }
    ensures streams { streams_of service.new ≡ streams_of service.old }
    ensures shown { OnOk result (ShowsMore (spelling_of service.old) service.old.host.pass service.new.host.pass (shown_by service.old) (shown_by service.new)) }
    ensures words { OnOk result (BearsNew W.is_drawn (words_of service.old) (words_of service.new) service.old.host.pass service.new.host.pass) }
    ensures spells { spelling_of service.new ≡ spelling_of service.old }
{
    'messages: for _message in 0..u64::MAX {
        if !put_first(service, kept, stream, giving)? {
            break;
        }
    }
    Ok(())
}

/// Puts the first message that waits on a stream. Answers whether it was taken.
#[tactic(auto, using(amo_live::proofs::Fresh::bears_none))]
fn put_first<L: Link, S: Durable, W: Lineage>(
    service: &mut Service<L, S, W>,
    kept: &mut Backlog,
    stream: u32,
    giving: Giving,
) -> Result<bool, ServeFault>
    requires { IsNoted S.written service.old.host }
    ensures noted { OnOk result (IsNoted S.written service.new.host) }
    ensures moves { OnOk result (Moves [] kept.old kept.new service.old.host.pass service.new.host.pass) }
    ensures streams { streams_of service.new ≡ streams_of service.old }
    ensures shown { OnOk result (ShowsMore (spelling_of service.old) service.old.host.pass service.new.host.pass (shown_by service.old) (shown_by service.new)) }
    ensures words { OnOk result (BearsNew W.is_drawn (words_of service.old) (words_of service.new) service.old.host.pass service.new.host.pass) }
    ensures spells { spelling_of service.new ≡ spelling_of service.old }
{
    // Most streams are given none in most turns, and a message that is taken out and put back costs more than a look.
    if !giving.allows(service, stream) {
        return Ok(false);
    }
    let Some(named) = kept.take(stream) else {
        return Ok(false);
    };
    match service.put(stream, named, giving.now)? {
        Some(named) => {
            kept.put_back(stream, named)?;
            Ok(false)
        }
        None => Ok(true),
    }
}

/// Puts the message of a line, if it is one for a stream of this host.
#[tactic(auto, using(amo_live::proofs::Fresh::bears_none))]
fn put_line<C: Eprint, L: Link, S: Durable, W: Lineage, I: Read, O: Write>(
    rt: &C,
    service: &mut Service<L, S, W>,
    desk: &mut Desk<I, O>,
    line: Line,
    giving: Giving,
) -> Result<(), ServeFault>
    requires { IsNoted S.written service.old.host }
    ensures noted { OnOk result (IsNoted S.written service.new.host) }
    ensures moves { OnOk result (Moves (message_of desk.old.puts (streams_of service.old) line) desk.old.kept desk.new.kept service.old.host.pass service.new.host.pass) }
    ensures streams { streams_of service.new ≡ streams_of service.old }
    ensures shown { OnOk result (ShowsMore (spelling_of service.old) service.old.host.pass service.new.host.pass (shown_by service.old) (shown_by service.new)) }
    ensures words { OnOk result (BearsNew W.is_drawn (words_of service.old) (words_of service.new) service.old.host.pass service.new.host.pass) }
    ensures spells { spelling_of service.new ≡ spelling_of service.old }
    ensures same { desk.new ≡ record desk.old { kept = desk.new.kept } }
{
    match line {
        Line::Put(stream, named) if desk.puts && service.has(stream) => {
            put_or_keep(service, &mut desk.kept, stream, named, giving)?;
        }
        Line::Put(stream, named) => {
            let fault = LineFault::Stream(u64::from(stream));
            refuse(rt, service, desk, fault, &named.id)?;
        }
        Line::Unread(fault, id) => refuse(rt, service, desk, fault, &id)?,
    }
    Ok(())
}

/// Puts a message, unless others wait on its stream, or it is given none now. One that is not put waits behind them.
#[tactic(auto, using(amo_live::proofs::Fresh::bears_none))]
fn put_or_keep<L: Link, S: Durable, W: Lineage>(
    service: &mut Service<L, S, W>,
    kept: &mut Backlog,
    stream: u32,
    named: NamedMessage,
    giving: Giving,
) -> Result<(), ServeFault>
    requires { IsNoted S.written service.old.host }
    ensures noted { OnOk result (IsNoted S.written service.new.host) }
    ensures moves { OnOk result (Moves ((stream, named) ∷ []) kept.old kept.new service.old.host.pass service.new.host.pass) }
    ensures streams { streams_of service.new ≡ streams_of service.old }
    ensures shown { OnOk result (ShowsMore (spelling_of service.old) service.old.host.pass service.new.host.pass (shown_by service.old) (shown_by service.new)) }
    ensures words { OnOk result (BearsNew W.is_drawn (words_of service.old) (words_of service.new) service.old.host.pass service.new.host.pass) }
    ensures spells { spelling_of service.new ≡ spelling_of service.old }
{
    if kept.has(stream) || !giving.allows(service, stream) {
        kept.keep(stream, named)?;
        return Ok(());
    }
    if let Some(named) = service.put(stream, named, giving.now)? {
        kept.keep(stream, named)?;
    }
    Ok(())
}

/// Tells why the line that was taken last is none: where lines are objects its client, and else the operator.
fn refuse<C: Eprint, L: Link, S: Durable, W: Lineage, I: Read, O: Write>(
    rt: &C,
    service: &mut Service<L, S, W>,
    desk: &Desk<I, O>,
    fault: LineFault,
    id: &Id,
) -> Result<(), ServeFault>
    ensures host { service.new.host ≡ service.old.host }
    ensures streams { streams_of service.new ≡ streams_of service.old }
    ensures words { words_of service.new ≡ words_of service.old }
    ensures spells { spelling_of service.new ≡ spelling_of service.old }
    ensures told { OnOk result (IsRefusing (shown_by service.old) (shown_by service.new)) }
{
    if !desk.puts {
        return Ok(());
    }
    if desk.spelling.json {
        let reason = reason_of(desk.input.alloc(), fault, service.streams())?;
        service.tell_refused(id, desk.input.lines(), reason.as_str())?;
    } else {
        desk.tell_refused(rt, fault, service.streams());
    }
    Ok(())
}

/// Why a line is none, in words, at a host of so many streams.
fn reason_of(alloc: Global, fault: LineFault, streams: usize) -> Result<String, AllocError> {
    match fault {
        LineFault::Stream(stream) => format!(in alloc; "stream {stream} of {streams}"),
        _ => format!(in alloc; "{fault}"),
    }
}
