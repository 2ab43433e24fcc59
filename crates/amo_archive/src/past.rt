//! What became of the messages of a sender's earlier lives, as its journal tells it.
ghost use Rattle.std.specs.Prelude.{◌≡◌, ◌≢◌, ◌==◌, ◌↔◌, ◌+◌, ◌≤◌, ◌<◌, ◌^◌, ◌++◌, ◌∷◌, ℕ, List, [], None, Some, false, IfNone, IfOk, IfSome, IsTrue, OnOk, drop, length, option_copied, position, slice_get};
ghost use Rattle.std.specs.List.{list_any};
ghost use Rattle.amo_journal.specs.declared.numbered.Numbered.{Numbered};
ghost use Rattle.amo_journal.specs.declared.version.Version.{Version};
ghost use Rattle.amo_journal.specs.Journal.{InRange, line_text};
ghost use Rattle.amo_lives.specs.Life.{tag_field};
ghost use Rattle.amo_world.specs.Stream.{IsStream};
ghost use Rattle.amo_archive.specs.Fates.{IsLifeOf, fate_of, fate_of_none, is_followed_at_first, is_near, may_have_lost};
ghost use Rattle.amo_archive.specs.Lane.{AreEmpty, owners_in};
ghost use Rattle.amo_archive.specs.Records.{Follows, IsFirstOrBehind, next_number};
ghost use Rattle.amo_archive.specs.Reign.{begun, comes_back, goes_on_at, holds, is_taken, owner_by, seen, with_next, without_work};

use crate::gets::next_in_row;
use crate::lane::{Lane, Owner};
use amo_door::{Fate, Word};
use amo_journal::{Lines, Numbered};
use amo_lives::{Life, Span};
use amo_outcomes::{SenderFollowers, SenderOutcome};
use amo_text::read_hex;
use amo_world::{Act, Event, Reply, STREAMS};
use std::alloc::{AllocError, Global};

/// Whose lines are read.
#[derive(Clone, Copy)]
struct Reign {
    /// The place of the life among the lives; none where no life begins with the first of its lines.
    life: Option<usize>,
    /// Its host did something else than to come back.
    is_at_work: bool,
    /// The place of the life that begins next.
    upcoming: usize,
}

impl Reign {
    /// Nobody's yet.
    fn new() -> Reign
        ensures { result ≡ record { life = None; is_at_work = false; upcoming = 0 } }
    {
        Reign {
            life: None,
            is_at_work: false,
            upcoming: 0,
        }
    }

    /// Sees whose line this is. A host that comes back after others' work begins a reign; and one whose life begins with a line begins its own there,
    /// unless somebody is at work, or the life goes on under other words.
    fn see(&mut self, lives: &[Life], line: &Numbered)
        requires { self.old.upcoming ≤ length lives.now }
        ensures seen { self.new ≡ seen lives.now line.now self.old }
        ensures within { self.new.upcoming ≤ length lives.now }
    {
        let comes_back = comes_back(&line.event.act);
        self.end_work(comes_back);
        self.begin_lives(lives, line.number);
        self.is_at_work = self.is_at_work || !comes_back;
    }

    /// A host that comes back ends others' work.
    fn end_work(&mut self, comes_back: bool)
        ensures { self.new ≡ without_work comes_back self.old }
    {
        if comes_back && self.is_at_work {
            self.life = None;
            self.is_at_work = false;
        }
    }

    /// Lives that begin with the line of this number, or one before it, begin.
    fn begin_lives(&mut self, lives: &[Life], number: u64)
        requires { self.old.upcoming ≤ length lives.now }
        ensures begun { self.new ≡ begun lives.now number (drop self.old.upcoming lives.now) self.old }
        ensures within { self.new.upcoming ≤ length lives.now }
    {
        while self.upcoming < lives.len() {
            if number < lives[self.upcoming].first_line {
                return;
            }
            self.begin_next(lives);
        }
    }

    /// The next life begins.
    fn begin_next(&mut self, lives: &[Life])
        requires { self.old.upcoming + 1 < 2 ^ 64 }
        ensures { self.new ≡ with_next lives.now self.old }
    {
        if !self.is_at_work && !goes_on_at(lives, self.upcoming) {
            self.life = Some(self.upcoming);
        }
        self.upcoming += 1;
    }
}

/// Whether the life at this place goes on where the words of the one before it were used up.
fn goes_on_at(lives: &[Life], place: usize) -> bool
    ensures { result ≡ goes_on_at lives.now place }
{
    if place == 0 {
        return false;
    }
    match (lives.get(place - 1), lives.get(place)) {
        (Some(life), Some(next)) => life.goes_on(next),
        _ => false,
    }
}

/// Whether a side comes back by this act, or goes down before it does.
fn comes_back(act: &Act) -> bool
    ensures { result ≡ comes_back act.now }
{
    matches!(act, Act::Crash | Act::Recover)
}

/// What lines of a sender's journal tell of its puts, life by life. Of a line nothing is kept but what became of puts, and of a put a mark.
#[derive(Drop)]
pub struct Past {
    followers: SenderFollowers,
    /// That of stream 1 first.
    lanes: Vec<Lane>,
    lives: Vec<Life>,
    doubts: Vec<Span>,
    reign: Reign,
    /// The number of the last line that was read.
    last: Option<u64>,
    /// Memory was refused in the midst of a line: all is to be read anew.
    is_broken: bool,
    ghost all: { length lanes.items ≡ 256 },
    ghost within: { reign.upcoming ≤ length lives.items },
}

impl Past {
    ghost use Rattle.amo_archive.specs.Past.{GoesOn, HasRead, HasTaken, TellsFate};

    /// Nothing was read yet of the journal of a host with these lives, of which these lines are doubtful.
    pub fn new(alloc: Global, lives: Vec<Life>, doubts: Vec<Span>) -> Result<Past, AllocError>
        ensures read { IfOk result (λ past. HasRead past []) }
        ensures given { IfOk result (λ past. (past.lives ≡ lives) × (past.doubts ≡ doubts)) }
    {
        Ok(Past {
            followers: SenderFollowers::new(alloc)?,
            lanes: no_lanes(alloc)?,
            lives,
            doubts,
            reign: Reign::new(),
            last: None,
            is_broken: false,
        })
    }

    /// The number of the next line.
    pub fn next(&self) -> u64
        ensures { (lines : List Numbered) → HasRead self.now lines → result ≡ next_number lines }
    {
        match self.last {
            Some(last) if !self.is_broken => last.saturating_add(1),
            _ => 0,
        }
    }

    /// The place of the life of this word among the lives, if it is one: eight digits of HEX.
    pub fn life_of(&self, word: &Word) -> Option<usize>
        ensures { IsLifeOf word.now self.now.lives.items result }
    {
        match tag_of(word.bytes()) {
            Some(tag) => place_of(self.lives.as_slice(), tag),
            None => None,
        }
    }

    /// Reads the lines that stand in a row in front, where they follow on what was read. Answers what is left behind them.
    ///
    /// Where memory is refused, what was read is forgotten, and the next lines are to be the first again.
    pub fn read<'a>(&mut self, alloc: Global, lines: Lines<'a>) -> Result<Lines<'a>, AllocError>
        ensures { IfOk result (λ rest. (past : List Numbered) → HasRead self.old past → GoesOn lines.entry.version past rest.text.now lines.entry.text.now (HasRead self.new)) }
    {
        if self.is_broken {
            self.forget(alloc)?;
        }
        self.is_broken = true;
        let rest = self.read_row(alloc, lines)?;
        self.is_broken = false;
        Ok(rest)
    }

    /// Forgets what was read.
    fn forget(&mut self, alloc: Global) -> Result<(), AllocError> {
        self.followers = SenderFollowers::new(alloc)?;
        self.lanes = no_lanes(alloc)?;
        self.reign = Reign::new();
        self.last = None;
        Ok(())
    }

    /// Reads the lines that stand in a row in front.
    fn read_row<'a>(&mut self, alloc: Global, lines: Lines<'a>) -> Result<Lines<'a>, AllocError>
        ensures { IfOk result (λ rest. (past : List Numbered) → HasTaken self.old past → GoesOn lines.entry.version past rest.text.now lines.entry.text.now (HasTaken self.new)) }
    {
        let mut rest = lines;
        while !rest.text.is_empty() {
            let Some((line, more)) = next_of_all(alloc, rest, self.last)? else {
                return Ok(rest);
            };
            self.take(&line)?;
            rest = more;
        }
        Ok(rest)
    }

    /// One line more.
    fn take(&mut self, line: &Numbered) -> Result<(), AllocError>
        requires line { (version : Version) × InRange version line.now }
        requires first { IsFirstOrBehind self.old.last line.now.number }
        ensures { OnOk result ((past : List Numbered) → HasTaken self.old past → HasTaken self.new (line.now ∷ past)) }
    {
        self.reign.see(self.lives.as_slice(), line);
        self.count_put(line)?;
        self.followers.follow(&line.event)?;
        self.last = Some(line.number);
        Ok(())
    }

    /// A put is counted, if this line says that one was taken.
    fn count_put(&mut self, line: &Numbered) -> Result<(), AllocError>
        requires { IsStream line.now.event.stream }
        ensures same { self.new ≡ record self.old { lanes = self.new.lanes; all = self.new.all } }
        ensures counted { OnOk result ((place : ℕ) (kept : Lane) → slice_get self.new.lanes.items place ≡ Some kept → (lane : Lane) × (slice_get self.old.lanes.items place ≡ Some lane)
            × (owners_in kept ≡ owners_in lane ++ owner_by self.old.doubts.items (place + 1) self.old.reign line.now)) }
    {
        if !is_taken(&line.event) {
            return Ok(());
        }
        let owner = Owner {
            life: self.reign.life,
            is_doubtful: is_line_in(self.doubts.as_slice(), line.number),
        };
        self.lanes[line.event.stream as usize - 1].add(owner)
    }

    /// What became of the message of this number, counted from 1, that the life at this place put on a stream, as the lines tell it that were read.
    pub fn fate(&self, life: usize, stream: u32, number: u64) -> Fate
        requires { IsStream stream }
        ensures { (past : List Numbered) → length past < 2 ^ 64 → HasRead self.now past → TellsFate self.now life stream number past result }
    {
        let Some((put, is_doubtful)) = self.lanes[stream as usize - 1].find(life, number) else {
            return self.fate_of_none(life);
        };
        match self.followers.outcome(stream, put) {
            Some(outcome) => fate_of(outcome, is_doubtful),
            None => Fate::Unknown,
        }
    }
}

impl Past {
    /// What is told of a message of which no line tells, of the life at this place: it was never put, unless a loss of power may have taken its line, or the
    /// journal of that day may be gone.
    fn fate_of_none(&self, life: usize) -> Fate
        ensures { result ≡ fate_of_none self.now.doubts.items self.now.lives.items life }
    {
        let Some(begun) = self.lives.get(life) else {
            return Fate::Never;
        };
        let next = self.lives.get(life + 1);
        if may_have_lost(self.doubts.as_slice(), begun.first_line) || is_followed_at_first(next) {
            Fate::Unknown
        } else {
            Fate::Never
        }
    }
}

/// Whether the life behind one begins with the journal's first line. Then the journal had no line of the life before, or it was moved away and begun anew, which
/// its lives do not show.
fn is_followed_at_first(next: Option<&Life>) -> bool
    ensures { result ≡ is_followed_at_first (option_copied next.entry) }
{
    match next {
        Some(next) => next.first_line == 0,
        None => false,
    }
}

/// The line in front, if there is one and it follows on the one of this number; where none was read yet, if it is the journal's first. Where the first pieces are
/// gone nobody knows how many messages a life had put in them.
fn next_of_all<'a>(
    alloc: Global,
    lines: Lines<'a>,
    last: Option<u64>,
) -> Result<Option<(Numbered, Lines<'a>)>, AllocError>
    ensures { IfOk result (λ front. IfSome front (λ f. InRange lines.entry.version f.0 × (lines.entry.text.now ≡ line_text f.0 ++ f.1.text.now) × (f.1.version ≡ lines.entry.version) × Follows last f.0.number × IsFirstOrBehind last f.0.number)) }
{
    match next_in_row(alloc, lines, last)? {
        Some((line, more)) if is_first_or_behind(last, line.number) => Ok(Some((line, more))),
        _ => Ok(None),
    }
}

/// Whether a line of this number is the journal's first, where none was read yet.
fn is_first_or_behind(last: Option<u64>, number: u64) -> bool
    ensures { IsTrue result ↔ IsFirstOrBehind last number }
{
    match last {
        Some(_last) => true,
        None => number == 0,
    }
}

/// Whether a life that begins with this line may have lost its last lines, or the one before it or behind it.
fn may_have_lost(doubts: &[Span], first_line: u64) -> bool
    ensures { result ≡ may_have_lost doubts.now first_line }
{
    doubts.iter().any(|span| is_near(span, first_line))
}

/// Whether a span has the line of this number, or the one before it.
fn is_near(span: &Span, number: u64) -> bool
    ensures { result ≡ is_near number span.now }
{
    span.first <= number && number <= span.end
}

/// No puts on any stream.
fn no_lanes(alloc: Global) -> Result<Vec<Lane>, AllocError>
    ensures { IfOk result (λ lanes. AreEmpty 256 lanes.items) }
{
    let mut lanes = Vec::with_capacity(alloc, STREAMS as usize)?;
    for _stream in 0..STREAMS {
        lanes.push(Lane::new(alloc))?;
    }
    Ok(lanes)
}

/// Whether an event is a put that was taken.
fn is_taken(event: &Event) -> bool
    ensures { result ≡ is_taken event.now.act event.now.reply }
{
    matches!((&event.act, &event.reply), (Act::Put(_), Reply::Ok))
}

/// Whether the line of this number is one of these.
fn is_line_in(spans: &[Span], number: u64) -> bool
    ensures { result ≡ list_any (holds number) spans.now }
{
    spans.iter().any(|span| holds(span, number))
}

/// Whether a span has the line of this number.
fn holds(span: &Span, number: u64) -> bool
    ensures { result ≡ holds number span.now }
{
    span.first <= number && number < span.end
}

/// What is told of a put. What a loss of power may have changed is not known.
fn fate_of(outcome: SenderOutcome, is_doubtful: bool) -> Fate
    ensures { result ≡ fate_of outcome is_doubtful }
{
    match outcome {
        SenderOutcome::Got => Fate::Got,
        SenderOutcome::Unknown { settled: true } => Fate::Settled,
        SenderOutcome::Unknown { settled: false } => Fate::Unknown,
        SenderOutcome::Gone | SenderOutcome::Open if is_doubtful => Fate::Unknown,
        SenderOutcome::Gone => Fate::Gone,
        SenderOutcome::Open => Fate::Open,
    }
}

/// The place of the first of these lives that has this tag.
fn place_of(lives: &[Life], tag: u32) -> Option<usize>
    ensures { result ≡ position (λ life. life.tag == tag) lives.now }
{
    lives.iter().position(|life| life.tag == tag)
}

/// The tag that eight digits of HEX spell.
fn tag_of(text: &[u8]) -> Option<u32>
    ensures found { IfSome result (λ tag. (tag < 2 ^ 32) × (text.now ≡ tag_field tag)) }
    ensures none { IfNone result ((tag : ℕ) → tag < 2 ^ 32 → text.now ≢ tag_field tag) }
{
    let mut room = [0; 4];
    let count = read_hex(text, &mut room)?;
    if count == 4 {
        Some(u32::from_be_bytes(room))
    } else {
        None
    }
}
